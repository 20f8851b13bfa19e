//! Why a step isn't done.
use std::alloc::{AllocError, AllocFailed};

/// Why a step isn't done.
#[derive(Clone, Copy)]
pub enum Fault {
    /// The device failed.
    Device,
    /// There is no such step, or it was refused for another reason.
    Amiss,
    /// Memory ran out.
    NoMemory,
}

/// What a step gives, or why it isn't done.
pub type Tried<T> = Result<T, Fault>;

impl From<AllocError> for Fault {
    fn from(_fault: AllocError) -> Fault {
        Fault::NoMemory
    }
}

impl<T: Drop> From<AllocFailed<T>> for Fault {
    fn from(_fault: AllocFailed<T>) -> Fault {
        Fault::NoMemory
    }
}
