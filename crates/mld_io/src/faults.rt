//! The faults of reads, writes and lines.
ghost use Rattle.std.specs.Prelude.{◌≡◌};

use std::alloc::{AllocError, AllocFailed};
use thiserror::Error;

/// A read failed.
#[derive(Clone, Copy, Debug, PartialEq, Eq, Error)]
#[error("a read failed")]
pub struct Failed;

/// Why a sink refused a piece.
#[derive(Clone, Copy, Debug, PartialEq, Eq, Error)]
pub enum IoFault {
    /// The write failed.
    #[error("a write failed")]
    Failed,
    /// There was no memory for the piece.
    #[error("out of memory")]
    NoMemory,
}

/// Why there is no next line.
#[derive(Clone, Copy, Debug, PartialEq, Eq, Error)]
pub enum LineFault {
    /// A read failed.
    #[error("a read failed")]
    ReadFault,
    /// The next line does not fit the limits.
    #[error("a line or the input is too large")]
    TooLarge,
    /// There was no memory for the line.
    #[error("out of memory")]
    NoMemory,
}

/// Why a piece was not written whole.
#[derive(Clone, Copy, Debug, PartialEq, Eq, Error)]
pub enum WriteFault {
    /// A write failed.
    #[error("a write failed")]
    Failed,
    /// There was no memory for the piece.
    #[error("out of memory")]
    NoMemory,
}

impl From<AllocError> for IoFault {
    ghost use Rattle.mld_io.specs.declared.faults.IoFault.TheVariants.{NoMemory};

    ghost from_gives = { λ _ e. e ≡ NoMemory };

    fn from(_fault: AllocError) -> IoFault {
        IoFault::NoMemory
    }
}

impl From<AllocError> for LineFault {
    ghost use Rattle.mld_io.specs.declared.faults.LineFault.TheVariants.{NoMemory};

    ghost from_gives = { λ _ e. e ≡ NoMemory };

    fn from(_fault: AllocError) -> LineFault {
        LineFault::NoMemory
    }
}

impl<T: Drop> From<AllocFailed<T>> for LineFault {
    ghost use Rattle.mld_io.specs.declared.faults.LineFault.TheVariants.{NoMemory};

    ghost from_gives = { λ _ e. e ≡ NoMemory };

    fn from(_fault: AllocFailed<T>) -> LineFault {
        LineFault::NoMemory
    }
}

impl From<Failed> for LineFault {
    ghost use Rattle.mld_io.specs.declared.faults.LineFault.TheVariants.{ReadFault};

    ghost from_gives = { λ _ e. e ≡ ReadFault };

    fn from(_fault: Failed) -> LineFault {
        LineFault::ReadFault
    }
}

impl From<IoFault> for WriteFault {
    ghost use Rattle.mld_io.specs.Faults.{write_fault_of};

    ghost from_gives = { λ f e. e ≡ write_fault_of f };

    fn from(fault: IoFault) -> WriteFault {
        match fault {
            IoFault::Failed => WriteFault::Failed,
            IoFault::NoMemory => WriteFault::NoMemory,
        }
    }
}
