//! Why an entry is not held.
ghost use Rattle.std.specs.Prelude.{◌≡◌};
ghost use Rattle.causal_buffer.specs.declared.faults.HeldFault.TheVariants as faults;

use std::alloc::AllocError;
use thiserror::Error;

/// Why an entry is not held.
#[derive(Clone, Copy, Debug, PartialEq, Eq, Error)]
pub enum HeldFault {
    /// As many entries are held as may be.
    #[error("too many entries are held")]
    Full,
    /// Memory ran out.
    #[error("out of memory")]
    NoMemory,
}

impl From<AllocError> for HeldFault {
    ghost from_gives = { λ _ fault. fault ≡ faults.NoMemory };

    fn from(_error: AllocError) -> HeldFault {
        HeldFault::NoMemory
    }
}
