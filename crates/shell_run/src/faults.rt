//! Why words were not read.

use std::alloc::AllocError;
use thiserror::Error;

/// Why words were not read.
#[derive(Clone, Copy, Debug, PartialEq, Eq, Error)]
pub enum FolderFault {
    /// They are not the name of one folder.
    #[error("usage")]
    Usage,
    /// No memory was found.
    #[error("no memory")]
    NoMemory,
}

impl From<AllocError> for FolderFault {
    ghost use Rattle.std.specs.Prelude.{◌≡◌};
    ghost use Rattle.shell_run.specs.declared.faults.FolderFault.TheVariants.{NoMemory};

    ghost from_gives = { λ _ e. e ≡ NoMemory };

    fn from(_error: AllocError) -> FolderFault {
        FolderFault::NoMemory
    }
}
