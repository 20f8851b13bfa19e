//! Why words were not read.

use std::alloc::AllocError;
use thiserror::Error;

/// Why words were not read.
#[derive(Clone, Copy, Debug, PartialEq, Eq, Error)]
pub enum NodeWordsFault {
    /// They are not those of a node.
    #[error("usage")]
    Usage,
    /// No memory was found.
    #[error("no memory")]
    NoMemory,
}

impl From<AllocError> for NodeWordsFault {
    ghost use Rattle.std.specs.Prelude.{◌≡◌};
    ghost use Rattle.node_run.specs.declared.faults.NodeWordsFault.TheVariants.{NoMemory};

    ghost from_gives = { λ _ e. e ≡ NoMemory };

    fn from(_error: AllocError) -> NodeWordsFault {
        NodeWordsFault::NoMemory
    }
}
