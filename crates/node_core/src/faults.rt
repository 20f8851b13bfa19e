//! Why an event was not done.

use node_model::shell_session::SessionFault;
use std::alloc::AllocError;
use thiserror::Error;

/// Why an event was not done.
#[derive(Clone, Copy, Debug, PartialEq, Eq, Error)]
pub enum NodeFault {
    /// The device failed.
    #[error("the device failed")]
    Device,
    /// Memory ran out.
    #[error("out of memory")]
    NoMemory,
}

impl From<AllocError> for NodeFault {
    ghost use Rattle.std.specs.Prelude.{◌≡◌};
    ghost use Rattle.node_core.specs.declared.faults.NodeFault.TheVariants.{NoMemory};

    ghost from_gives = { λ _ fault. fault ≡ NoMemory };

    fn from(_error: AllocError) -> NodeFault {
        NodeFault::NoMemory
    }
}

impl From<SessionFault> for NodeFault {
    ghost use Rattle.std.specs.Prelude.{◌≡◌};
    ghost use Rattle.node_core.specs.NodeFaults.{node_fault_of};

    ghost from_gives = { λ session fault. fault ≡ node_fault_of session };

    fn from(session: SessionFault) -> NodeFault {
        match session {
            SessionFault::Device => NodeFault::Device,
            SessionFault::NoMemory => NodeFault::NoMemory,
        }
    }
}
