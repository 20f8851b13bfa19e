//! Why a watch isn't opened or changed.
ghost use Rattle.std.specs.Prelude.{◌≡◌};
ghost use Rattle.watch_laws.specs.declared.faults.LiveFault.TheVariants as faults;

use jrql_eval::EvalFault;
use std::alloc::AllocError;
use thiserror::Error;

/// Why a watch isn't opened or changed.
#[derive(Clone, Copy, Debug, PartialEq, Eq, Drop, Error)]
pub enum LiveFault {
    /// The query is a describe, or has an offset other than 0 or a limit.
    #[error("not a select of all rows")]
    NotSelect,
    /// There are more than 1,048,576 solutions.
    #[error("more than 1,048,576 solutions")]
    TooMany,
    /// Memory ran out.
    #[error("out of memory")]
    NoMemory,
}

impl From<AllocError> for LiveFault {
    ghost from_gives = { λ _ fault. fault ≡ faults.NoMemory };

    fn from(_error: AllocError) -> LiveFault {
        LiveFault::NoMemory
    }
}

impl From<EvalFault> for LiveFault {
    ghost use Rattle.std.specs.Prelude.{◌≡◌};
    ghost use Rattle.watch_laws.specs.WatchFaults.{live_fault_of};

    ghost from_gives = { λ fault live. live ≡ live_fault_of fault };

    fn from(fault: EvalFault) -> LiveFault {
        match fault {
            EvalFault::TooMany => LiveFault::TooMany,
            EvalFault::NoMemory => LiveFault::NoMemory,
        }
    }
}
