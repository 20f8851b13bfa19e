//! Why a query isn't answered.
ghost use Rattle.std.specs.Prelude.{◌≡◌};
ghost use Rattle.jrql_eval.specs.declared.faults.EvalFault.TheVariants as faults;

use std::alloc::AllocError;
use thiserror::Error;

/// Why a group's solutions aren't given.
#[derive(Clone, Copy, Debug, PartialEq, Eq, Drop, Error)]
pub enum EvalFault {
    /// There are more than 1,048,576 solutions.
    #[error("more than 1,048,576 solutions")]
    TooMany,
    /// Memory ran out.
    #[error("out of memory")]
    NoMemory,
}

impl From<AllocError> for EvalFault {
    ghost from_gives = { λ _ fault. fault ≡ faults.NoMemory };

    fn from(_error: AllocError) -> EvalFault {
        EvalFault::NoMemory
    }
}
