//! Why entries are not fused.
ghost use Rattle.std.specs.Prelude.{◌≡◌};
ghost use Rattle.op_fusion.specs.declared.faults.FuseFault.TheVariants as faults;

use std::alloc::AllocError;
use thiserror::Error;

/// Why entries are not fused.
#[derive(Clone, Copy, Debug, PartialEq, Eq, Error)]
pub enum FuseFault {
    /// The paths differ, there is a gap between the ranges, or the second doesn't go beyond the first.
    #[error("the second range does not go on from the first")]
    NotAdjacent,
    /// Memory ran out.
    #[error("out of memory")]
    NoMemory,
}

impl From<AllocError> for FuseFault {
    ghost from_gives = { λ _ fault. fault ≡ faults.NoMemory };

    fn from(_error: AllocError) -> FuseFault {
        FuseFault::NoMemory
    }
}
