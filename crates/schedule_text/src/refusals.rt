//! Why a line was not read.

use std::alloc::AllocError;
use thiserror::Error;

/// Why a line was not read.
#[derive(Clone, Copy, Debug, PartialEq, Eq, Error)]
pub enum LineRefusal {
    /// It is outside the grammar.
    #[error("bad line")]
    BadLine,
    /// No memory was found.
    #[error("no memory")]
    NoMemory,
}

impl From<AllocError> for LineRefusal {
    ghost use Rattle.std.specs.Prelude.{◌≡◌};
    ghost use Rattle.schedule_text.specs.declared.refusals.LineRefusal.TheVariants.{NoMemory};

    ghost from_gives = { λ _ e. e ≡ NoMemory };

    fn from(_error: AllocError) -> LineRefusal {
        LineRefusal::NoMemory
    }
}
