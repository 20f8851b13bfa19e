//! Why a past state isn't told, and why an operation isn't taken back.
use clone_core::UpdateFault;
use clone_core::journal_store::Why;
use std::alloc::AllocError;
use thiserror::Error;
use tree_clock::{Dot, Range};

/// Why the state at an earlier clock wasn't told.
#[derive(Clone, Copy, Debug, PartialEq, Eq, Error)]
pub enum PastFault {
    /// An earlier call closed the clone.
    #[error("the clone is closed")]
    Closed {
        /// Why it did.
        why: Why,
    },
    /// The last dot of the clock at some path isn't known: the first one, by path.
    #[error("dot {dot} isn't known")]
    Unknown {
        /// The dot.
        dot: Dot,
    },
    /// A dot of the clone's base is none of the clock's.
    #[error("the clock is behind the base")]
    BehindBase,
    /// Neither the base nor a range of the journal ends at the last dot of the clock at some path: the first one, by path.
    #[error("dot {dot} is within a range")]
    Split {
        /// The dot.
        dot: Dot,
    },
    /// The last dot of a range of the journal is one of the clock's, and a dot of its time isn't: the first such range.
    #[error("the clock lacks what range {range} rests on")]
    NotClosed {
        /// The range.
        range: Range,
    },
    /// Memory ran out.
    #[error("out of memory")]
    NoMemory,
}

/// Why an operation wasn't taken back.
#[derive(Debug, PartialEq, Eq, Error, Drop)]
pub enum UndoFault {
    /// The update that takes it back was refused, or an earlier call closed the clone.
    #[error("{0}")]
    Update(UpdateFault),
    /// The dot isn't of the clone's own path.
    #[error("the dot isn't the clone's own")]
    NotOwn,
    /// No range of the journal has just that dot.
    #[error("the journal has no range of just that dot")]
    NotKept,
    /// Memory ran out. The clone is as it was.
    #[error("out of memory")]
    NoMemory,
}

impl From<AllocError> for PastFault {
    ghost use Rattle.std.specs.Prelude.{◌≡◌};
    ghost use Rattle.clone_history.specs.declared.faults.PastFault.TheVariants.{NoMemory};

    ghost from_gives = { λ _ fault. fault ≡ NoMemory };

    fn from(_error: AllocError) -> PastFault {
        PastFault::NoMemory
    }
}

impl From<AllocError> for UndoFault {
    ghost use Rattle.std.specs.Prelude.{◌≡◌};
    ghost use Rattle.clone_history.specs.declared.faults.UndoFault.TheVariants.{NoMemory};

    ghost from_gives = { λ _ fault. fault ≡ NoMemory };

    fn from(_error: AllocError) -> UndoFault {
        UndoFault::NoMemory
    }
}

impl From<UpdateFault> for UndoFault {
    ghost use Rattle.std.specs.Prelude.{◌≡◌};
    ghost use Rattle.clone_history.specs.declared.faults.UndoFault.TheVariants.{Update};

    ghost from_gives = { λ update fault. fault ≡ Update update };

    fn from(fault: UpdateFault) -> UndoFault {
        UndoFault::Update(fault)
    }
}
