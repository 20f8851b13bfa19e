//! Why a line was not done.
use net_world::WorldFault;
use schedule_text::LineRefusal;
use std::alloc::AllocError;
use thiserror::Error;

/// Why a line was not done, or the lines could not be ended.
#[derive(Clone, Copy, Debug, PartialEq, Eq, Error)]
pub enum LineStop {
    /// It is outside the grammar.
    #[error("bad line")]
    BadLine,
    /// The device of a clone failed.
    #[error("clone {0}: device fault")]
    Device(u8),
    /// No memory was found.
    #[error("no memory")]
    NoMemory,
}

impl From<LineRefusal> for LineStop {
    ghost use Rattle.std.specs.Prelude.{◌≡◌};
    ghost use Rattle.mld_replay.specs.Stops.{stop_of};

    ghost from_gives = { λ refusal stop. stop ≡ stop_of refusal };

    fn from(refusal: LineRefusal) -> LineStop {
        match refusal {
            LineRefusal::BadLine => LineStop::BadLine,
            LineRefusal::NoMemory => LineStop::NoMemory,
        }
    }
}

impl From<WorldFault> for LineStop {
    ghost use Rattle.std.specs.Prelude.{◌≡◌};
    ghost use Rattle.mld_replay.specs.Stops.{stop_of_world};

    ghost from_gives = { λ fault stop. stop ≡ stop_of_world fault };

    fn from(fault: WorldFault) -> LineStop {
        match fault {
            WorldFault::Device { clone } => LineStop::Device(clone),
            WorldFault::NoMemory => LineStop::NoMemory,
        }
    }
}

impl From<AllocError> for LineStop {
    ghost use Rattle.std.specs.Prelude.{◌≡◌};
    ghost use Rattle.mld_replay.specs.declared.stops.LineStop.TheVariants.{NoMemory};

    ghost from_gives = { λ _ stop. stop ≡ NoMemory };

    fn from(_error: AllocError) -> LineStop {
        LineStop::NoMemory
    }
}
