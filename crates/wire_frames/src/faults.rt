//! Why frames, messages and parts are refused.
ghost use Rattle.std.specs.Prelude.{◌≡◌};

use std::alloc::AllocError;
use thiserror::Error;

/// The first fault of a stream of frames. Its place is that of the frame's first byte, from 0 at the
/// stream's first byte, and one past 2^64-1 is told as 2^64-1.
#[derive(Clone, Copy, Debug, PartialEq, Eq, Error)]
pub enum FrameFault {
    /// The kind is no kind, or the payload isn't one of its kind.
    #[error("a bad frame (at byte {place})")]
    BadFrame {
        /// The frame's first byte.
        place: u64,
    },
    /// The header announces more bytes than a payload may have.
    #[error("a frame too long (at byte {place})")]
    TooLong {
        /// The frame's first byte.
        place: u64,
    },
}

/// Why a message doesn't go in parts.
#[derive(Clone, Copy, Debug, PartialEq, Eq, Error)]
pub enum PartFault {
    /// The message has more bytes than go in parts.
    #[error("a message too long")]
    MessageTooLong,
    /// There was no memory for the parts.
    #[error("out of memory")]
    NoMemory,
}

/// Why a part isn't taken.
#[derive(Clone, Copy, Debug, PartialEq, Eq, Error)]
pub enum AssemblyFault {
    /// It isn't the next part, or it is the last of bytes that spell no message.
    #[error("a bad part")]
    BadPart,
    /// There was no memory for the message.
    #[error("out of memory")]
    NoMemory,
}

impl From<AllocError> for PartFault {
    ghost use Rattle.wire_frames.specs.declared.faults.PartFault.TheVariants.{NoMemory};

    ghost from_gives = { λ _ fault. fault ≡ NoMemory };

    fn from(_error: AllocError) -> PartFault {
        PartFault::NoMemory
    }
}

impl From<AllocError> for AssemblyFault {
    ghost use Rattle.wire_frames.specs.declared.faults.AssemblyFault.TheVariants.{NoMemory};

    ghost from_gives = { λ _ fault. fault ≡ NoMemory };

    fn from(_error: AllocError) -> AssemblyFault {
        AssemblyFault::NoMemory
    }
}
