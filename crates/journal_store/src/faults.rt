//! Why a journal refuses.
ghost use Rattle.std.specs.Prelude.{◌≡◌};

use crate::device::Stop;
use mld_io::{IoFault, Side};
use std::alloc::AllocError;
use thiserror::Error;

/// What stops a call on a journal that is open, and what an earlier call closed a journal for.
#[derive(Clone, Copy, Debug, PartialEq, Eq)]
pub enum Why {
    /// The device failed.
    Device,
    /// Memory ran out between two calls of the device.
    NoMemory,
}

/// Why banks were not mounted.
#[derive(Clone, Copy, Debug, PartialEq, Eq, Error)]
pub enum MountFault {
    /// An open gate has bytes behind it that are none of a journal.
    #[error("side {side:?} is damaged (at byte {place})")]
    Damaged {
        /// The side.
        side: Side,
        /// The byte where what is wrong begins, from the side's begin.
        place: u64,
    },
    /// The device failed.
    #[error("the device failed")]
    Device,
    /// Memory ran out.
    #[error("out of memory")]
    NoMemory,
}

/// Why no journal was made.
#[derive(Clone, Copy, Debug, PartialEq, Eq, Error)]
pub enum MakeFault {
    /// The device failed.
    #[error("the device failed")]
    Device,
    /// Memory ran out.
    #[error("out of memory")]
    NoMemory,
}

/// Why nothing was appended.
#[derive(Clone, Copy, Debug, PartialEq, Eq, Error)]
pub enum AppendFault {
    /// An earlier call closed the journal.
    #[error("the journal is closed")]
    Closed {
        /// What that call was refused for.
        why: Why,
    },
    /// The device failed.
    #[error("the device failed")]
    Device,
    /// Memory ran out.
    #[error("out of memory")]
    NoMemory,
}

/// Why nothing was swapped.
#[derive(Clone, Copy, Debug, PartialEq, Eq, Error)]
pub enum SwapFault {
    /// An earlier call closed the journal.
    #[error("the journal is closed")]
    Closed {
        /// What that call was refused for.
        why: Why,
    },
    /// The generation is the greatest that there is.
    #[error("no generation is left")]
    GenerationsSpent,
    /// The device failed.
    #[error("the device failed")]
    Device,
    /// Memory ran out.
    #[error("out of memory")]
    NoMemory,
}

impl From<IoFault> for MountFault {
    ghost use Rattle.std.specs.Prelude.{◌≡◌};
    ghost use Rattle.journal_store.specs.Found.{device_fault};

    ghost from_gives = { λ io fault. fault ≡ device_fault io };

    fn from(fault: IoFault) -> MountFault {
        match fault {
            IoFault::Failed => MountFault::Device,
            IoFault::NoMemory => MountFault::NoMemory,
        }
    }
}

impl From<AllocError> for Why {
    ghost use Rattle.journal_store.specs.declared.faults.Why.TheVariants.{NoMemory};

    ghost from_gives = { λ _ why. why ≡ NoMemory };

    fn from(_fault: AllocError) -> Why {
        Why::NoMemory
    }
}

impl From<Why> for AppendFault {
    ghost use Rattle.journal_store.specs.CallEnds.{append_fault};

    ghost from_gives = { λ why e. e ≡ append_fault why };

    fn from(why: Why) -> AppendFault {
        match why {
            Why::Device => AppendFault::Device,
            Why::NoMemory => AppendFault::NoMemory,
        }
    }
}

impl From<Why> for SwapFault {
    ghost use Rattle.journal_store.specs.CallEnds.{swap_fault};

    ghost from_gives = { λ why e. e ≡ swap_fault why };

    fn from(why: Why) -> SwapFault {
        match why {
            Why::Device => SwapFault::Device,
            Why::NoMemory => SwapFault::NoMemory,
        }
    }
}

impl From<Stop> for MakeFault {
    ghost use Rattle.journal_store.specs.CallEnds.{make_fault};

    ghost from_gives = { λ stop e. e ≡ make_fault stop };

    fn from(stop: Stop) -> MakeFault {
        match stop {
            Stop::Before => MakeFault::NoMemory,
            Stop::Within(Why::Device) => MakeFault::Device,
            Stop::Within(Why::NoMemory) => MakeFault::NoMemory,
        }
    }
}
