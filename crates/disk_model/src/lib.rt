//! Devices of two sides in memory, which can be made to fail and to crash.
#![tactic(auto)]

mod banks;
mod bytes;
mod calls;
mod sides;
mod steps;
mod store;
mod unsynced;

pub use banks::{MemoryBanks, blank_banks};
