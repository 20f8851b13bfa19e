//! Journals on a device of two sides: what a clone keeps, in records that survive a crash.
#![tactic(auto)]

mod appending;
mod bank_reading;
mod device;
mod faults;
mod journals;
mod mounting;
mod writing;

pub use faults::{AppendFault, MakeFault, MountFault, SwapFault, Why};
pub use journal_sides;
pub use journal_sides::Head;
pub use journals::{Blank, Journal};
pub use mounting::JournalMounted;
