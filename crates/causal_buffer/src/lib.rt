//! Entries that came before what they rest on, which wait until it is known.
#![tactic(auto)]

mod faults;
mod held;
mod ready;

pub use faults::HeldFault;
pub use held::{Held, Kept};
pub use ready::{is_known, is_ready};
