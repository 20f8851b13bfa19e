//! The lines of an input of a program: the limits that they are read under, the next line under them, which line is too large, and
//! which were taken so far.
#![tactic(auto)]

mod faults;
mod limits;
mod next;

pub use faults::InputFault;
pub use limits::{INPUT_LIMIT, LINE_LIMIT};
pub use next::next_line;
