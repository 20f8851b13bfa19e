//! Whether filters hold of a row, or may hold of one that has more values.
#![tactic(auto)]

mod filters;
mod limits;
mod values;

pub use filters::{all_can_hold, all_hold};
pub use values::{Values, term_at};
