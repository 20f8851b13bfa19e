//! What a clone was at an earlier clock, and taking back operations of its own.
#![tactic(auto)]

mod checks;
mod faults;
mod past;
mod plans;
mod taking;
mod undoing;

pub use faults::{PastFault, UndoFault};
pub use past::{as_of, graph_as_of};
pub use undoing::{undo, undo_plan};
