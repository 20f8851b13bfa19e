//! Queries over a graph: solutions, selects and describes; and the effects of updates.
#![tactic(auto)]

mod describing;
mod effects;
mod faults;
mod limits;
mod scanning;
mod searching;
mod selecting;
mod solving;
mod templates;

pub use describing::describe;
pub use effects::{effect, one_effect};
pub use faults::EvalFault;
pub use limits::SOLUTION_LIMIT;
pub use selecting::select;
pub use solving::solutions;
