//! Laws of the rows that a change of triples touches, and the steps that a watch of a select is made of.
#![tactic(auto)]

mod binding;
mod faults;
mod steps;
mod touching;

pub use binding::{group_behind, lay_over, row_with};
pub use faults::LiveFault;
pub use steps::{OnceStep, Report, Step, done, project_rows, ready};
pub use touching::{are_untouched, has_parts};
