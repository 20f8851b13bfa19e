//! The run of a schedule over a source, a sink and the banks of its clones: its statuses, its text, and what it tells of the world it
//! ends with.
#![tactic(auto)]

mod blanks;
mod counts;
mod edges;
mod endings;
mod generated;
mod laws;
pub mod run;
mod stages;
mod stops;
mod words;

pub use laws::{complete_runs, few_bytes_are_read, run_completely};
pub use net_world;
