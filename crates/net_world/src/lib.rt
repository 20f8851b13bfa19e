//! A world of clones on their banks: founded, stepped by commands, crashed, and summed up.
#![tactic(auto)]

mod commands;
mod crash;
mod founding;
mod settling;
mod summaries;
mod summarizing;
mod worlds;

pub use schedule_text::schedule_model::Command;
pub use summaries::{CloneSummary, State, Summary, summary_of_live, summary_of_state};
pub use world_commands;
pub use world_commands::{WorldFault, crash_laws, schedule_replies};
pub use worlds::World;
