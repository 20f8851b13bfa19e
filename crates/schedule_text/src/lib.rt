//! The lines of a schedule, read as its grammar says.
#![tactic(auto)]

mod commands;
mod crashes;
mod numbers;
mod queries;
mod refusals;
mod setups;
mod updates;
mod words;

pub use commands::{read_command, read_triple_bytes};
pub use numbers::read_number;
pub use queries::read_query_text;
pub use refusals::LineRefusal;
pub use schedule_model;
pub use schedule_model::Command;
pub use setups::{Setup, SetupLine, read_domain, read_setup};
pub use updates::read_update_text;
pub use words::{behind, is_nothing, split_at_space};
