//! What banks read to after a crash in the middle of a call, as what the model's clone keeps after a front of its durable steps. The functions
//! have no code: each carries laws as its contract.
#![tactic(auto)]

mod carried;
mod deeds;
mod lines;

pub use carried::carried_fronts;
pub use clone_core;
pub use clone_core::{clone_parts, journal_sides, journal_store};
pub use deeds::{deeds_done, deeds_refused};
pub use lines::crash_lines_stand;
pub use schedule_model;
