//! Answers to queries as one line of JSON.
#![tactic(auto)]

mod columns;
mod laws;
mod replies;
mod rows;
mod subjects;

pub use laws::one_text;
pub use replies::{reply, spell_answer};
