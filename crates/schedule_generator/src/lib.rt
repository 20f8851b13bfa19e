//! Schedules that a seed gives: a domain line, and commands that are drawn.
#![tactic(auto)]

mod draws;
mod lines;

pub use lines::{generate, text_of};
