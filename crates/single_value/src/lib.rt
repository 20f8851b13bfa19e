//! Single-valued properties: which subject an update would give a second value.
#![tactic(auto)]

mod breaches;
mod values;

pub use breaches::breaks;
