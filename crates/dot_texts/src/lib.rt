//! Dots and clocks as texts write them, read by one rule each.
#![tactic(auto)]

mod dots;

pub use dots::{read_clock, read_dot};
