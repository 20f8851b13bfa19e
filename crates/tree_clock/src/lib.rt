//! Paths, leaves, dots, ranges of dots and clocks, in the manner of interval tree clocks.
#![tactic(auto)]

mod clocks;
mod dots;
mod leaves;
mod limits;
mod paths;
mod range_lists;
mod trees;

pub use clocks::Clock;
pub use dots::{Dot, Range};
pub use leaves::{Deep, Leaf};
pub use limits::{PATH_LIMIT, TICK_LIMIT};
pub use paths::Path;
pub use range_lists::{Ranges, knows};
