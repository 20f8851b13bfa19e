//! A graph that one thread changes and others read from beside it: the changes are published one after another, and seats answer queries
//! over the pairs after a list of them, without waiting.
#![tactic(auto)]

mod copies;
mod deeds;
mod history;
mod lines;
mod marks;
mod rule;
mod seats;

pub use history::{NewHistory, Publication};
pub use lines::{Line, Standing};
pub use marks::{Change, Front, Mark};
pub use seats::{Seat, Told};
