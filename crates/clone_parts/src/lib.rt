//! The parts of a clone's calls: what it answers, what it plans in memory before anything changes, and what it does to its banks.
#![tactic(auto)]

mod answers;
mod appending;
mod begun;
mod faults;
mod making;
mod memory;
mod merges;
mod plans;
mod replays;
mod swapping;
mod unknown;

pub use answers::{Covering, Done, Got};
pub use appending::{append_entries, append_fork, create};
pub use begun::begun_with;
pub use faults::{KeepFault, QueryFault, ReceiveFault, UpdateFault};
pub use making::entry_of_effect;
pub use memory::{drop_front, push_all, replace_base};
pub use merges::{Merge, Released, prepare_merge};
pub use plans::{Plan, prepare_own, prepare_plan};
pub use replays::{Replayed, led_to, replay, tell_clock};
pub use swapping::{swap_and_append, swap_kept};
pub use unknown::unknown_by;
