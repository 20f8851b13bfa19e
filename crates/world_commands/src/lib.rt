//! The commands of a world's clones, each in a file of its own, over the parts of the world that they read and change.
#![tactic(auto)]

pub mod ask;
pub mod changes;
pub mod compare;
pub mod deliver;
mod faults;
pub mod join;
pub mod keeping;
pub mod opening;
mod parts;
pub mod query;
pub mod show;
mod states;
pub mod stopping;

pub use crash_laws;
pub use faults::{WorldFault, made_fault};
pub use parts::Parts;
pub use schedule_replies;
pub use states::{RunningClone, copy_named, id_of, new_asker, put_state, take_state};
