//! One clone on its banks: its journal, its clock, its pairs and what it holds back.
#![tactic(auto)]

mod askers;
mod clones;
mod compacting;
mod merging;
mod mounts;
mod queries;
mod truncating;
mod updating;
mod wants;

pub use askers::{Adopted, Asker};
pub use clone_parts;
pub use clone_parts::{Covering, Done, Got, KeepFault, QueryFault, ReceiveFault, UpdateFault};
pub use clones::MldClone;
pub use journal_sides;
pub use journal_store;
pub use mounts::Mounted;
