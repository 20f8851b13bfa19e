//! Entries of neighbouring ranges fused into one, and the cut that an entry makes in the pairs of one who takes it.
#![tactic(auto)]

mod compacting;
mod cutting;
mod faults;
mod fusing;
mod laws;
mod pairs;

pub use compacting::{compact_entries, has_neighbours};
pub use cutting::cut;
pub use faults::FuseFault;
pub use fusing::fuse;
pub use laws::{compacted_entries, cut_pairs, fused_nets, taken_ranges};
