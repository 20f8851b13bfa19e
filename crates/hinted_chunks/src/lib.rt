//! Chunks of a list, with a number beside each element that tells of its text, so that a search seldom looks at an element itself.
#![tactic(auto)]

mod bounds;
mod chunks;
mod hints;
mod keys;
mod limits;
mod sorting;
mod terms;
mod tops;

pub use bounds::{Below, Bound, Keyed, Order, Test};
pub use chunks::Chunk;
pub use hints::{Hints, count_hinted, lower_to, put_hint, put_in};
pub use keys::{closed_hint, closed_shared};
pub use limits::{CHUNK_LIMIT, CHUNKS_LIMIT, HALF};
pub use mld_ops;
pub use sorting::{TextOrder, sort_by_hints};
pub use terms::{term_hint, term_shared};
pub use tops::{Begun, shared_with_top};
pub use tree_clock;
