//! Ascending lists in chunks of bounded length: an insert moves one chunk, and not all that is behind it.
#![tactic(auto)]

mod counted;
mod edits;
mod lists;
mod numbers;
mod places;
mod searches;
mod spans;
mod starts;
mod stores;

pub use hinted_chunks;
pub use hinted_chunks::{
    Bound, CHUNK_LIMIT, Chunk, Keyed, Order, Test, closed_hint, closed_shared,
};
pub use lists::Chunked;
pub use numbers::numbers_hint;
