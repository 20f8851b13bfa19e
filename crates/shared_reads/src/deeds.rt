//! What a publisher publishes by one swap.
use mld_ops::Cut;

/// A change of the pairs, or the end mark.
#[derive(Drop)]
pub enum Deed {
    /// A change.
    Cut(Cut),
    /// The end.
    End,
}
