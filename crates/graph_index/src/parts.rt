//! What a graph is made of.
use crate::tables::Tables;
use pair_orders::{NumberedPairs, Numbers};

/// Tables of terms and paths, and the pairs by their numbers.
#[derive(Drop)]
pub(crate) struct Parts {
    pub(crate) tables: Tables,
    pub(crate) numbered: NumberedPairs,
    /// The numbers of what was prepared last, which `apply` takes where they are right.
    pub(crate) given: Vec<Numbers>,
}
