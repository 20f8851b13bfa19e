//! The pairs of a clone by the numbers of their terms: found, changed and matched by their parts.
#![tactic(auto)]

mod changes;
mod copies;
mod found;
mod graphs;
mod lent_pairs;
mod list_rows;
mod matching;
mod numbered;
mod pair_order;
mod pair_sets;
mod parts;
mod ranges;
mod row_order;
mod tables;

pub use graphs::Graph;
pub use lent_pairs::LentPairs;
pub use pair_orders::chunked_list::hinted_chunks;
pub use pair_orders::{Places, Steps, TermNumbers};
pub use pair_sets::PairSet;
