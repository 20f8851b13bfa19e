//! Tables that give numbers to terms and paths, in which strangers can't slow a look-up down.
#![tactic(auto)]

mod buckets;
mod hash_index;
mod hashed;
mod path_table;
mod sought;
mod term_table;

pub use chunked_list;
pub use path_table::PathTable;
pub use term_table::TermTable;
