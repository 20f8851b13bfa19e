//! Pairs by the numbers of their terms: each stands once, in a slot, and its key stands in four orders.
#![tactic(auto)]

mod building;
mod changes;
mod finds;
mod fronts;
mod keys;
mod lends;
mod limits;
mod lists;
mod moving;
mod orders;
mod pairs;
mod searches;
mod slots;
mod steps;

pub use chunked_list;
pub use keys::{Numbers, Places, Shape, TermNumbers};
pub use orders::KeyOrder;
pub use pairs::NumberedPairs;
pub use searches::{search, search_triples};
pub use steps::Steps;
