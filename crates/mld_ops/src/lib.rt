//! Operations of shared triples: tagged triples, entries, and what a history means.
#![tactic(auto)]

mod cuts;
mod effects;
mod entries;
mod laws;
mod limits;
mod messages;
mod operations;
mod ordered;
mod pair_lists;
mod pairs;
mod places;
mod properties;
mod tagged;

pub use cuts::{Cut, Tags};
pub use effects::Effect;
pub use entries::Entry;
pub use laws::{made_by_effect, meaning_of_taken, net_of_one, one_meaning, present_triples};
pub use limits::HELD_LIMIT;
pub use messages::{Give, Given, Message, Messages, Snapshot};
pub use operations::{Operation, meaning};
pub use pair_lists::{PairList, PairRef, PairRow, row_ref};
pub use pairs::{copy_pairs, has_pair, insert_pair, remove_pair, remove_pairs};
pub use places::{skip_below, stands_at};
pub use properties::{copy_properties, kept_properties};
pub use tagged::Tagged;
