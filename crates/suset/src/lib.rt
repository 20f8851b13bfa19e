//! A set of pairs as one ascending list: changed by cuts, and joined with what another knows and has. Snapshots: made of what
//! someone knows and has, and joined with it.
#![tactic(auto)]

mod changes;
mod joins;
mod laws;
mod sets;
mod states;

pub use laws::{joined_snapshots, joined_states};
pub use sets::TaggedSet;
pub use states::{join, of_state};
