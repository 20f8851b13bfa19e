//! Updates in JSON: what is deleted and inserted for each solution of a group.
#![tactic(auto)]

mod breaches;
mod clauses;
mod laws;
mod open_updates;
mod updates;

pub use jrql_patterns;
pub use jrql_patterns::jsonld_subjects;
pub use laws::fresh_subjects_have_own_names;
pub use updates::read_update;
