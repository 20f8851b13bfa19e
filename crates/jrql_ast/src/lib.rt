//! Queries and updates of json-rql as plain types: patterns, groups, filters, plans and answers; and what templates make for solutions.
#![tactic(auto)]

mod answers;
mod copies;
mod laws;
mod limits;
mod making;
mod naming;
mod patterns;
mod plans;
mod queries;
mod sequences;

pub use answers::{Answer, Described, Row};
pub use copies::CopyIn;
pub use laws::{one_answer, patterns_in_any_order};
pub use limits::VARIABLE_LIMIT;
pub use making::made_triples;
pub use patterns::{Compare, Filter, Group, PatternTriple, Slot};
pub use plans::UpdatePlan;
pub use queries::{Query, Select, Target, What};
pub use sequences::Sequence;
