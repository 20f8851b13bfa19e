//! Queries in JSON: the group that `@where` says, and what is asked of it.
#![tactic(auto)]

mod breaches;
mod columns;
mod faults;
mod filters;
mod laws;
mod lists;
mod open_groups;
mod open_queries;
mod parts;
mod queries;
mod texts;
mod wheres;

pub use faults::{bad_query, not_under};
pub use jsonld_subjects;
pub use jsonld_subjects::jsonld_values;
pub use laws::{every_column_in_order, reading_where_keeps_to_names};
pub use open_groups::OpenGroup;
pub use queries::{ReadQuery, read_query};
pub use texts::{read_json, said_context};
pub use wheres::read_where;
