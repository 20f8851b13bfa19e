//! Rows by the numbers that their terms have in a graph: bound, kept, compared and sorted.
#![tactic(auto)]

mod binding;
mod bindings;
mod columns;
mod kept;
mod places;
mod row_orders;
mod rows;

pub use binding::{FreeVariables, bind_pattern, free_variables, unbind_all};
pub use bindings::Bindings;
pub use columns::columns_of;
pub use graph_index;
pub use graph_index::hinted_chunks::{mld_ops, tree_clock};
pub use jrql_ast;
pub use jrql_filters;
pub use kept::KeptRows;
pub use rdf_terms;
pub use row_orders::{sorted_by_columns, sorted_by_replies};
pub use text_rules;
