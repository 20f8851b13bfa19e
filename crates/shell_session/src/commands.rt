//! What a line of the shell asks for.

use jrql_ast::UpdatePlan;
use rdf_terms::{Iri, Triple};
use schedule_text::schedule_model::jrql_patterns::ReadQuery;
use text_rules::Text;
use uuid::Uuid;

/// A command of the shell.
#[derive(Debug, Drop)]
pub enum ShellCommand {
    /// `open`: the clone that the banks keep runs.
    Open,
    /// `create UUID D` and IRIs: a clone of this id is founded, in this domain, with these single-valued properties, as the line gives
    /// them, repeats included; at most 16.
    Create(Uuid, Text, Vec<Iri>),
    /// `add TRIPLE`: it inserts the triple.
    Add(Triple),
    /// `remove TRIPLE`: it deletes the triple.
    Remove(Triple),
    /// `update JSON`: it deletes and inserts what the plan says.
    Update(UpdatePlan),
    /// `query JSON`: its answer to the query.
    Query(ReadQuery),
    /// `show`: its pairs.
    Show,
    /// `compact`: it fuses the neighbours in its journal.
    Compact,
    /// `truncate M`: it keeps the last M ranges of its journal, and the others become a part of its base.
    Truncate(u64),
    /// `stop`: it stops, and forgets what it holds back.
    Stop,
    /// `add`, `remove`, `update` or `query` while no clone is live, whatever the rest of the line is.
    Skipped,
}
