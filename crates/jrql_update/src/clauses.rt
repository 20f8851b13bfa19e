//! The members of an update (SPARQL 1.1 Update, section 3.1.3).
ghost use Rattle.std.specs.Prelude.{◌≡◌, Ok, IfOk, IfErr};
ghost use Rattle.serde_json.specs.View.{view, members_view};
ghost use Rattle.jsonld_context.specs.Telling.{IsToldBy};
ghost use Rattle.jrql_update.specs.UpdateReading.{read_clause, read_clauses};

use crate::open_updates::OpenUpdate;
use jrql_patterns::bad_query;
use jsonld_context::{Context, JsonFault};
use serde_json::{Map, Value};
use std::alloc::Global;

/// Reads the member of a key.
fn read_clause(
    alloc: Global,
    context: &Context,
    key: &str,
    value: &Value,
    so_far: &mut OpenUpdate,
) -> Result<(), JsonFault>
    ensures ok { IfOk result (λ _. read_clause context.now key.now (view value.now) so_far.old ≡ Ok so_far.new) }
    ensures err { IfErr result (IsToldBy (read_clause context.now key.now (view value.now) so_far.old)) }
{
    if key == "@context" {
        return Ok(());
    }
    if key == "@delete" {
        return so_far.read_deleted(alloc, context, value);
    }
    if key == "@insert" {
        return so_far.read_inserted(alloc, context, value);
    }
    if key == "@where" {
        return so_far.read_matched(alloc, context, value);
    }
    Err(bad_query(alloc, key))
}

/// Reads the members of an update, in the order of their keys.
pub(crate) fn read_clauses(
    alloc: Global,
    context: &Context,
    members: &Map<String, Value>,
    so_far: &mut OpenUpdate,
) -> Result<(), JsonFault>
    ensures ok { IfOk result
        (λ _. read_clauses context.now (members_view members.now.entries) so_far.old ≡ Ok so_far.new) }
    ensures err { IfErr result (IsToldBy (read_clauses context.now (members_view members.now.entries) so_far.old)) }
{
    for (key, value) in members.iter() {
        read_clause(alloc, context, key.as_str(), value, so_far)?;
    }
    Ok(())
}
