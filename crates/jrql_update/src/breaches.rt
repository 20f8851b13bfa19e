//! Breaches of rules of two keys, and an object that is one subject.
ghost use Rattle.std.specs.Prelude.{◌≡◌};
ghost use Rattle.serde_json.specs.View.{members_view};
ghost use Rattle.jsonld_context.specs.Telling.{IsReadAs};
ghost use Rattle.jrql_update.specs.UpdateReading.{breaks_delete, breaks_insert, update_breach, is_subject_alone};

use crate::open_updates::OpenUpdate;
use jrql_patterns::bad_query;
use jrql_patterns::jsonld_values::has_member;
use jsonld_context::JsonFault;
use serde_json::{Map, Value};
use std::alloc::Global;

/// Whether an object is one subject to insert: it has no key of an update or of a query but `@context`.
pub(crate) fn is_subject_alone(members: &Map<String, Value>) -> bool
    ensures { result ≡ is_subject_alone (members_view members.now.entries) }
{
    !has_member(members, "@delete")
        && !has_member(members, "@insert")
        && !has_member(members, "@where")
        && !has_member(members, "@select")
        && !has_member(members, "@describe")
}

/// Whether there is a subject without an id in `@delete` beside `@where`.
fn breaks_delete(members: &Map<String, Value>, read: &OpenUpdate) -> bool
    ensures { result ≡ breaks_delete (members_view members.now.entries) read.now }
{
    has_member(members, "@where") && read.has_hidden()
}

/// Whether neither `@delete` nor `@insert` is there.
fn breaks_insert(members: &Map<String, Value>) -> bool
    ensures { result ≡ breaks_insert (members_view members.now.entries) }
{
    !has_member(members, "@delete") && !has_member(members, "@insert")
}

/// Looks for breaches, in the order of their keys.
pub(crate) fn check_breaches(
    alloc: Global,
    members: &Map<String, Value>,
    read: &OpenUpdate,
) -> Result<(), JsonFault>
    ensures { IsReadAs (update_breach (members_view members.now.entries) read.now) tt result }
{
    if breaks_delete(members, read) {
        return Err(bad_query(alloc, "@delete"));
    }
    if breaks_insert(members) {
        return Err(bad_query(alloc, "@insert"));
    }
    Ok(())
}
