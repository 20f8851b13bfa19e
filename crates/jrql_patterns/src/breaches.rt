//! Breaches of rules of several keys.
ghost use Rattle.std.specs.Prelude.{◌≡◌, not};
ghost use Rattle.std.specs.List.{list_any};
ghost use Rattle.serde_json.specs.View.{members_view};
ghost use Rattle.jsonld_context.specs.Telling.{IsReadAs};
ghost use Rattle.jrql_patterns.specs.QueryReading.{standing_variables, is_among, is_asked, is_apart, fault_where, breaks_describe, breaks_rows, has_kind, misses_columns, breaks_select, breaks_where, breach};

use crate::faults::bad_query;
use crate::open_queries::OpenQuery;
use jrql_ast::Target;
use jsonld_context::JsonFault;
use jsonld_subjects::jsonld_values::{Names, has_member};
use serde_json::{Map, Value};
use std::alloc::Global;

/// The members of a JSON object.
type Members = Map<String, Value>;

/// Refuses a key, where a rule is broken there.
fn refuse_where(alloc: Global, is_broken: bool, key: &str) -> Result<(), JsonFault>
    ensures { IsReadAs (fault_where is_broken key.now) tt result }
{
    if is_broken {
        Err(bad_query(alloc, key))
    } else {
        Ok(())
    }
}

/// Whether a target is a variable.
fn is_asked(target: &Target) -> bool
    ensures { result ≡ is_asked target.now }
{
    match target {
        Target::Var(_) => true,
        Target::Iri(_) => false,
    }
}

/// Whether a target is a variable that was not met in `@where`.
fn is_apart(names: &Names, target: &Target) -> bool
    ensures { result ≡ is_apart names.now target.now }
{
    match target {
        Target::Var(number) => !names.was_met(usize::from(*number)),
        Target::Iri(_) => false,
    }
}

/// Whether one of these targets is a variable.
fn is_some_asked(targets: &[Target]) -> bool
    ensures { result ≡ list_any is_asked targets.now }
{
    for target in targets {
        if is_asked(target) {
            return true;
        }
    }
    false
}

/// Whether one of them is a variable that was not met in `@where`.
fn is_some_apart(names: &Names, targets: &[Target]) -> bool
    ensures { result ≡ list_any (is_apart names.now) targets.now }
{
    for target in targets {
        if is_apart(names, target) {
            return true;
        }
    }
    false
}

/// Whether one of these columns isn't among those.
fn is_some_missing(columns: &[u16], standing: &[u16]) -> bool
    ensures { result ≡ list_any (λ variable. not (is_among standing.now variable)) columns.now }
{
    for number in columns {
        if !standing.contains(number) {
            return true;
        }
    }
    false
}

/// Whether `@describe` names a variable that `@where` lacks.
fn breaks_describe(members: &Members, read: &OpenQuery) -> bool
    ensures { result ≡ breaks_describe (members_view members.now.entries) read.now }
{
    has_member(members, "@where") && is_some_apart(read.group().names(), read.targets())
}

/// Whether a key that is of a select alone stands beside `@describe` alone.
fn breaks_rows(members: &Members, key: &str) -> bool
    ensures { result ≡ breaks_rows (members_view members.now.entries) key.now }
{
    has_member(members, key) && has_member(members, "@describe") && !has_member(members, "@select")
}

/// Whether there is one of `@select` and `@describe`, and not both.
fn has_kind(members: &Members) -> bool
    ensures { result ≡ has_kind (members_view members.now.entries) }
{
    if has_member(members, "@select") {
        !has_member(members, "@describe")
    } else {
        has_member(members, "@describe")
    }
}

/// Whether `@select` lists a variable that isn't one of those that stand in a triple.
fn misses_columns(read: &OpenQuery, standing: &[u16]) -> bool
    requires { standing.now ≡ standing_variables read.now.group }
    ensures { result ≡ misses_columns read.now }
{
    is_some_missing(read.columns(), standing)
}

/// Whether there is none, or both, or `@select` lists a variable that isn't one of those that stand in a triple.
fn breaks_select(members: &Members, read: &OpenQuery, standing: &[u16]) -> bool
    requires { standing.now ≡ standing_variables read.now.group }
    ensures { result ≡ breaks_select (members_view members.now.entries) read.now }
{
    !has_kind(members) || (has_member(members, "@where") && misses_columns(read, standing))
}

/// Whether `@where` is missing.
fn breaks_where(members: &Members, read: &OpenQuery) -> bool
    ensures { result ≡ breaks_where (members_view members.now.entries) read.now }
{
    !has_member(members, "@where")
        && (has_member(members, "@select") || is_some_asked(read.targets()))
}

/// Looks for breaches, in the order of their keys.
pub(crate) fn check_breaches(
    alloc: Global,
    members: &Members,
    read: &OpenQuery,
    standing: &[u16],
) -> Result<(), JsonFault>
    requires { standing.now ≡ standing_variables read.now.group }
    ensures { IsReadAs (breach (members_view members.now.entries) read.now) tt result }
{
    refuse_where(alloc, breaks_describe(members, read), "@describe")?;
    refuse_where(alloc, breaks_rows(members, "@distinct"), "@distinct")?;
    refuse_where(alloc, breaks_rows(members, "@limit"), "@limit")?;
    refuse_where(alloc, breaks_rows(members, "@offset"), "@offset")?;
    refuse_where(alloc, breaks_select(members, read, standing), "@select")?;
    refuse_where(alloc, breaks_where(members, read), "@where")
}
