//! What `@where` says (SPARQL 1.1 Query Language, sections 5 and 7).
ghost use Rattle.std.specs.Prelude.{◌≡◌, Ok, IfOk, IfErr, option_map};
ghost use Rattle.serde_json.specs.View.{view, items_view, members_view};
ghost use Rattle.jsonld_context.specs.Telling.{IsToldBy};
ghost use Rattle.jrql_patterns.specs.WhereReading.{read_branches, read_union, sole_member, read_condition, read_conditions, read_where};

use crate::faults::{bad_query, not_under};
use crate::filters::read_filter;
use crate::lists::has_one;
use crate::open_groups::OpenGroup;
use jsonld_context::{Context, JsonFault, member_at};
use jsonld_subjects::Place;
use jsonld_subjects::jsonld_values::bad_subject;
use serde_json::{Map, Value};
use std::alloc::Global;

/// Reads the branches of a union.
fn read_branches(
    alloc: Global,
    context: &Context,
    items: &[Value],
    so_far: &mut OpenGroup,
) -> Result<(), JsonFault>
    ensures ok { IfOk result (λ _. read_branches context.now (items_view items.now) so_far.old ≡ Ok so_far.new) }
    ensures err { IfErr result (IsToldBy (read_branches context.now (items_view items.now) so_far.old)) }
{
    for value in items {
        so_far.read_branch(alloc, context, value)?;
    }
    Ok(())
}

/// Reads the value of `@union`.
fn read_union(
    alloc: Global,
    context: &Context,
    value: &Value,
    so_far: &mut OpenGroup,
) -> Result<(), JsonFault>
    ensures ok { IfOk result (λ _. read_union context.now (view value.now) so_far.old ≡ Ok so_far.new) }
    ensures err { IfErr result (IsToldBy (read_union context.now (view value.now) so_far.old)) }
{
    if so_far.is_united() {
        return Err(bad_query(alloc, "@union"));
    }
    let Value::Array(branches) = value else {
        return Err(not_under(alloc, "@union", value));
    };
    so_far.unite();
    read_branches(alloc, context, branches, so_far)
}

/// The value of a key that stands alone. It takes no memory.
pub(crate) fn sole_member<'a>(members: &'a Map<String, Value>, key: &str) -> Option<&'a Value>
    ensures { option_map (λ value. view value.now) result ≡ sole_member key.now (members_view members.now.entries) }
{
    if has_one(members) {
        member_at(members, key)
    } else {
        None
    }
}

/// Reads an item of `@where`.
fn read_condition(
    alloc: Global,
    context: &Context,
    value: &Value,
    so_far: &mut OpenGroup,
) -> Result<(), JsonFault>
    ensures ok { IfOk result (λ _. read_condition context.now (view value.now) so_far.old ≡ Ok so_far.new) }
    ensures err { IfErr result (IsToldBy (read_condition context.now (view value.now) so_far.old)) }
{
    let Value::Object(members) = value else {
        return Err(bad_subject(alloc, ""));
    };
    if let Some(filter) = sole_member(members, "@filter") {
        return read_filter(alloc, context, filter, so_far);
    }
    if let Some(alternatives) = sole_member(members, "@union") {
        return read_union(alloc, context, alternatives, so_far);
    }
    let triples = so_far.read_apart(alloc, context, Place::Pattern, value)?;
    so_far.put_patterns(triples)?;
    Ok(())
}

/// Reads items of `@where`.
fn read_conditions(
    alloc: Global,
    context: &Context,
    items: &[Value],
    so_far: &mut OpenGroup,
) -> Result<(), JsonFault>
    ensures ok { IfOk result (λ _. read_conditions context.now (items_view items.now) so_far.old ≡ Ok so_far.new) }
    ensures err { IfErr result (IsToldBy (read_conditions context.now (items_view items.now) so_far.old)) }
{
    for value in items {
        read_condition(alloc, context, value, so_far)?;
    }
    Ok(())
}

/// Reads the value of `@where` into a group: a subject, a filter or a union, or an array of them. After a fault the group isn't to be used
/// again.
///
/// `BadQuery` says that a rule is broken, with the innermost of `@where`, `@union` and `@filter` in which it is, or that there is a
/// variable too many, with its name or `@id`; the other faults are those of subjects.
#[tactic(auto, unfolding(crate::specs::WhereReading::read_where))]
pub fn read_where(
    alloc: Global,
    context: &Context,
    value: &Value,
    so_far: &mut OpenGroup,
) -> Result<(), JsonFault>
    ensures ok { IfOk result (λ _. read_where context.now (view value.now) so_far.old ≡ Ok so_far.new) }
    ensures err { IfErr result (IsToldBy (read_where context.now (view value.now) so_far.old)) }
{
    match value {
        Value::Object(_) => read_condition(alloc, context, value, so_far),
        Value::Array(items) => read_conditions(alloc, context, items, so_far),
        _ => Err(not_under(alloc, "@where", value)),
    }
}
