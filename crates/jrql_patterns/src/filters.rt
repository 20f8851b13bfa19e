//! Filters (SPARQL 1.1 Query Language, sections 5.2.2 and 17.3).
ghost use Rattle.std.specs.Prelude.{◌≡◌, Ok, IfOk, IfErr};
ghost use Rattle.serde_json.specs.View.{view, items_view, members_view};
ghost use Rattle.jsonld_context.specs.Telling.{IsToldBy};
ghost use Rattle.jrql_patterns.specs.FilterReading.{compare_of, read_operand, read_right, read_sides, read_comparison, read_comparisons, read_filter};

use crate::faults::{bad_query, not_under};
use crate::lists::has_one;
use crate::open_groups::OpenGroup;
use jrql_ast::{Compare, Filter, Slot};
use jsonld_context::{Context, JsonFault};
use jsonld_subjects::jsonld_values::{Names, has_member};
use jsonld_subjects::{ObjectRead, Place, read_object, stands_alone};
use serde_json::{Map, Value};
use std::alloc::Global;

/// How a key compares. It takes no memory.
fn compare_of(key: &str) -> Option<Compare>
    ensures { result ≡ compare_of key.now }
{
    if key == "@eq" {
        return Some(Compare::Eq);
    }
    if key == "@neq" {
        return Some(Compare::Neq);
    }
    if key == "@lt" {
        return Some(Compare::Lt);
    }
    if key == "@lte" {
        return Some(Compare::Lte);
    }
    if key == "@gt" {
        return Some(Compare::Gt);
    }
    if key == "@gte" {
        return Some(Compare::Gte);
    }
    None
}

/// Reads a side.
fn read_operand(
    alloc: Global,
    context: &Context,
    value: &Value,
    names: &mut Names,
) -> Result<Slot, JsonFault>
    ensures ok { IfOk result (λ slot. read_operand context.now names.old (view value.now) ≡ Ok (names.new, slot)) }
    ensures err { IfErr result (IsToldBy (read_operand context.now names.old (view value.now))) }
{
    if !stands_alone(value) {
        return Err(bad_query(alloc, "@filter"));
    }
    let ObjectRead { object, triples } = read_object(alloc, value, context, Place::Pattern, names)?;
    if !triples.is_empty() {
        return Err(bad_query(alloc, "@filter"));
    }
    match object {
        Some(slot) => Ok(slot),
        None => Err(bad_query(alloc, "@filter")),
    }
}

/// Reads the second side, behind which nothing stands.
fn read_right(
    alloc: Global,
    context: &Context,
    compare: Compare,
    left: Slot,
    items: &[Value],
    names: &mut Names,
) -> Result<Filter, JsonFault>
    ensures ok { IfOk result
        (λ filter. read_right context.now compare (names.old, left) (items_view items.now) ≡ Ok (names.new, filter)) }
    ensures err { IfErr result (IsToldBy (read_right context.now compare (names.old, left) (items_view items.now))) }
{
    let Some((second, rest)) = items.split_first() else {
        return Err(bad_query(alloc, "@filter"));
    };
    let right = read_operand(alloc, context, second, names)?;
    if let Some(third) = rest.first() {
        return Err(not_under(alloc, "@filter", third));
    }
    Ok(Filter {
        op: compare,
        left,
        right,
    })
}

/// Reads two sides in an array.
pub(crate) fn read_sides(
    alloc: Global,
    context: &Context,
    compare: Compare,
    value: &Value,
    names: &mut Names,
) -> Result<Filter, JsonFault>
    ensures ok { IfOk result (λ filter. read_sides context.now compare names.old (view value.now) ≡ Ok (names.new, filter)) }
    ensures err { IfErr result (IsToldBy (read_sides context.now compare names.old (view value.now))) }
{
    let Value::Array(items) = value else {
        return Err(not_under(alloc, "@filter", value));
    };
    let Some((first, rest)) = items.split_first() else {
        return Err(bad_query(alloc, "@filter"));
    };
    let left = read_operand(alloc, context, first, names)?;
    read_right(alloc, context, compare, left, rest, names)
}

/// Reads a member of a filter.
fn read_comparison(
    alloc: Global,
    context: &Context,
    key: &str,
    value: &Value,
    so_far: &mut OpenGroup,
) -> Result<(), JsonFault>
    ensures ok { IfOk result
        (λ _. read_comparison context.now (compare_of key.now) (view value.now) so_far.old ≡ Ok so_far.new) }
    ensures err { IfErr result (IsToldBy (read_comparison context.now (compare_of key.now) (view value.now) so_far.old)) }
{
    match compare_of(key) {
        Some(compare) => so_far.read_filter(alloc, context, compare, value),
        None => Err(bad_query(alloc, "@filter")),
    }
}

/// Reads the members of a filter, in the order of their keys.
fn read_comparisons(
    alloc: Global,
    context: &Context,
    members: &Map<String, Value>,
    so_far: &mut OpenGroup,
) -> Result<(), JsonFault>
    ensures ok { IfOk result (λ _. read_comparisons context.now (members_view members.now.entries) so_far.old ≡ Ok so_far.new) }
    ensures err { IfErr result (IsToldBy (read_comparisons context.now (members_view members.now.entries) so_far.old)) }
{
    for (key, value) in members.iter() {
        read_comparison(alloc, context, key.as_str(), value, so_far)?;
    }
    Ok(())
}

/// Reads the value of `@filter`.
pub(crate) fn read_filter(
    alloc: Global,
    context: &Context,
    value: &Value,
    so_far: &mut OpenGroup,
) -> Result<(), JsonFault>
    ensures ok { IfOk result (λ _. read_filter context.now (view value.now) so_far.old ≡ Ok so_far.new) }
    ensures err { IfErr result (IsToldBy (read_filter context.now (view value.now) so_far.old)) }
{
    let Value::Object(members) = value else {
        return Err(not_under(alloc, "@filter", value));
    };
    if has_member(members, "@context") {
        return Err(bad_query(alloc, "@filter"));
    }
    read_comparisons(alloc, context, members, so_far)?;
    if has_one(members) {
        Ok(())
    } else {
        Err(bad_query(alloc, "@filter"))
    }
}
