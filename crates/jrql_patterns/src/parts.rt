//! The members of a query (SPARQL 1.1 Query Language, sections 15 and 16).
ghost use Rattle.std.specs.Prelude.{◌≡◌, Ok, IfOk, IfErr};
ghost use Rattle.serde_json.specs.Data.{array};
ghost use Rattle.serde_json.specs.View.{view, items_view, members_view};
ghost use Rattle.jsonld_context.specs.Telling.{IsToldBy};
ghost use Rattle.jsonld_subjects.specs.jsonld_values.Literals.{made_of};
ghost use Rattle.jrql_patterns.specs.QueryReading.{read_target, read_each_target, read_describe, read_column, read_columns, read_select, read_distinct, read_count, with_limit, with_offset, read_part, read_parts};

use crate::faults::{bad_query, not_under};
use crate::open_queries::OpenQuery;
use jrql_ast::Target;
use jsonld_context::{Context, JsonFault, is_variable};
use serde_json::{Map, Value};
use std::alloc::Global;

/// Reads a target.
fn read_target(
    alloc: Global,
    context: &Context,
    value: &Value,
    so_far: &mut OpenQuery,
) -> Result<(), JsonFault>
    ensures ok { IfOk result (λ _. read_target context.now (view value.now) so_far.old ≡ Ok so_far.new) }
    ensures err { IfErr result (IsToldBy (read_target context.now (view value.now) so_far.old)) }
{
    let Value::String(text) = value else {
        return Err(not_under(alloc, "@describe", value));
    };
    if is_variable(text.as_str()) {
        let number = so_far.meet_number(alloc, text.as_str())?;
        so_far.put_target(Target::Var(number))?;
        return Ok(());
    }
    let iri = context.expand_id(alloc, text.as_str())?;
    so_far.put_target(Target::Iri(iri))?;
    Ok(())
}

/// Reads targets in an array.
fn read_each_target(
    alloc: Global,
    context: &Context,
    items: &[Value],
    so_far: &mut OpenQuery,
) -> Result<(), JsonFault>
    ensures ok { IfOk result (λ _. read_each_target context.now (items_view items.now) so_far.old ≡ Ok so_far.new) }
    ensures err { IfErr result (IsToldBy (read_each_target context.now (items_view items.now) so_far.old)) }
{
    for value in items {
        read_target(alloc, context, value, so_far)?;
    }
    Ok(())
}

/// Reads the value of `@describe`.
fn read_describe(
    alloc: Global,
    context: &Context,
    value: &Value,
    so_far: &mut OpenQuery,
) -> Result<(), JsonFault>
    ensures ok { IfOk result (λ _. read_describe context.now (view value.now) so_far.old ≡ Ok so_far.new) }
    ensures err { IfErr result (IsToldBy (read_describe context.now (view value.now) so_far.old)) }
{
    match value {
        Value::Array(items) => read_each_target(alloc, context, items, so_far),
        _ => read_target(alloc, context, value, so_far),
    }
}

/// Reads a column.
fn read_column(alloc: Global, value: &Value, so_far: &mut OpenQuery) -> Result<(), JsonFault>
    ensures ok { IfOk result (λ _. read_column (view value.now) so_far.old ≡ Ok so_far.new) }
    ensures err { IfErr result (IsToldBy (read_column (view value.now) so_far.old)) }
{
    let Value::String(text) = value else {
        return Err(not_under(alloc, "@select", value));
    };
    if !is_variable(text.as_str()) {
        return Err(bad_query(alloc, "@select"));
    }
    let number = so_far.meet_number(alloc, text.as_str())?;
    so_far.put_column(alloc, number)
}

/// Reads columns in an array.
fn read_columns(alloc: Global, items: &[Value], so_far: &mut OpenQuery) -> Result<(), JsonFault>
    ensures ok { IfOk result (λ _. read_columns (items_view items.now) so_far.old ≡ Ok so_far.new) }
    ensures err { IfErr result (IsToldBy (read_columns (items_view items.now) so_far.old)) }
{
    for value in items {
        read_column(alloc, value, so_far)?;
    }
    Ok(())
}

/// Reads an array of one column or more.
fn read_list(alloc: Global, items: &[Value], so_far: &mut OpenQuery) -> Result<(), JsonFault>
    ensures ok { IfOk result (λ _. read_select (array (items_view items.now)) so_far.old ≡ Ok so_far.new) }
    ensures err { IfErr result (IsToldBy (read_select (array (items_view items.now)) so_far.old)) }
{
    let Some((first, rest)) = items.split_first() else {
        return Err(bad_query(alloc, "@select"));
    };
    read_column(alloc, first, so_far)?;
    read_columns(alloc, rest, so_far)
}

/// Reads the value of `@select`.
fn read_select(alloc: Global, value: &Value, so_far: &mut OpenQuery) -> Result<(), JsonFault>
    ensures ok { IfOk result (λ _. read_select (view value.now) so_far.old ≡ Ok so_far.new) }
    ensures err { IfErr result (IsToldBy (read_select (view value.now) so_far.old)) }
{
    match value {
        Value::String(text) => {
            if text.as_str() == "*" {
                so_far.ask_for_every();
                return Ok(());
            }
            read_column(alloc, value, so_far)
        }
        Value::Array(items) => read_list(alloc, items, so_far),
        _ => Err(not_under(alloc, "@select", value)),
    }
}

/// Reads the value of `@distinct`.
fn read_distinct(alloc: Global, value: &Value, so_far: &mut OpenQuery) -> Result<(), JsonFault>
    ensures ok { IfOk result (λ _. read_distinct (view value.now) so_far.old ≡ Ok so_far.new) }
    ensures err { IfErr result (IsToldBy (read_distinct (view value.now) so_far.old)) }
{
    let Value::Bool(distinct) = value else {
        return Err(not_under(alloc, "@distinct", value));
    };
    so_far.set_distinct(*distinct);
    Ok(())
}

/// Reads a number of rows.
fn read_count(alloc: Global, key: &str, value: &Value) -> Result<u64, JsonFault>
    ensures ok { IfOk result (λ count. read_count key.now (view value.now) ≡ Ok count) }
    ensures err { IfErr result (IsToldBy (read_count key.now (view value.now))) }
{
    match value.as_u64() {
        Some(count) => Ok(count),
        None => Err(not_under(alloc, key, value)),
    }
}

/// Reads how many rows are given at most.
fn read_limit(
    alloc: Global,
    key: &str,
    value: &Value,
    so_far: &mut OpenQuery,
) -> Result<(), JsonFault>
    ensures ok { IfOk result (λ _. made_of (read_count key.now (view value.now)) (with_limit so_far.old) ≡ Ok so_far.new) }
    ensures err { IfErr result (IsToldBy (read_count key.now (view value.now))) }
{
    let count = read_count(alloc, key, value)?;
    so_far.set_limit(count);
    Ok(())
}

/// Reads how many rows are left out in front.
fn read_offset(
    alloc: Global,
    key: &str,
    value: &Value,
    so_far: &mut OpenQuery,
) -> Result<(), JsonFault>
    ensures ok { IfOk result (λ _. made_of (read_count key.now (view value.now)) (with_offset so_far.old) ≡ Ok so_far.new) }
    ensures err { IfErr result (IsToldBy (read_count key.now (view value.now))) }
{
    let count = read_count(alloc, key, value)?;
    so_far.set_offset(count);
    Ok(())
}

/// Reads the member of a key.
fn read_part(
    alloc: Global,
    context: &Context,
    key: &str,
    value: &Value,
    so_far: &mut OpenQuery,
) -> Result<(), JsonFault>
    ensures ok { IfOk result (λ _. read_part context.now key.now (view value.now) so_far.old ≡ Ok so_far.new) }
    ensures err { IfErr result (IsToldBy (read_part context.now key.now (view value.now) so_far.old)) }
{
    if key == "@context" {
        return Ok(());
    }
    if key == "@describe" {
        return read_describe(alloc, context, value, so_far);
    }
    if key == "@distinct" {
        return read_distinct(alloc, value, so_far);
    }
    if key == "@limit" {
        return read_limit(alloc, key, value, so_far);
    }
    if key == "@offset" {
        return read_offset(alloc, key, value, so_far);
    }
    if key == "@select" {
        return read_select(alloc, value, so_far);
    }
    if key == "@where" {
        return so_far.read_group(alloc, context, value);
    }
    Err(bad_query(alloc, key))
}

/// Reads the members of a query, in the order of their keys.
pub(crate) fn read_parts(
    alloc: Global,
    context: &Context,
    members: &Map<String, Value>,
    so_far: &mut OpenQuery,
) -> Result<(), JsonFault>
    ensures ok { IfOk result (λ _. read_parts context.now (members_view members.now.entries) so_far.old ≡ Ok so_far.new) }
    ensures err { IfErr result (IsToldBy (read_parts context.now (members_view members.now.entries) so_far.old)) }
{
    for (key, value) in members.iter() {
        read_part(alloc, context, key.as_str(), value, so_far)?;
    }
    Ok(())
}
