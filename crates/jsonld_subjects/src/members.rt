//! What the members of a subject say (JSON-LD 1.1, sections 4.5 and 9.2).
ghost use Rattle.std.specs.Prelude.{◌≡◌, Ok, IfOk, IfErr};
ghost use Rattle.std.specs.Option.{option_copied};
ghost use Rattle.serde_json.specs.View.{view, items_view, members_view};
ghost use Rattle.jsonld_context.specs.Telling.{IsToldBy};
ghost use Rattle.jsonld_subjects.specs.MemberReading.{read_member, read_object};
ghost use Rattle.jsonld_subjects.specs.SubjectReading.{read_single, read_each, read_values, read_members};

use crate::entering::entered;
use crate::ids::{meet_key, read_id, read_types};
use crate::open_subjects::OpenSubject;
use crate::places::Place;
use crate::plain_values::read_plain;
use jrql_ast::Slot;
use jsonld_context::{Context, JsonFault, TermType, begins_as_keyword, is_id_key, is_type_key};
use jsonld_values::{has_member, unsupported, value_object};
use serde_json::{Map, Value};
use std::alloc::Global;

/// Reads the members of a subject, in the order of their keys.
#[cycle(subject)]
pub(crate) fn read_members(
    alloc: Global,
    context: &Context,
    place: Place,
    members: &Map<String, Value>,
    so_far: &mut OpenSubject,
) -> Result<(), JsonFault>
    ensures ok { IfOk result
        (λ _. read_members context.now place (members_view members.now.entries) so_far.old ≡ Ok so_far.new) }
    ensures err { IfErr result
        (IsToldBy (read_members context.now place (members_view members.now.entries) so_far.old)) }
{
    for (key, value) in members.iter() {
        read_member(alloc, context, place, key.as_str(), value, so_far)?;
    }
    Ok(())
}

/// Reads a member of a subject.
#[cycle(subject)]
fn read_member(
    alloc: Global,
    context: &Context,
    place: Place,
    key: &str,
    value: &Value,
    so_far: &mut OpenSubject,
) -> Result<(), JsonFault>
    ensures ok { IfOk result (λ _. read_member context.now place key.now (view value.now) so_far.old ≡ Ok so_far.new) }
    ensures err { IfErr result (IsToldBy (read_member context.now place key.now (view value.now) so_far.old)) }
{
    if is_id_key(key) {
        return read_id(alloc, context, value, so_far);
    }
    if is_type_key(key) {
        return read_types(alloc, context, value, so_far);
    }
    if begins_as_keyword(key) {
        return Err(unsupported(alloc, key));
    }
    let property = meet_key(alloc, context, key, so_far)?;
    read_values(
        alloc,
        context,
        place,
        key,
        context.type_of(key),
        &property,
        value,
        so_far,
    )
}

/// Reads the value of a property, or an array of values.
#[cycle(subject)]
fn read_values(
    alloc: Global,
    context: &Context,
    place: Place,
    key: &str,
    kind: Option<&TermType>,
    property: &Slot,
    value: &Value,
    so_far: &mut OpenSubject,
) -> Result<(), JsonFault>
    ensures ok { IfOk result (λ _. read_values context.now place key.now (view value.now) (option_copied kind.entry)
        property.now so_far.old ≡ Ok so_far.new) }
    ensures err { IfErr result (IsToldBy
        (read_values context.now place key.now (view value.now) (option_copied kind.entry) property.now so_far.old)) }
{
    match value {
        Value::Array(items) => read_each(alloc, context, place, key, kind, property, items, so_far),
        Value::Object(members) => read_object(alloc, context, place, property, members, so_far),
        _ => read_plain(alloc, context, key, kind, property, value, so_far),
    }
}

/// Reads the values of a property in an array.
#[cycle(subject)]
fn read_each(
    alloc: Global,
    context: &Context,
    place: Place,
    key: &str,
    kind: Option<&TermType>,
    property: &Slot,
    items: &[Value],
    so_far: &mut OpenSubject,
) -> Result<(), JsonFault>
    ensures ok { IfOk result (λ _. read_each context.now place key.now (option_copied kind.entry) property.now
        (items_view items.now) so_far.old ≡ Ok so_far.new) }
    ensures err { IfErr result
        (IsToldBy (read_each context.now place key.now (option_copied kind.entry) property.now (items_view items.now)
        so_far.old)) }
{
    for value in items {
        read_single(alloc, context, place, key, kind, property, value, so_far)?;
    }
    Ok(())
}

/// Reads one of the values of a property.
#[cycle(subject)]
fn read_single(
    alloc: Global,
    context: &Context,
    place: Place,
    key: &str,
    kind: Option<&TermType>,
    property: &Slot,
    value: &Value,
    so_far: &mut OpenSubject,
) -> Result<(), JsonFault>
    ensures ok { IfOk result (λ _. read_single context.now place key.now (option_copied kind.entry) property.now
        (view value.now) so_far.old ≡ Ok so_far.new) }
    ensures err { IfErr result (IsToldBy
        (read_single context.now place key.now (option_copied kind.entry) property.now (view value.now) so_far.old)) }
{
    match value {
        Value::Object(members) => read_object(alloc, context, place, property, members, so_far),
        _ => read_plain(alloc, context, key, kind, property, value, so_far),
    }
}

/// Reads an object as a value: a value object, or a subject within this one.
#[cycle(subject)]
fn read_object(
    alloc: Global,
    context: &Context,
    place: Place,
    property: &Slot,
    members: &Map<String, Value>,
    so_far: &mut OpenSubject,
) -> Result<(), JsonFault>
    ensures ok { IfOk result (λ _. read_object context.now place property.now (members_view members.now.entries)
        so_far.old ≡ Ok so_far.new) }
    ensures err { IfErr result
        (IsToldBy (read_object context.now place property.now (members_view members.now.entries) so_far.old)) }
{
    if has_member(members, "@value") {
        let object = value_object(alloc, context, members)?;
        so_far.put(property.share()?, object)?;
        return Ok(());
    }
    let found = so_far.take_found(alloc);
    let mut inner = entered(alloc, place, members, found)?;
    read_members(alloc, context, place, members, &mut inner)?;
    so_far.link(property, inner)?;
    Ok(())
}
