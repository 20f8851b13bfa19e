//! Values of properties that are no objects (JSON-LD 1.1 API, sections 5.3.2 and 8.2.2).
ghost use Rattle.std.specs.Prelude.{◌≡◌, Ok, IfOk, IfErr};
ghost use Rattle.std.specs.Option.{option_copied};
ghost use Rattle.serde_json.specs.Data.{string};
ghost use Rattle.serde_json.specs.View.{view};
ghost use Rattle.jsonld_context.specs.Telling.{IsToldBy};
ghost use Rattle.jsonld_values.specs.Literals.{string_object};
ghost use Rattle.jsonld_subjects.specs.SubjectReading.{with_names, slot_of, read_plain};

use crate::open_subjects::OpenSubject;
use jrql_ast::Slot;
use jsonld_context::{Context, JsonFault, TermType, is_variable};
use jsonld_values::{boolean_object, number_object, string_object, unsupported};
use serde_json::Value;
use std::alloc::Global;

/// Meets a string under a key whose values are of a kind.
fn meet_string(
    alloc: Global,
    context: &Context,
    key: &str,
    kind: Option<&TermType>,
    text: &str,
    so_far: &mut OpenSubject,
) -> Result<Slot, JsonFault>
    ensures ok { IfOk result (λ slot. slot_of so_far.old.found.names text.now
        (string_object context.now key.now (option_copied kind.entry) text.now)
        ≡ Ok (so_far.new.found.names, slot)) }
    ensures err { IfErr result
        (IsToldBy (slot_of so_far.old.found.names text.now
        (string_object context.now key.now (option_copied kind.entry) text.now))) }
    ensures kept { so_far.new ≡ with_names so_far.old so_far.new.found.names }
{
    if is_variable(text) {
        return so_far.meet_variable(alloc, text);
    }
    string_object(alloc, context, key, kind, text)
}

/// Reads a string.
fn read_string(
    alloc: Global,
    context: &Context,
    key: &str,
    kind: Option<&TermType>,
    property: &Slot,
    text: &str,
    so_far: &mut OpenSubject,
) -> Result<(), JsonFault>
    ensures ok { IfOk result (λ _. read_plain context.now key.now (option_copied kind.entry) property.now
        (string text.now) so_far.old ≡ Ok so_far.new) }
    ensures err { IfErr result (IsToldBy
        (read_plain context.now key.now (option_copied kind.entry) property.now (string text.now) so_far.old)) }
{
    let object = meet_string(alloc, context, key, kind, text, so_far)?;
    so_far.put(property.share()?, object)?;
    Ok(())
}

/// Reads a value that is neither an object nor an array.
pub(crate) fn read_plain(
    alloc: Global,
    context: &Context,
    key: &str,
    kind: Option<&TermType>,
    property: &Slot,
    value: &Value,
    so_far: &mut OpenSubject,
) -> Result<(), JsonFault>
    ensures ok { IfOk result (λ _. read_plain context.now key.now (option_copied kind.entry) property.now
        (view value.now) so_far.old ≡ Ok so_far.new) }
    ensures err { IfErr result (IsToldBy
        (read_plain context.now key.now (option_copied kind.entry) property.now (view value.now) so_far.old)) }
{
    match value {
        Value::Null => Ok(()),
        Value::Bool(truth) => {
            let object = boolean_object(alloc, kind, *truth)?;
            so_far.put(property.share()?, object)?;
            Ok(())
        }
        Value::Number(number) => {
            let object = number_object(alloc, key, kind, number)?;
            so_far.put(property.share()?, object)?;
            Ok(())
        }
        Value::String(text) => {
            read_string(alloc, context, key, kind, property, text.as_str(), so_far)
        }
        Value::Array(_) => Err(unsupported(alloc, key)),
        Value::Object(_) => Err(unsupported(alloc, key)),
    }
}
