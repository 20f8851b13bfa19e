//! Subjects as JSON objects (JSON-LD 1.1 API, section 8.5).
ghost use Rattle.std.specs.Prelude.{◌≡◌, IfOk, OnOk, map, codes, false, IsPermutation, IsSorted};
ghost use Rattle.serde_json.specs.Data.{string, array, no_members};
ghost use Rattle.serde_json.specs.View.{items_of};
ghost use Rattle.jsonld_context.specs.ShortForms.{compact_id};
ghost use Rattle.jsonld_values.specs.WrittenTokens.{WritesData, WritesMember, WritesMembers};
ghost use Rattle.jsonld_subjects.specs.KeyRuns.{EndsFirstRun, data_of_keyed, data_of_run};
ghost use Rattle.jsonld_subjects.specs.SubjectWriting.{keyed_of, keyed_cmp, members_of_keyed};
ghost use Rattle.jsonld_subjects.specs.SubjectTokens.{with_id, WritesNext, WritesSubject};

use crate::keyed_terms::KeyedTerm;
use crate::property_keys::PropertyKeys;
use jrql_ast::Described;
use json::Writer;
use jsonld_context::Context;
use jsonld_values::write_id;
use rdf_terms::{Iri, Triple};
use std::alloc::{AllocError, Global};
use std::cmp::Ordering;

/// The key of a subject's id.
const ID_KEY: &str = "@id";

/// Writes a subject with its triples as an object: its id, the types that are IRIs under `@type`, and every other value under the key of
/// its property. The values under one key come in the order of replies, one for each triple; one stands alone, several in an array. The
/// keys are those under a context, which stays; for many subjects the same ones serve. What stood in the output stays in front, also where
/// memory is wanting.
pub fn write_subject(
    alloc: Global,
    out: &mut Writer,
    subject: &Described,
    keys: &mut PropertyKeys<'_>,
) -> Result<(), AllocError>
    ensures says { OnOk result (WritesSubject keys.old subject.now out.old out.new) }
    ensures before { out.new.before ≡ out.old.before }
    ensures context { keys.new ≡ keys.old }
{
    let values = keyed_in_order(alloc, subject.triples.as_slice(), keys)?;
    out.begin_object()?;
    write_members(alloc, out, &subject.id, values.as_slice(), keys)
}

/// The objects of triples under their keys, in order.
fn keyed_in_order(
    alloc: Global,
    triples: &[Triple],
    keys: &mut PropertyKeys<'_>,
) -> Result<Vec<KeyedTerm>, AllocError>
    ensures permutation { IfOk result (λ values. IsPermutation (map (keyed_of keys.old) triples.now) values.items) }
    ensures sorted { IfOk result (λ values. IsSorted keyed_cmp values.items) }
    ensures context { keys.new ≡ keys.old }
{
    let mut values = keyed_terms(alloc, triples, keys)?;
    values.sort_unstable_by(|value, other| value.compare(other));
    Ok(values)
}

/// The objects of triples under their keys, in the order of the triples.
fn keyed_terms(
    alloc: Global,
    triples: &[Triple],
    keys: &mut PropertyKeys<'_>,
) -> Result<Vec<KeyedTerm>, AllocError>
    ensures values { IfOk result (λ values. values.items ≡ map (keyed_of keys.old) triples.now) }
    ensures context { keys.new ≡ keys.old }
{
    let mut values = Vec::with_capacity(alloc, triples.len())?;
    for triple in triples {
        values.push(KeyedTerm::of_triple(alloc, triple, keys)?)?;
    }
    Ok(values)
}

/// Writes the members of values in order and that of an id among them, and the end of the object.
fn write_members(
    alloc: Global,
    out: &mut Writer,
    id: &Iri,
    values: &[KeyedTerm],
    keys: &mut PropertyKeys<'_>,
) -> Result<(), AllocError>
    requires { IsSorted keyed_cmp values.now }
    ensures members { OnOk result
        (WritesMembers out.old out.new (with_id keys.old id.now false (members_of_keyed keys.old values.now))) }
    ensures before { out.new.before ≡ out.old.before }
    ensures context { keys.new ≡ keys.old }
{
    let mut named = false;
    let mut rest = values;
    while let Some(first) = rest.first() {
        let (run, behind) = rest.split_at(run_end(rest, first.key()));
        named = write_next(alloc, out, id, named, first.key(), run, keys)?;
        rest = behind;
    }
    write_end(alloc, out, id, named, keys.context())
}

/// The place up to which the first values of a list are those of a key.
fn run_end(values: &[KeyedTerm], key: &str) -> usize
    ensures { EndsFirstRun values.now key.now result }
{
    let mut place = 0;
    while place < values.len() {
        if values[place].key() != key {
            return place;
        }
        place += 1;
    }
    place
}

/// Writes the member of an id.
fn write_id_member(
    alloc: Global,
    out: &mut Writer,
    id: &Iri,
    context: &Context,
) -> Result<(), AllocError>
    ensures ok { OnOk result (WritesMember out.old out.new (codes "@id") (string (compact_id context.now id.now))) }
    ensures before { out.new.before ≡ out.old.before }
{
    out.key(ID_KEY)?;
    write_id(alloc, out, id, context)
}

/// Writes the end of the object, and the member of an id before it where that isn't written yet.
fn write_end(
    alloc: Global,
    out: &mut Writer,
    id: &Iri,
    named: bool,
    context: &Context,
) -> Result<(), AllocError>
    ensures ok { OnOk result (WritesMembers out.old out.new (with_id context.now id.now named no_members)) }
    ensures before { out.new.before ≡ out.old.before }
{
    if !named {
        write_id_member(alloc, out, id, context)?;
    }
    out.end_object()
}

/// Writes the member of a key, and unless it is written already that of an id before it, or in its place where it has the same key; whether
/// that of the id is written then.
fn write_next(
    alloc: Global,
    out: &mut Writer,
    id: &Iri,
    named: bool,
    key: &str,
    run: &[KeyedTerm],
    keys: &mut PropertyKeys<'_>,
) -> Result<bool, AllocError>
    ensures ok { IfOk result
        (WritesNext keys.old id.now named key.now (map (data_of_keyed keys.old) run.now) out.old out.new) }
    ensures before { out.new.before ≡ out.old.before }
    ensures context { keys.new ≡ keys.old }
{
    if named {
        write_run(alloc, out, key, run, keys)?;
        return Ok(true);
    }
    match ID_KEY.cmp(key) {
        Ordering::Less => {
            write_id_member(alloc, out, id, keys.context())?;
            write_run(alloc, out, key, run, keys)?;
            Ok(true)
        }
        Ordering::Equal => {
            write_id_member(alloc, out, id, keys.context())?;
            Ok(true)
        }
        Ordering::Greater => {
            write_run(alloc, out, key, run, keys)?;
            Ok(false)
        }
    }
}

/// Writes the member of a key: one value stands alone, several stand in an array.
fn write_run(
    alloc: Global,
    out: &mut Writer,
    key: &str,
    run: &[KeyedTerm],
    keys: &mut PropertyKeys<'_>,
) -> Result<(), AllocError>
    ensures ok { OnOk result
        (WritesMember out.old out.new key.now (data_of_run (map (data_of_keyed keys.old) run.now))) }
    ensures before { out.new.before ≡ out.old.before }
    ensures context { keys.new ≡ keys.old }
{
    out.key(key)?;
    if run.len() == 1 {
        return run[0].write(alloc, out, keys);
    }
    write_items(alloc, out, run, keys)
}

/// Writes values as an array.
fn write_items(
    alloc: Global,
    out: &mut Writer,
    run: &[KeyedTerm],
    keys: &mut PropertyKeys<'_>,
) -> Result<(), AllocError>
    ensures ok { OnOk result (WritesData out.old out.new (array (items_of (map (data_of_keyed keys.old) run.now)))) }
    ensures before { out.new.before ≡ out.old.before }
    ensures context { keys.new ≡ keys.old }
{
    out.begin_array()?;
    for value in run {
        value.write(alloc, out, keys)?;
    }
    out.end_array()
}
