//! `written ID TRIPLES`: the JSON text of a subject, of which the triples follow without it, each with a dot behind it. `again ID TRIPLES`: the
//! triples that this text says in a pattern.
use crate::held::Held;
use crate::subjects::put_alone;
use crate::texts::put_text;
use jrql_ast::{Described, Sequence};
use json::Writer;
use jsonld_context::Context;
use jsonld_subjects::{Place, PropertyKeys, write_subject};
use rdf_terms::{Iri, Triple, read_triple};
use serde_json::Value;
use std::alloc::{AllocError, Global};
use transcripts::parted;

/// What stands between two triples of a line.
const BETWEEN: &str = " . ";

/// What stands behind the last one.
const LAST: &str = " .";

/// Puts what a line gives of its subject.
pub fn put(
    alloc: Global,
    out: &mut String,
    held: &Held,
    word: &str,
    input: &str,
) -> Result<bool, AllocError> {
    let (id, rest) = parted(input);
    match (held.context(), described(alloc, id)) {
        (Some(context), Some(mut found)) => {
            if fill(alloc, &mut found.triples, id, rest) {
                put_subject(alloc, out, context, word, &found)
            } else {
                Ok(false)
            }
        }
        _ => Ok(false),
    }
}

/// Puts the text of a subject, or what it says in a pattern.
fn put_subject(
    alloc: Global,
    out: &mut String,
    context: &Context,
    word: &str,
    subject: &Described,
) -> Result<bool, AllocError> {
    let text = Box::new(alloc, text_of(alloc, context, subject)?)?;
    if word == "written" {
        put_text(out, text.as_slice())
    } else {
        put_said(alloc, out, context, text.as_slice())
    }
}

/// The text of a subject.
fn text_of(alloc: Global, context: &Context, subject: &Described) -> Result<Vec<u8>, AllocError> {
    let mut keys = Box::new(alloc, PropertyKeys::under(alloc, context))?;
    let mut writer = Writer::new(Vec::new(alloc));
    write_subject(alloc, &mut writer, subject, &mut keys)?;
    Ok(writer.into_inner())
}

/// Puts what a text says in a pattern.
fn put_said(
    alloc: Global,
    out: &mut String,
    context: &Context,
    text: &[u8],
) -> Result<bool, AllocError> {
    match Value::from_slice(alloc, text) {
        Ok(value) => {
            let value = Box::new(alloc, value)?;
            put_alone(alloc, out, context, "named", Place::Pattern, &value)
        }
        Err(_) => Ok(false),
    }
}

/// The subject of an IRI that stands between angle brackets, with no triple yet.
fn described(alloc: Global, id: &str) -> Option<Box<Described>> {
    let inner = id.strip_prefix('<')?.strip_suffix('>')?;
    match Iri::new(alloc, inner) {
        Ok(id) => {
            let triples = Sequence::new(alloc);
            Box::new(alloc, Described { id, triples }).ok()
        }
        Err(_) => None,
    }
}

/// Puts the triples of a subject, which each of them lacks in the text; whether all are triples.
fn fill(alloc: Global, triples: &mut Sequence<Triple>, id: &str, text: &str) -> bool {
    if text.is_empty() {
        return true;
    }
    let Some(front) = text.strip_suffix(LAST) else {
        return false;
    };
    for rest in front.split(BETWEEN) {
        if !push_behind(alloc, triples, id, rest) {
            return false;
        }
    }
    true
}

/// Puts the triple of a subject and what stands behind it; whether it is one.
fn push_behind(alloc: Global, triples: &mut Sequence<Triple>, id: &str, rest: &str) -> bool {
    match format!(in alloc; "{id} {rest} .") {
        Ok(line) => push_triple(alloc, triples, line.as_str()),
        Err(_) => false,
    }
}

/// Puts the triple of a text; whether it is one.
fn push_triple(alloc: Global, triples: &mut Sequence<Triple>, text: &str) -> bool {
    match read_triple(alloc, text) {
        Ok(triple) => triples.push(triple).is_ok(),
        Err(_) => false,
    }
}
