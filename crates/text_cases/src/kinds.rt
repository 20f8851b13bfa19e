//! The kinds of lines, by their first words. What a line of a kind gives is put at the end of a text; each function says whether the line
//! is one of its kind.
use crate::held::Held;
use crate::texts::{pair_of, text_of};
use crate::{answers, contexts, pairs, parts, queries, subjects, terms, written};
use serde_json::Value;
use std::alloc::{AllocError, Global};
use transcripts::{Case, Tries, parted};

/// Puts what a line gives.
pub fn put(
    alloc: Global,
    out: &mut String,
    held: &mut Held,
    case: &Case<'_>,
) -> Result<bool, AllocError> {
    let input = case.input;
    match case.word {
        "short" => contexts::put_short(alloc, out, held, input),
        "query" => queries::put_query(alloc, out, input),
        "update" => queries::put_update(alloc, out, input),
        "rows" => answers::put(alloc, out, input),
        "written" | "again" => written::put(alloc, out, held, case.word, input),
        "names" | "since" | "mark" => parts::put(alloc, out, held, case.word, input),
        "context" => {
            held.forget();
            match input.split_once(' ') {
                Some((domain, json)) => put_json(alloc, out, held, case.word, domain, json),
                None => contexts::hold_domain(alloc, held, input),
            }
        }
        "printed" | "resolve" | "count" | "numbered" | "object" | "first" | "then" => {
            let (front, json) = parted(input);
            put_json(alloc, out, held, case.word, front, json)
        }
        _ => put_json(alloc, out, held, case.word, "", input),
    }
}

/// Puts what a line gives that has a JSON text behind what stands in front of it.
fn put_json(
    alloc: Global,
    out: &mut String,
    held: &mut Held,
    word: &str,
    front: &str,
    json: &str,
) -> Result<bool, AllocError> {
    match Value::from_str(alloc, json) {
        Ok(value) => {
            let value = Box::new(alloc, value)?;
            put_value(alloc, out, held, word, front, &value, json)
        }
        Err(_) => Ok(false),
    }
}

/// Puts what a line gives by its JSON value; a text has no white space around it.
fn put_value(
    alloc: Global,
    out: &mut String,
    held: &mut Held,
    word: &str,
    front: &str,
    value: &Value,
    json: &str,
) -> Result<bool, AllocError> {
    match word {
        "context" => contexts::hold(alloc, out, held, front, value),
        "printed" => contexts::put_printed(alloc, out, front, value),
        "pattern" | "insert" => subjects::put(alloc, out, held, "named", word, value),
        "count" | "numbered" | "object" => subjects::put(alloc, out, held, word, front, value),
        "first" | "then" => subjects::put_part(alloc, out, held, word, front, value),
        "order" | "escaped" | "closed" | "common" => match pair_of(value) {
            Some((first, second)) => pairs::put(alloc, out, word, first, second),
            None => Ok(false),
        },
        _ => match text_of(value) {
            Some(text) if json.starts_with('"') && json.ends_with('"') => {
                put_text(alloc, out, held, word, front, text)
            }
            _ => Ok(false),
        },
    }
}

/// Puts what a text gives.
fn put_text(
    alloc: Global,
    out: &mut String,
    held: &Held,
    word: &str,
    front: &str,
    text: &str,
) -> Result<bool, AllocError> {
    match word {
        "absolute" | "domain" | "variable" => terms::put_form(out, word, text),
        "tag" => terms::put_tag(alloc, out, text),
        "triple" => terms::put_triple(alloc, out, text),
        "iri" => terms::put_iri(alloc, out, text),
        "resolve" => terms::put_resolved(alloc, out, front, text),
        "key" | "id" | "type" => match held.context() {
            Some(context) => contexts::put_meaning(alloc, out, context, word, text),
            None => Ok(false),
        },
        _ => Ok(false),
    }
}
