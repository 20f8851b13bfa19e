//! Texts of several parts, which share their names: `names` has what the parts have met so far. `mark` sets a mark, and `since` has the
//! variables that were met behind it.
use crate::held::Held;
use jrql_ast::VARIABLE_LIMIT;
use jsonld_values::Names;
use std::alloc::{AllocError, Global};
use std::fmt::Write;

/// Puts what a line gives that has nothing behind its word; whether a text was begun.
pub fn put(
    alloc: Global,
    out: &mut String,
    held: &mut Held,
    word: &str,
    input: &str,
) -> Result<bool, AllocError> {
    match &mut held.names {
        Some(names) if input.is_empty() => put_told(alloc, out, word, names),
        _ => Ok(false),
    }
}

/// Puts what a word asks of names.
fn put_told(
    alloc: Global,
    out: &mut String,
    word: &str,
    names: &mut Names,
) -> Result<bool, AllocError> {
    match word {
        "names" => put_met(out, names),
        "since" => put_met_since(alloc, out, names),
        _ => {
            names.mark();
            Ok(true)
        }
    }
}

/// Puts the names that were met since the mark, in the order of their numbers.
fn put_met_since(alloc: Global, out: &mut String, names: &Names) -> Result<bool, AllocError> {
    let texts = Box::new(alloc, names.texts(alloc)?)?;
    out.push_str("met")?;
    for number in 0..texts.len() {
        if names.was_met(number) {
            put_behind(out, texts[number].as_str())?;
        }
    }
    Ok(true)
}

/// Puts a name behind a space.
pub fn put_behind(out: &mut String, name: &str) -> Result<(), AllocError> {
    out.push(' ')?;
    out.push_str(name)?;
    Ok(())
}

/// Puts the names in the order of their numbers, and how many hidden variables and fresh subjects there are.
fn put_met(out: &mut String, names: &Names) -> Result<bool, AllocError> {
    out.push_str("named")?;
    for number in 0..VARIABLE_LIMIT {
        if let Some(name) = names.name(number) {
            put_behind(out, name)?;
        }
    }
    write!(out, ", hidden {}, fresh {}", names.hidden(), names.fresh())?;
    Ok(true)
}
