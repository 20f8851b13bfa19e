//! Two texts.
//!
//! `order ["TEXT", "TEXT"]`: how the triple of the first text stands to that of the second. It gives `before`, `same` or `behind`, where
//! all comparisons of triples say so.
//!
//! `escaped ["TEXT", "TEXT"]`: how the first lexical form stands to the second as they are written, with their closing quotes; `closed`:
//! how the first IRI does, with `>` behind it. They give `before`, `same` or `behind`. `common`: how many bytes two texts have in common
//! from their starts.
use rdf_terms::{Triple, cmp_iris, cmp_terms, cmp_triples, read_triple};
use std::alloc::{AllocError, Global};
use std::cmp::Ordering;
use std::fmt::Write;
use text_rules::{cmp_closed, cmp_escaped, common_len};

/// Puts what a word compares of two texts.
pub fn put(
    alloc: Global,
    out: &mut String,
    word: &str,
    first: &str,
    second: &str,
) -> Result<bool, AllocError> {
    if word == "common" {
        write!(out, "{}", common_len(first.as_bytes(), second.as_bytes()))?;
        return Ok(true);
    }
    let told = match word {
        "escaped" => order_text(cmp_escaped(first.as_bytes(), second.as_bytes())),
        "closed" => order_text(cmp_closed(first.as_bytes(), second.as_bytes())),
        _ => order_of(alloc, first, second),
    };
    out.push_str(told)?;
    Ok(!told.is_empty())
}

/// How the triples of two texts stand to each other; nothing where one of them is no triple.
fn order_of(alloc: Global, first: &str, second: &str) -> &'static str {
    match read_triple(alloc, first) {
        Ok(triple) => order_behind(alloc, &triple, second),
        Err(_) => "",
    }
}

/// How a triple stands to that of a text; nothing where this is no triple.
fn order_behind(alloc: Global, triple: &Triple, second: &str) -> &'static str {
    match read_triple(alloc, second) {
        Ok(other) => order_of_triples(triple, &other),
        Err(_) => "",
    }
}

/// How two triples stand to each other.
fn order_of_triples(triple: &Triple, other: &Triple) -> &'static str {
    let order = cmp_triples(triple, other);
    if order_by_parts(triple, other) == order && is_operators_order(triple, other, order) {
        order_text(order)
    } else {
        "compared in several ways"
    }
}

/// The order of two triples by their subjects, predicates and objects.
fn order_by_parts(triple: &Triple, other: &Triple) -> Ordering {
    let subjects = cmp_iris(&triple.s, &other.s);
    let predicates = cmp_iris(&triple.p, &other.p);
    subjects
        .then(predicates)
        .then(cmp_terms(&triple.o, &other.o))
}

/// Whether two triples stand so to each other by `cmp`, `<` and `==`.
fn is_operators_order(triple: &Triple, other: &Triple, order: Ordering) -> bool {
    triple.cmp(other) == order
        && (triple < other) == order.is_lt()
        && (triple == other) == order.is_eq()
}

/// An order in a line.
fn order_text(order: Ordering) -> &'static str {
    match order {
        Ordering::Less => "before",
        Ordering::Equal => "same",
        Ordering::Greater => "behind",
    }
}
