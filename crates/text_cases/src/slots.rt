//! Triples with variables as lines: IRIs, literals, variables and subjects without an id.
use jrql_ast::{PatternTriple, Slot, VARIABLE_LIMIT};
use jsonld_values::Names;
use rdf_terms::{Literal, Term};
use std::alloc::{AllocError, Global};
use std::fmt::Write;
use text_rules::Text;

/// xsd:string, which is left out.
const XSD_STRING: &str = "http://www.w3.org/2001/XMLSchema#string";

/// How variables stand in lines.
#[derive(Clone, Copy)]
pub enum Variables<'a> {
    /// Each by its name; one that has none by its number among those that have none.
    Named(&'a Names),
    /// Each by its name, the one of its number among these; one that has none by its number behind them.
    OfGroup(&'a [Text]),
    /// Each by its number.
    Numbered,
}

/// Puts triples, each with a dot behind it, in the order of their bytes; `nothing` where there are none.
pub fn put_triples(
    alloc: Global,
    out: &mut String,
    triples: &[PatternTriple],
    variables: Variables<'_>,
) -> Result<(), AllocError> {
    let mut lines = Box::new(alloc, Vec::new(alloc))?;
    put_sorted(alloc, out, &mut lines, triples, variables)
}

/// Puts triples as lines into an empty list, and then these, in the order of their bytes.
fn put_sorted(
    alloc: Global,
    out: &mut String,
    lines: &mut Vec<String>,
    triples: &[PatternTriple],
    variables: Variables<'_>,
) -> Result<(), AllocError> {
    for triple in triples {
        push_line(alloc, lines, triple, variables)?;
    }
    lines.sort()?;
    put_lines(out, lines.as_slice())
}

/// Puts lines, each with a dot behind it; `nothing` where there are none.
fn put_lines(out: &mut String, lines: &[String]) -> Result<(), AllocError> {
    if lines.is_empty() {
        out.push_str("nothing")?;
    }
    let mut is_first = true;
    for line in lines {
        if !is_first {
            out.push(' ')?;
        }
        is_first = false;
        out.push_str(line.as_str())?;
        out.push_str(" .")?;
    }
    Ok(())
}

/// Puts a triple behind these lines, without its last dot.
fn push_line(
    alloc: Global,
    lines: &mut Vec<String>,
    triple: &PatternTriple,
    variables: Variables<'_>,
) -> Result<(), AllocError> {
    let mut line = String::new(alloc);
    put_triple(&mut line, triple, variables)?;
    lines.push(line)?;
    Ok(())
}

/// Puts a triple, without a dot.
fn put_triple(
    line: &mut String,
    triple: &PatternTriple,
    variables: Variables<'_>,
) -> Result<(), AllocError> {
    put_slot(line, &triple.s, variables)?;
    line.push(' ')?;
    put_slot(line, &triple.p, variables)?;
    line.push(' ')?;
    put_slot(line, &triple.o, variables)
}

/// Puts what stands in a place at the end of a line.
pub fn put_slot(
    line: &mut String,
    slot: &Slot,
    variables: Variables<'_>,
) -> Result<(), AllocError> {
    match slot {
        Slot::Term(Term::Iri(iri)) => put_iri(line, iri.as_str()),
        Slot::Term(Term::Literal(literal)) => put_literal(line, literal),
        Slot::Var(number) => put_variable(line, usize::from(*number), variables),
        Slot::Fresh(number) => put_nameless(line, u64::from(*number)),
    }
}

/// Puts an IRI.
pub fn put_iri(line: &mut String, iri: &str) -> Result<(), AllocError> {
    line.push('<')?;
    line.push_str(iri)?;
    line.push('>')?;
    Ok(())
}

/// Puts a literal, its lexical form as it is.
fn put_literal(line: &mut String, literal: &Literal) -> Result<(), AllocError> {
    line.push('"')?;
    line.push_str(literal.lexical())?;
    line.push('"')?;
    if let Some(tag) = literal.language() {
        line.push('@')?;
        line.push_str(tag)?;
    }
    match literal.datatype() {
        None => Ok(()),
        Some(XSD_STRING) => Ok(()),
        Some(datatype) => {
            line.push_str("^^")?;
            put_iri(line, datatype)
        }
    }
}

/// Puts a variable.
pub fn put_variable(
    line: &mut String,
    number: usize,
    variables: Variables<'_>,
) -> Result<(), AllocError> {
    match variables {
        Variables::Named(names) => put_named(line, number, names),
        Variables::OfGroup(names) => put_of_group(line, number, names),
        Variables::Numbered => write!(line, "?{number}"),
    }
}

/// Puts the name of a variable, or where it has none its number among those that have none.
fn put_named(line: &mut String, number: usize, names: &Names) -> Result<(), AllocError> {
    match names.name(number) {
        Some(name) => {
            line.push_str(name)?;
            Ok(())
        }
        None => put_nameless(line, number.saturating_sub(VARIABLE_LIMIT) as u64),
    }
}

/// Puts the name of a variable of a group, or its number behind those that have names.
fn put_of_group(line: &mut String, number: usize, names: &[Text]) -> Result<(), AllocError> {
    match names.get(number) {
        Some(name) => {
            line.push_str(name.as_str())?;
            Ok(())
        }
        None => put_nameless(line, number.saturating_sub(names.len()) as u64),
    }
}

/// Puts the number of a subject without an id.
fn put_nameless(line: &mut String, number: u64) -> Result<(), AllocError> {
    write!(line, "_:{number}")
}
