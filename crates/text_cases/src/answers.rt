//! `rows DOMAIN JSON of ROWS`: the text of the answer to a query of a domain, where these are the rows. A row is a value for each selected
//! variable, parted by bars: what stands for it in a triple, or `-` where the variable is unbound. Behind each row stands a dot; no rows
//! are `nothing`.
ghost use Rattle.std.specs.Prelude.{◌≡◌, IfOk, IfSome, List, Option, length};
ghost use Rattle.std.specs.List.{All};
ghost use Rattle.rdf_terms.specs.declared.terms.Term.{Term};
ghost use Rattle.jrql_ast.specs.InForm.{IsQueryInForm, IsAnswerTo};
ghost use Rattle.jrql_ast.specs.declared.answers.Answer.TheVariants.{Rows};

use crate::texts::put_text;
use jrql_ast::{Answer, Row, Sequence, What};
use jrql_patterns::{ReadQuery, read_query};
use jrql_reply::spell_answer;
use rdf_terms::{Term, read_triple};
use std::alloc::{AllocError, Global};
use text_rules::is_domain;
use transcripts::parted;

/// What stands between a query and its rows.
const BEFORE_ROWS: &str = " of ";

/// What stands between two rows, and behind the last one.
const BETWEEN: &str = " . ";

const LAST: &str = " .";

/// What stands between two values of a row.
const BAR: &str = " | ";

/// Puts what a line gives.
pub fn put(alloc: Global, out: &mut String, input: &str) -> Result<bool, AllocError> {
    let (domain, rest) = parted(input);
    match rest.split_once(BEFORE_ROWS) {
        Some((json, rows)) => put_rows(alloc, out, domain, json, rows),
        None => Ok(false),
    }
}

/// Puts the text of the answer to a query, which has these rows.
fn put_rows(
    alloc: Global,
    out: &mut String,
    domain: &str,
    json: &str,
    rows: &str,
) -> Result<bool, AllocError> {
    if !is_domain(domain) {
        return Ok(false);
    }
    match read_query(alloc, json.as_bytes(), domain) {
        Ok(read) => put_answer(alloc, out, &read, rows),
        Err(_) => Ok(false),
    }
}

/// Puts the text of the answer to a select, which has these rows.
fn put_answer(
    alloc: Global,
    out: &mut String,
    read: &ReadQuery,
    rows: &str,
) -> Result<bool, AllocError>
    requires { IsQueryInForm read.now.query }
{
    match &read.query.what {
        What::Select(select) => put_selected(alloc, out, read, rows, select.vars.len()),
        What::Describe(_) => Ok(false),
    }
}

/// Puts the text of the answer to a select of so many variables, which has these rows.
fn put_selected(
    alloc: Global,
    out: &mut String,
    read: &ReadQuery,
    rows: &str,
    width: usize,
) -> Result<bool, AllocError>
    requires form { IsQueryInForm read.now.query }
    requires kind { (rows : List (List (Option Term))) → All (λ row. length row ≡ width) rows
        → IsAnswerTo read.now.query.what (Rows rows) }
{
    match rows_of(alloc, rows, width)? {
        Some(rows) => {
            let answer = Answer::Rows(rows);
            put_spelled(alloc, out, read, &answer)
        }
        None => Ok(false),
    }
}

/// Puts the text of an answer.
fn put_spelled(
    alloc: Global,
    out: &mut String,
    read: &ReadQuery,
    answer: &Answer,
) -> Result<bool, AllocError>
    requires form { IsQueryInForm read.now.query }
    requires kind { IsAnswerTo read.now.query.what answer.now }
{
    let text = Box::new(alloc, spell_answer(alloc, answer, read)?)?;
    put_text(out, text.as_slice())
}

/// The rows of a text, each of so many values.
fn rows_of(alloc: Global, text: &str, width: usize) -> Result<Option<Sequence<Row>>, AllocError>
    ensures { IfOk result (λ found. IfSome found (All (λ row. length row ≡ width))) }
{
    let mut rows = Sequence::new(alloc);
    if text == "nothing" {
        return Ok(Some(rows));
    }
    let Some(front) = text.strip_suffix(LAST) else {
        return Ok(None);
    };
    for values in front.split(BETWEEN) {
        match row_of(alloc, values, width)? {
            Some(row) => rows.push(row)?,
            None => return Ok(None),
        }
    }
    Ok(Some(rows))
}

/// The row of a text, of so many values.
fn row_of(alloc: Global, text: &str, width: usize) -> Result<Option<Row>, AllocError>
    ensures { IfOk result (λ found. IfSome found (λ row. length row ≡ width)) }
{
    let mut row = Sequence::new(alloc);
    for value in text.split(BAR) {
        if !push_value(alloc, &mut row, value)? {
            return Ok(None);
        }
    }
    if row.len() == width {
        Ok(Some(row))
    } else {
        Ok(None)
    }
}

/// Adds a value to a row; whether it is one.
fn push_value(alloc: Global, row: &mut Row, value: &str) -> Result<bool, AllocError> {
    if value == "-" {
        row.push(None)?;
        return Ok(true);
    }
    let line = format!(in alloc; "<a:> <a:> {value} .")?;
    match term_of(alloc, line.as_str())? {
        Some(term) => {
            row.push(Some(term))?;
            Ok(true)
        }
        None => Ok(false),
    }
}

/// The object of the triple of a line.
fn term_of(alloc: Global, line: &str) -> Result<Option<Term>, AllocError> {
    match read_triple(alloc, line) {
        Ok(triple) => {
            let triple = Box::new(alloc, triple)?;
            Ok(Some(triple.o.share()?))
        }
        Err(_) => Ok(None),
    }
}
