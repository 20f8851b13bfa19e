//! Rows as an array of objects.
ghost use Rattle.std.specs.Prelude.{◌≡◌, None, map, IfOk, OnOk};
ghost use Rattle.std.specs.Option.{option_copied};
ghost use Rattle.serde_json.specs.Data.{array, object};
ghost use Rattle.serde_json.specs.View.{items_of};
ghost use Rattle.jrql_patterns.specs.jsonld_values.WrittenTokens.{WritesData};
ghost use Rattle.jrql_reply.specs.AnswerText.{row_data};
ghost use Rattle.jrql_reply.specs.Columns.{value_at, is_last, members_by, WritesColumn};

use crate::columns::{Column, columns_by_name};
use jrql_ast::Row;
use jrql_patterns::jsonld_subjects::write_term;
use json::Writer;
use jsonld_context::Context;
use rdf_terms::Term;
use std::alloc::{AllocError, Global};
use text_rules::Text;

/// Writes rows as an array of objects, each with the listed variables that are bound in it.
pub(crate) fn write_rows(
    alloc: Global,
    out: &mut Writer,
    rows: &[Row],
    names: &[Text],
    variables: &[u16],
    context: &Context,
) -> Result<(), AllocError>
    ensures ok { OnOk result
        (WritesData out.old out.new (array (items_of (map (row_data context.now names.now variables.now) rows.now)))) }
    ensures before { out.new.before ≡ out.old.before }
{
    let columns = columns_by_name(alloc, names, variables)?;
    out.begin_array()?;
    for row in rows {
        write_row(alloc, out, row.as_slice(), &columns, context)?;
    }
    out.end_array()
}

/// Writes a row as an object, by columns in order.
fn write_row(
    alloc: Global,
    out: &mut Writer,
    row: &[Option<Term>],
    columns: &[Column<'_>],
    context: &Context,
) -> Result<(), AllocError>
    ensures ok { OnOk result (WritesData out.old out.new (object (members_by context.now row.now None columns.now))) }
    ensures before { out.new.before ≡ out.old.before }
{
    out.begin_object()?;
    let mut last = None;
    for column in columns {
        last = write_column(alloc, out, row, column, last, context)?;
    }
    out.end_object()
}

/// What a row has at a place.
fn value_at(row: &[Option<Term>], place: usize) -> Option<&Term>
    ensures { option_copied result ≡ value_at row.now place }
{
    match row.get(place) {
        Some(value) => value.as_ref(),
        None => None,
    }
}

/// Whether a name is the last one that was written.
fn is_last(last: Option<&str>, name: &str) -> bool
    ensures { result ≡ is_last (option_copied last.entry) name.now }
{
    match last {
        Some(text) => name == text,
        None => false,
    }
}

/// Writes the value of a column under its name, where it is bound, and its name isn't the last one that was written; gives the last one
/// behind it.
fn write_column<'a>(
    alloc: Global,
    out: &mut Writer,
    row: &[Option<Term>],
    column: &Column<'a>,
    last: Option<&'a str>,
    context: &Context,
) -> Result<Option<&'a str>, AllocError>
    ensures ok { IfOk result (λ after. WritesColumn context.now row.now column.now
        (option_copied last.entry) (option_copied after) out.old out.new) }
    ensures before { out.new.before ≡ out.old.before }
{
    let Some(term) = value_at(row, column.place()) else {
        return Ok(last);
    };
    if is_last(last, column.name()) {
        return Ok(last);
    }
    out.key(column.name())?;
    write_term(alloc, out, term, context)?;
    Ok(Some(column.name()))
}
