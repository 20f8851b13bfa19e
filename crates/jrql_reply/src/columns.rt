//! The columns of rows, in the order in which they are written.
ghost use Rattle.std.specs.Prelude.{◌≡◌, IfOk, IsPermutation, IsSorted};
ghost use Rattle.jrql_reply.specs.AnswerText.{name_of};
ghost use Rattle.jrql_reply.specs.Columns.{columns_from, column_cmp};

use std::alloc::{AllocError, Global};
use std::cmp::Ordering;
use std::marker::Model;
use text_rules::Text;

/// A column: the name under which its values are written, and its place in a row.
#[derive(Debug, Drop)]
pub(crate) struct Column<'a> {
    name: &'a str,
    place: usize,
}

impl<'a> Model for Column<'a> {
    ghost use Rattle.jrql_reply.specs.Columns.{ColumnValue};

    ghost Value = { ColumnValue };

    ghost view = { λ column. record { name = column.name.now; place = column.place } };
}

impl<'a> Column<'a> {
    /// The name.
    pub(crate) fn name(&self) -> &'a str
        ensures { result.now ≡ self.now.name }
    {
        self.name
    }

    /// The place.
    pub(crate) fn place(&self) -> usize
        ensures { result ≡ self.now.place }
    {
        self.place
    }

    /// Compares by names, and under one name by places.
    fn compare(&self, other: &Column<'_>) -> Ordering
        ensures { result ≡ column_cmp self.now other.now }
    {
        match self.name.cmp(other.name) {
            Ordering::Less => Ordering::Less,
            Ordering::Equal => self.place.cmp(&other.place),
            Ordering::Greater => Ordering::Greater,
        }
    }
}

/// The name of the variable of a number.
fn name_of(names: &[Text], variable: u16) -> &str
    ensures { result.now ≡ name_of names.now variable }
{
    match names.get(usize::from(variable)) {
        Some(name) => name.as_str(),
        None => "",
    }
}

/// A column for each variable, in the order of the variables.
fn columns_of<'a>(
    alloc: Global,
    names: &'a [Text],
    variables: &[u16],
) -> Result<Vec<Column<'a>>, AllocError>
    ensures { IfOk result (λ columns. columns.items ≡ columns_from names.now 0 variables.now) }
{
    let mut columns = Vec::with_capacity(alloc, variables.len())?;
    for place in 0..variables.len() {
        let name = name_of(names, variables[place]);
        columns.push(Column { name, place })?;
    }
    Ok(columns)
}

/// A column for each variable, by name.
pub(crate) fn columns_by_name<'a>(
    alloc: Global,
    names: &'a [Text],
    variables: &[u16],
) -> Result<Vec<Column<'a>>, AllocError>
    ensures permutation { IfOk result (λ columns. IsPermutation (columns_from names.now 0 variables.now) columns.items) }
    ensures sorted { IfOk result (λ columns. IsSorted column_cmp columns.items) }
{
    let mut columns = columns_of(alloc, names, variables)?;
    columns.sort_unstable_by(|column, other| column.compare(other));
    Ok(columns)
}
