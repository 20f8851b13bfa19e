//! Filters.
ghost use Rattle.std.specs.Prelude.{◌≡◌, ◌==◌, ℤ, codes, length, Some, None, if◌then◌else◌, IsTrue};
ghost use Rattle.std.specs.Option.{option_copied};
ghost use Rattle.std.specs.Str.{all_ascii_digits};
ghost use Rattle.std.specs.Str.Parse.{without_leading_sign, signed_digits_value};
ghost use Rattle.rdf_terms.specs.Literal.{datatype_of, has_datatype, lexical_form, is_same, xsd_string, xsd_integer};
ghost use Rattle.jrql_ast.specs.FilterMeaning.{is_integer_text, number_value, string_of, value_cmp, compares_so, holds};
ghost use Rattle.jrql_filters.specs.FilteredRows.{all_hold, all_can_hold, can_hold};

use crate::limits::DIGIT_LIMIT;
use crate::values::{Values, term_at};
use jrql_ast::{Compare, Filter};
use rdf_terms::{Literal, Term};
use std::cmp::Ordering;

/// xsd:integer (XML Schema Part 2, section 3.4.13).
const XSD_INTEGER: &str = "http://www.w3.org/2001/XMLSchema#integer";

/// xsd:string, the datatype of a literal that names none.
const XSD_STRING: &str = "http://www.w3.org/2001/XMLSchema#string";

// A text's bytes without a sign in front.
fn without_sign(bytes: &[u8]) -> &[u8]
    ensures { result.now ≡ without_leading_sign bytes.now }
{
    match bytes.first() {
        Some(b'+') => &bytes[1..],
        Some(b'-') => &bytes[1..],
        _ => bytes,
    }
}

// Whether all bytes are decimal digits.
fn are_digits(bytes: &[u8]) -> bool
    ensures { result ≡ all_ascii_digits bytes.now }
{
    for byte in bytes {
        if !byte.is_ascii_digit() {
            return false;
        }
    }
    true
}

// Whether a text is a sign or none, and 1 to 30 digits.
fn is_integer_text(text: &str) -> bool
    ensures { result ≡ is_integer_text text.now }
{
    let digits = without_sign(text.as_bytes());
    1 <= digits.len() && digits.len() <= DIGIT_LIMIT && are_digits(digits)
}

// The number of such a text.
fn integer_of(text: &str) -> Option<i128>
    requires { IsTrue (is_integer_text text.now) }
    ensures { result ≡ Some (signed_digits_value 10 text.now) }
{
    text.parse::<i128>().ok()
}

// Whether a literal is of a datatype.
fn is_of_type(literal: &Literal, datatype: &str) -> bool
    ensures { result ≡ has_datatype datatype.now literal.now }
{
    match literal.datatype() {
        Some(own) => own == datatype,
        None => false,
    }
}

// The number that a term is, where it is one.
#[tactic(auto, unfolding(rdf_terms::specs::Literal::xsd_integer))]
fn number_value(term: &Term) -> Option<i128>
    ensures { result ≡ number_value term.now }
{
    let Term::Literal(literal) = term else {
        return None;
    };
    if is_of_type(literal, XSD_INTEGER) && is_integer_text(literal.lexical()) {
        integer_of(literal.lexical())
    } else {
        None
    }
}

// The lexical form of a string.
#[tactic(auto, unfolding(rdf_terms::specs::Literal::xsd_string))]
fn string_of(term: &Term) -> Option<&str>
    ensures { option_copied result ≡ string_of term.now }
{
    let Term::Literal(literal) = term else {
        return None;
    };
    if is_of_type(literal, XSD_STRING) {
        Some(literal.lexical())
    } else {
        None
    }
}

// How two terms are ordered, where they are: numbers by value, strings by their bytes.
fn cmp_values(left: &Term, right: &Term) -> Option<Ordering>
    ensures { result ≡ value_cmp left.now right.now }
{
    if let (Some(number), Some(other)) = (number_value(left), number_value(right)) {
        return Some(number.cmp(&other));
    }
    if let (Some(text), Some(other)) = (string_of(left), string_of(right)) {
        return Some(text.as_bytes().cmp(other.as_bytes()));
    }
    None
}

// Whether two terms compare so.
fn compares_so(op: Compare, left: &Term, right: &Term) -> bool
    ensures { result ≡ compares_so op left.now right.now }
{
    match op {
        Compare::Eq => left == right,
        Compare::Neq => left != right,
        Compare::Lt => match cmp_values(left, right) {
            Some(order) => order.is_lt(),
            None => false,
        },
        Compare::Lte => match cmp_values(left, right) {
            Some(order) => order.is_le(),
            None => false,
        },
        Compare::Gt => match cmp_values(left, right) {
            Some(order) => order.is_gt(),
            None => false,
        },
        Compare::Gte => match cmp_values(left, right) {
            Some(order) => order.is_ge(),
            None => false,
        },
    }
}

// Whether a filter holds of a row.
fn holds<V: Values>(filter: &Filter, row: &V) -> bool
    ensures { result ≡ holds filter.now (V.values row.now) }
{
    match (term_at(&filter.left, row), term_at(&filter.right, row)) {
        (Some(left), Some(right)) => compares_so(filter.op, left, right),
        _ => false,
    }
}

/// Whether all filters hold of a row.
pub fn all_hold<V: Values>(filters: &[Filter], row: &V) -> bool
    ensures { result ≡ all_hold filters.now (V.values row.now) }
{
    for filter in filters {
        if !holds(filter, row) {
            return false;
        }
    }
    true
}

// Whether a filter may hold behind a row: it does where a side of it isn't bound yet.
fn can_hold<V: Values>(filter: &Filter, row: &V) -> bool
    ensures { result ≡ can_hold filter.now (V.values row.now) }
{
    match (term_at(&filter.left, row), term_at(&filter.right, row)) {
        (Some(left), Some(right)) => compares_so(filter.op, left, right),
        _ => true,
    }
}

/// Whether all filters may hold behind a row.
pub fn all_can_hold<V: Values>(filters: &[&Filter], row: &V) -> bool
    ensures { result ≡ all_can_hold filters.now (V.values row.now) }
{
    for filter in filters {
        if !can_hold(filter, row) {
            return false;
        }
    }
    true
}
