//! Answers to queries.

use crate::sequences::Sequence;
use rdf_terms::{Iri, Term, Triple};

/// The values of the selected variables in one solution; none where a variable is unbound.
pub type Row = Sequence<Option<Term>>;

/// A subject with its triples.
#[derive(Debug, Drop)]
pub struct Described {
    /// The subject.
    pub id: Iri,
    /// Its triples.
    pub triples: Sequence<Triple>,
}

/// The answer to a query.
#[derive(Debug, Drop)]
pub enum Answer {
    /// The rows of a select.
    Rows(Sequence<Row>),
    /// The subjects of a describe.
    Subjects(Sequence<Described>),
}
