//! Queries (SPARQL 1.1 Query Language, sections 15 and 16).

use crate::patterns::Group;
use crate::sequences::Sequence;
use rdf_terms::Iri;

/// What is to be described.
#[derive(Debug, PartialEq, Eq, Drop)]
pub enum Target {
    /// An IRI.
    Iri(Iri),
    /// The IRIs that solutions have for the variable of this number.
    Var(u16),
}

/// Rows of the values of variables.
#[derive(Debug, PartialEq, Eq, Drop)]
pub struct Select {
    /// The numbers of the variables, in the order of the columns.
    pub vars: Sequence<u16>,
    /// Whether each row is given once.
    pub distinct: bool,
    /// How many rows are left out in front.
    pub offset: u64,
    /// How many rows are given at most.
    pub limit: Option<u64>,
}

/// What is asked of the solutions.
#[derive(Debug, PartialEq, Eq, Drop)]
pub enum What {
    /// Rows.
    Select(Select),
    /// The triples of subjects.
    Describe(Sequence<Target>),
}

/// A query.
#[derive(Debug, PartialEq, Eq, Drop)]
pub struct Query {
    /// Which solutions there are.
    pub group: Group,
    /// What is asked of them.
    pub what: What,
}
