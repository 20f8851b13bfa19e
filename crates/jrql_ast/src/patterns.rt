//! Patterns of triples, filters, and groups of both (SPARQL 1.1 Query Language, sections 5, 7 and 17).

use crate::sequences::Sequence;
use rdf_terms::Term;
use std::alloc::AllocError;
use text_rules::Text;

/// What stands in a place of a pattern.
#[derive(Debug, PartialEq, Eq, Drop)]
pub enum Slot {
    /// A term.
    Term(Term),
    /// The variable of this number: the named ones in the order of their names, then the hidden ones.
    Var(u16),
    /// The fresh subject of this number, in an insert alone.
    Fresh(u32),
}

impl Slot {
    ghost use Rattle.std.specs.Prelude.{◌≡◌, IfOk};

    /// A copy of what stands there, which shares the texts of a term.
    pub fn share(&self) -> Result<Slot, AllocError>
        ensures { IfOk result (λ copy. copy ≡ self.now) }
    {
        match self {
            Slot::Term(term) => Ok(Slot::Term(term.share()?)),
            Slot::Var(number) => Ok(Slot::Var(*number)),
            Slot::Fresh(number) => Ok(Slot::Fresh(*number)),
        }
    }
}

/// A triple with variables.
#[derive(Debug, PartialEq, Eq, Drop)]
pub struct PatternTriple {
    /// The subject.
    pub s: Slot,
    /// The predicate.
    pub p: Slot,
    /// The object.
    pub o: Slot,
}

/// How a filter compares its sides.
#[derive(Clone, Copy, Debug, PartialEq, Eq)]
pub enum Compare {
    /// They are the same term.
    Eq,
    /// They are different terms.
    Neq,
    /// The left side is less.
    Lt,
    /// The left side is less or equal.
    Lte,
    /// The left side is greater.
    Gt,
    /// The left side is greater or equal.
    Gte,
}

/// A condition on solutions.
#[derive(Debug, PartialEq, Eq, Drop)]
pub struct Filter {
    /// How the sides are compared.
    pub op: Compare,
    /// The left side.
    pub left: Slot,
    /// The right side.
    pub right: Slot,
}

/// A group of patterns. Its solutions are those of all its patterns together with one of its branches that pass all its filters;
/// where there is no branch, those of its patterns alone.
#[derive(Debug, PartialEq, Eq, Drop)]
pub struct Group {
    /// The names of the named variables, by number, each with its question mark.
    pub names: Sequence<Text>,
    /// The number of hidden variables, which stand behind the named ones.
    pub hidden: u16,
    /// The patterns.
    pub patterns: Sequence<PatternTriple>,
    /// The branches of a union.
    pub branches: Sequence<Sequence<PatternTriple>>,
    /// The filters.
    pub filters: Sequence<Filter>,
}
