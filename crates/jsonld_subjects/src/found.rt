//! What was read of a text so far.
ghost use Rattle.std.specs.Prelude.{◌≡◌, Ok, IfOk, IfErr};
ghost use Rattle.jsonld_context.specs.Telling.{IsToldBy};
ghost use Rattle.jsonld_subjects.specs.SubjectReading.{meet_subject};

use crate::places::Place;
use jrql_ast::{PatternTriple, Slot};
use jsonld_context::JsonFault;
use jsonld_values::Names;
use std::alloc::Global;
use std::marker::Model;

/// What was read of a text so far: the names that were met, and the triples of the subjects that have ended.
#[derive(Debug, Drop)]
pub(crate) struct Found {
    names: Names,
    triples: Vec<PatternTriple>,
}

impl Model for Found {
    ghost use Rattle.jsonld_subjects.specs.SubjectReading.{Found as FoundValue};

    ghost Value = { FoundValue };

    ghost view = { λ f. record { names = f.names; triples = f.triples.items } };
}

impl Found {
    /// These names and triples.
    pub(crate) fn new(names: Names, triples: Vec<PatternTriple>) -> Found
        ensures { result ≡ record { names = names; triples = triples.items } }
    {
        Found { names, triples }
    }

    /// The names and the triples.
    pub(crate) fn into_parts(self) -> (Names, Vec<PatternTriple>)
        ensures { self ≡ record { names = result.0; triples = result.1.items } }
    {
        (self.names, self.triples)
    }
}

/// Meets a subject without an id.
pub(crate) fn meet_subject(
    alloc: Global,
    place: Place,
    names: &mut Names,
) -> Result<Slot, JsonFault>
    ensures ok { IfOk result (λ slot. meet_subject place names.old ≡ Ok (names.new, slot)) }
    ensures err { IfErr result (IsToldBy (meet_subject place names.old)) }
{
    match place {
        Place::Pattern => names.meet_hidden(alloc),
        Place::Insert => names.meet_fresh(),
    }
}
