//! A subject that is being read.
ghost use Rattle.std.specs.Prelude.{◌≡◌, ◌++◌, [], Some, Ok, OnOk, IfOk, IfErr};
ghost use Rattle.jsonld_context.specs.Telling.{IsToldBy};
ghost use Rattle.jsonld_values.specs.VariableNames.{no_names, meet_variable};
ghost use Rattle.jsonld_subjects.specs.SubjectReading.{with_names, with_object, ended, linked, triples_about};

use crate::found::Found;
use jrql_ast::{PatternTriple, Slot};
use jsonld_context::JsonFault;
use jsonld_values::Names;
use std::alloc::{AllocError, Global};
use std::marker::Model;
use std::mem;

/// What was read of a text and of a subject in it so far: the names that were met, the triples of the subjects that have ended, the
/// slot of this one, once it is known, and its properties with their objects.
#[derive(Debug, Drop)]
pub(crate) struct OpenSubject {
    names: Names,
    triples: Vec<PatternTriple>,
    slot: Option<Slot>,
    properties: Vec<(Slot, Slot)>,
}

impl Model for OpenSubject {
    ghost use Rattle.jsonld_subjects.specs.SubjectReading.{OpenSubject as OpenSubjectValue};

    ghost Value = { OpenSubjectValue };

    ghost view = { λ s. record { found = record { names = s.names; triples = s.triples.items }; slot = s.slot; properties = s.properties.items } };
}

impl OpenSubject {
    /// A subject of which nothing was read but its slot.
    pub(crate) fn begin(alloc: Global, found: Found, slot: Option<Slot>) -> OpenSubject
        ensures { result ≡ record { found = found; slot = slot; properties = [] } }
    {
        let (names, triples) = found.into_parts();
        OpenSubject {
            names,
            triples,
            slot,
            properties: Vec::new(alloc),
        }
    }

    /// Takes out what was found.
    pub(crate) fn take_found(&mut self, alloc: Global) -> Found
        ensures found { result ≡ self.old.found }
        ensures left { self.new ≡ record self.old { found = record { names = no_names; triples = [] } } }
    {
        let names = mem::replace(&mut self.names, Names::empty(alloc));
        let triples = mem::replace(&mut self.triples, Vec::new(alloc));
        Found::new(names, triples)
    }

    /// Meets a variable.
    pub(crate) fn meet_variable(&mut self, alloc: Global, name: &str) -> Result<Slot, JsonFault>
        ensures ok { IfOk result
            (λ slot. meet_variable self.old.found.names name.now ≡ Ok (self.new.found.names, slot)) }
        ensures err { IfErr result (IsToldBy (meet_variable self.old.found.names name.now)) }
        ensures kept { self.new ≡ with_names self.old self.new.found.names }
    {
        self.names.meet_variable(alloc, name)
    }

    /// Says what the subject is.
    pub(crate) fn set_slot(&mut self, slot: Slot)
        ensures { self.new ≡ record self.old { slot = Some slot } }
    {
        self.slot = Some(slot);
    }

    /// Puts an object of a property behind the others.
    pub(crate) fn put(&mut self, property: Slot, object: Slot) -> Result<(), AllocError>
        ensures { OnOk result (self.new ≡ with_object self.old property object) }
    {
        self.properties.push((property, object))?;
        Ok(())
    }

    /// A copy of what the subject is.
    pub(crate) fn copy_slot(&self) -> Result<Option<Slot>, AllocError>
        ensures { IfOk result (λ slot. slot ≡ self.now.slot) }
    {
        match &self.slot {
            Some(slot) => Ok(Some(slot.share()?)),
            None => Ok(None),
        }
    }

    /// What was found once the subject has ended: its triples stand behind those of the subjects within it.
    pub(crate) fn end(self) -> Result<Found, AllocError>
        ensures { IfOk result (λ found. found ≡ ended self) }
    {
        let OpenSubject {
            names,
            triples,
            slot,
            properties,
        } = self;
        let Some(subject) = slot else {
            return Ok(Found::new(names, triples));
        };
        let mut triples = triples;
        put_triples(&mut triples, &subject, properties)?;
        Ok(Found::new(names, triples))
    }

    /// Makes a subject within this one, which has ended, the object of a property.
    pub(crate) fn link(&mut self, property: &Slot, inner: OpenSubject) -> Result<(), AllocError>
        ensures { OnOk result (self.new ≡ linked self.old property.now inner) }
    {
        let slot = inner.copy_slot()?;
        self.set_found(inner.end()?);
        if let Some(subject) = slot {
            self.put(property.share()?, subject)?;
        }
        Ok(())
    }

    /// Puts back what was found.
    fn set_found(&mut self, found: Found)
        ensures { self.new ≡ record self.old { found = found } }
    {
        let (names, triples) = found.into_parts();
        self.names = names;
        self.triples = triples;
    }
}

/// Puts the triples of a subject behind others.
fn put_triples(
    triples: &mut Vec<PatternTriple>,
    subject: &Slot,
    properties: Vec<(Slot, Slot)>,
) -> Result<(), AllocError>
    ensures { OnOk result (triples.new.items ≡ triples.old.items ++ triples_about (Some subject.now) properties.items) }
{
    for (property, object) in properties {
        let triple = PatternTriple {
            s: subject.share()?,
            p: property,
            o: object,
        };
        triples.push(triple)?;
    }
    Ok(())
}
