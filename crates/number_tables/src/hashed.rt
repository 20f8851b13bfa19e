//! Terms by their hashes.
//!
//! The hasher has a fixed seed, so strangers can choose terms of one hash. Those are told apart by their texts, by halves.
ghost use Rattle.std.specs.Prelude.{◌≡◌, ◌↔◌, Some, IfOk, IsTrue};
ghost use Rattle.std.specs.Cmp.Lexicographic.{slice_cmp};
ghost use Rattle.std.specs.List.{slice_get};
ghost use Rattle.std.specs.Ordering.{nat_cmp};
ghost use Rattle.rdf_terms.specs.declared.terms.Term.TheVariants as terms;
ghost use Rattle.rdf_terms.specs.Spelling.{term_text};
ghost use Rattle.number_tables.specs.HashedTerms.{hash_fed, term_hash, term_text_at, wanted_term};

use chunked_list::{Keyed, numbers_hint};
use rdf_terms::{Iri, Term, cmp_iris};
use std::alloc::AllocError;
use std::cmp::Ordering;
use std::hash::{FoldHasher, Hash, Hasher};

/// The number of a term, with the term's hash.
#[derive(Clone, Copy)]
pub(crate) struct HashedNumber {
    pub(crate) hash: u32,
    pub(crate) number: u32,
}

// Its text is the hash alone, so that a search by halves mostly compares numbers.
impl Keyed for HashedNumber {
    ghost use Rattle.number_tables.specs.HashedTerms.{hash_text};

    ghost key = { λ place. hash_text place.hash };

    // None, so that all hints are whole hashes.
    fn shared(&self, _other: &HashedNumber) -> usize {
        0
    }

    fn hint(&self, place: usize) -> u64 {
        numbers_hint(self.hash, 0, place)
    }
}

/// What is looked up: a term, or an IRI in place of the term that it is.
#[derive(Clone, Copy)]
pub(crate) enum Wanted<'a> {
    Iri(&'a Iri),
    Term(&'a Term),
}

impl<'a> Wanted<'a> {
    /// The hash of the term.
    #[tactic(auto, unfolding(crate::specs::HashedTerms::term_hash))]
    pub(crate) fn hash(&self) -> u32
        ensures { result ≡ term_hash (wanted_term self.now) }
    {
        match self {
            Wanted::Iri(iri) => hash_of(*iri),
            Wanted::Term(term) => hash_of(*term),
        }
    }

    /// The term, which shares the texts of what is looked up.
    pub(crate) fn share(&self) -> Result<Term, AllocError>
        ensures { IfOk result (λ term. term ≡ wanted_term self.now) }
    {
        match self {
            Wanted::Iri(iri) => Ok(Term::Iri(iri.share()?)),
            Wanted::Term(term) => term.share(),
        }
    }

    /// Whether it has a number.
    pub(crate) fn is_at(&self, terms: &[Term], number: u32) -> bool
        ensures { IsTrue result ↔ (slice_get terms.now number ≡ Some (wanted_term self.now)) }
    {
        self.compare_at(terms, number).is_eq()
    }

    /// How the term that has a number compares with the wanted one. Where none has, that is less.
    pub(crate) fn compare_at(&self, terms: &[Term], number: u32) -> Ordering
        ensures { result ≡ slice_cmp nat_cmp (term_text_at terms.now number) (term_text (wanted_term self.now)) }
    {
        match terms.get(number as usize) {
            Some(own) => self.compare(own),
            None => Ordering::Less,
        }
    }

    // How a term compares with it.
    #[tactic(auto, using(crate::proofs::TermTexts::literal_is_less, crate::proofs::TermTexts::terms_by_text), unfolding(rdf_terms::specs::Spelling::term_text))]
    fn compare(&self, own: &Term) -> Ordering
        ensures { result ≡ slice_cmp nat_cmp (term_text own.now) (term_text (wanted_term self.now)) }
    {
        match self {
            Wanted::Term(term) => own.cmp(*term),
            Wanted::Iri(iri) => compare_iri(own, *iri),
        }
    }
}

// How a term compares with an IRI as a term.
#[tactic(auto, using(crate::proofs::TermTexts::literal_is_less), unfolding(rdf_terms::specs::Spelling::term_text))]
fn compare_iri(own: &Term, iri: &Iri) -> Ordering
    ensures { result ≡ slice_cmp nat_cmp (term_text own.now) (term_text (terms.Iri iri.now)) }
{
    match own {
        Term::Iri(own) => cmp_iris(own, iri),
        Term::Literal(_) => Ordering::Less,
    }
}

// The hash of a value: the upper half of what the hasher makes, since four bytes tell terms apart well enough.
#[tactic(auto, unfolding(crate::specs::HashedTerms::hash_fed))]
fn hash_of<T: Hash>(value: &T) -> u32
    ensures { result ≡ hash_fed (T.hash_input value.now) }
{
    let mut hasher = FoldHasher::default();
    value.hash(&mut hasher);
    (hasher.finish() >> 32) as u32
}
