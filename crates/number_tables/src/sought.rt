//! The order of hashed numbers, and where a term is among them.
ghost use Rattle.std.specs.Prelude.{◌≡◌, []};
ghost use Rattle.std.specs.Cmp.Lexicographic.{slice_cmp};
ghost use Rattle.std.specs.Ordering.{nat_cmp, ordering_then};
ghost use Rattle.number_tables.specs.HashedTerms.{term_text_at};

use crate::hashed::{HashedNumber, Wanted};
use chunked_list::{Bound, Order, numbers_hint};
use rdf_terms::Term;
use std::cmp::Ordering;

/// By hash, then by the texts of the terms, then by number.
#[derive(Drop)]
pub(crate) struct ByHash<'a> {
    pub(crate) terms: &'a [Term],
}

impl<'a> Order<HashedNumber> for ByHash<'a> {
    ghost use Rattle.number_tables.specs.HashedTerms.{hashed_cmp};
    ghost use Rattle.number_tables.specs.HashedLaws.{hashed_total, hashed_exact, hashed_by_text};

    ghost order = { λ by. hashed_cmp by.terms.now };

    ghost total = { λ by. hashed_total by.terms.now };

    ghost exact = { λ by. hashed_exact by.terms.now };

    ghost by_key = { λ by. hashed_by_text by.terms.now };

    fn compare(&self, a: &HashedNumber, b: &HashedNumber) -> Ordering {
        match a.hash.cmp(&b.hash) {
            Ordering::Less => Ordering::Less,
            Ordering::Greater => Ordering::Greater,
            Ordering::Equal => compare_numbers(self.terms, a.number, b.number),
        }
    }
}

// How two numbers compare by the texts of their terms, and then by themselves.
fn compare_numbers(terms: &[Term], a: u32, b: u32) -> Ordering
    ensures { result ≡ ordering_then (slice_cmp nat_cmp (term_text_at terms.now a) (term_text_at terms.now b)) (nat_cmp a b) }
{
    match compare_terms(terms, a, b) {
        Ordering::Less => Ordering::Less,
        Ordering::Greater => Ordering::Greater,
        Ordering::Equal => a.cmp(&b),
    }
}

// How the terms of two numbers compare.
fn compare_terms(terms: &[Term], a: u32, b: u32) -> Ordering
    ensures { result ≡ slice_cmp nat_cmp (term_text_at terms.now a) (term_text_at terms.now b) }
{
    match terms.get(b as usize) {
        Some(term) => Wanted::Term(term).compare_at(terms, a),
        None => compare_with_none(terms, a),
    }
}

// How the term of a number compares with none.
#[tactic(auto, using(crate::proofs::TermTexts::more_than_none))]
fn compare_with_none(terms: &[Term], number: u32) -> Ordering
    ensures { result ≡ slice_cmp nat_cmp (term_text_at terms.now number) [] }
{
    match terms.get(number as usize) {
        Some(_) => Ordering::Greater,
        None => Ordering::Equal,
    }
}

/// The place of a term: behind the numbers of those in front of it.
#[derive(Drop)]
pub(crate) struct Sought<'a> {
    pub(crate) terms: &'a [Term],
    pub(crate) hash: u32,
    pub(crate) wanted: &'a Wanted<'a>,
}

impl<'a> Bound<HashedNumber> for Sought<'a> {
    ghost use Rattle.rdf_terms.specs.Spelling.{term_text};
    ghost use Rattle.number_tables.specs.HashedTerms.{hash_text, is_before_sought, wanted_term};
    ghost use Rattle.number_tables.specs.HashedLaws.{sought_below, sought_above};

    ghost before = { λ place. is_before_sought place.terms.now place.hash (term_text (wanted_term place.wanted.now)) };

    ghost key = { λ place. hash_text place.hash };

    fn is_before(&self, element: &HashedNumber) -> bool {
        match element.hash.cmp(&self.hash) {
            Ordering::Less => true,
            Ordering::Greater => false,
            Ordering::Equal => self.wanted.compare_at(self.terms, element.number).is_lt(),
        }
    }

    // None, so that all hints are whole hashes.
    fn shared(&self, _element: &HashedNumber) -> usize {
        0
    }

    fn hint(&self, place: usize) -> u64 {
        numbers_hint(self.hash, 0, place)
    }

    ghost below = { λ place. sought_below place.terms.now place.hash (term_text (wanted_term place.wanted.now)) };

    ghost above = { λ place. sought_above place.terms.now place.hash (term_text (wanted_term place.wanted.now)) };
}
