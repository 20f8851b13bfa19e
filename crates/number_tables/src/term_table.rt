//! A table of terms in which strangers can't slow a look-up down.
ghost use Rattle.std.specs.Prelude.{◌≡◌, ◌++◌, ◌∷◌, [], None, Some, length, IfOk, OnOk, OnErr};
ghost use Rattle.std.specs.List.{slice_get, IsDistinct};
ghost use Rattle.std.specs.Option.{option_copied};
ghost use Rattle.std.specs.Ordering.{eq_by_cmp};
ghost use Rattle.rdf_terms.specs.declared.terms.Term.TheVariants as terms;
ghost use Rattle.rdf_terms.specs.Order.{term_cmp};
ghost use Rattle.number_tables.specs.HashBuckets.{AreStanding, IsTermTable};
ghost use Rattle.number_tables.specs.HashedTerms.{term_hash, wanted_term};
ghost use Rattle.number_tables.specs.TableNumbers.{number_of_term, with_new_value};

use crate::hash_index::{HashIndex, find, grow, make_place, put};
use crate::hashed::Wanted;
use chunked_list::Chunked;
use rdf_terms::{Iri, Term};
use std::alloc::{AllocError, Global};
use std::marker::Model;

// So many terms have numbers at most.
const TERMS_LIMIT: usize = 4_294_967_295;

/// Terms, each once; a number is a term's place, and stays what it is. Contracts see the list of the terms.
///
/// Beside them stand their numbers, in buckets by the terms' hashes; those that find no room in their bucket stand in order, by
/// hash and then by text. So a look-up looks at one bucket and, where that is full, goes by halves: it compares few texts with
/// the wanted one, whatever the terms are.
#[derive(Drop)]
pub struct TermTable {
    terms: Vec<Term>,
    hashes: Vec<u32>,
    index: HashIndex,
}

impl Model for TermTable {
    ghost use Rattle.std.specs.Prelude.{List};
    ghost use Rattle.rdf_terms.specs.declared.terms.Term.{Term};
    ghost use Rattle.number_tables.specs.HashBuckets.{IsTermTable};

    ghost Value = { List Term };

    ghost view = { λ table. table.terms.items };

    ghost invariant = { λ table. IsTermTable table.terms.items table.hashes.items table.index.slots.items table.index.places.elements };
}

impl TermTable {
    /// No term.
    pub fn new(alloc: Global) -> TermTable
        ensures { result ≡ [] }
    {
        TermTable {
            terms: Vec::new(alloc),
            hashes: Vec::new(alloc),
            index: HashIndex {
                slots: Vec::new(alloc),
                places: Chunked::new(alloc),
            },
        }
    }

    /// How many terms there are.
    pub fn len(&self) -> usize
        ensures { result ≡ length self.now }
    {
        self.terms.len()
    }

    /// The term that has a number, where one has.
    pub fn get(&self, number: u32) -> Option<&Term>
        ensures value { option_copied result ≡ slice_get self.now number }
        ensures apart { IsDistinct (eq_by_cmp term_cmp) self.now }
    {
        self.terms.get(number as usize)
    }

    /// The number of a term, where it has one.
    pub fn number(&self, term: &Term) -> Option<u32>
        ensures { result ≡ number_of_term self.now term.now }
    {
        find_wanted(&self.terms, &self.index, &Wanted::Term(term))
    }

    /// The number of an IRI as a term, where it has one.
    pub fn iri_number(&self, iri: &Iri) -> Option<u32>
        ensures { result ≡ number_of_term self.now (terms.Iri iri.now) }
    {
        find_wanted(&self.terms, &self.index, &Wanted::Iri(iri))
    }

    /// The number of a term, which gets one where it has none. Where memory is wanting, or there are 2^32 - 1 terms, no term
    /// gets one.
    pub fn give(&mut self, term: &Term) -> Result<u32, AllocError>
        ensures number { IfOk result (λ number. number_of_term self.new term.now ≡ Some number) }
        ensures ok { OnOk result (self.new ≡ with_new_value (eq_by_cmp term_cmp) self.old term.now) }
        ensures err { OnErr result (self.new ≡ self.old) }
        ensures apart { IsDistinct (eq_by_cmp term_cmp) self.new }
    {
        give_wanted(
            &mut self.terms,
            &mut self.hashes,
            &mut self.index,
            &Wanted::Term(term),
        )
    }

    /// The number of an IRI as a term, which gets one where it has none.
    pub fn give_iri(&mut self, iri: &Iri) -> Result<u32, AllocError>
        ensures number { IfOk result (λ number. number_of_term self.new (terms.Iri iri.now) ≡ Some number) }
        ensures ok { OnOk result (self.new ≡ with_new_value (eq_by_cmp term_cmp) self.old (terms.Iri iri.now)) }
        ensures err { OnErr result (self.new ≡ self.old) }
        ensures apart { IsDistinct (eq_by_cmp term_cmp) self.new }
    {
        give_wanted(
            &mut self.terms,
            &mut self.hashes,
            &mut self.index,
            &Wanted::Iri(iri),
        )
    }
}

// The number of what is looked up, where it has one.
fn find_wanted(terms: &[Term], index: &HashIndex, wanted: &Wanted<'_>) -> Option<u32>
    requires apart { IsDistinct (eq_by_cmp term_cmp) terms.now }
    requires is { AreStanding terms.now (length terms.now) index.now.slots.items index.now.places.elements }
    ensures { result ≡ number_of_term terms.now (wanted_term wanted.now) }
{
    find(terms, index, wanted.hash(), wanted)
}

// The number of what is looked up, which gets one where it has none.
fn give_wanted(
    terms: &mut Vec<Term>,
    hashes: &mut Vec<u32>,
    index: &mut HashIndex,
    wanted: &Wanted<'_>,
) -> Result<u32, AllocError>
    requires { IsTermTable terms.old.items hashes.old.items index.old.slots.items index.old.places.elements }
    ensures is { IsTermTable terms.new.items hashes.new.items index.new.slots.items index.new.places.elements }
    ensures number { IfOk result (λ number. number_of_term terms.new.items (wanted_term wanted.now) ≡ Some number) }
    ensures ok { OnOk result (terms.new.items ≡ with_new_value (eq_by_cmp term_cmp) terms.old.items (wanted_term wanted.now)) }
    ensures err { OnErr result (terms.new.items ≡ terms.old.items) }
{
    let hash = wanted.hash();
    match find(terms, index, hash, wanted) {
        Some(number) => Ok(number),
        None => add(terms, hashes, index, hash, wanted.share()?),
    }
}

// The number of a term that has none yet: the next one.
fn add(
    terms: &mut Vec<Term>,
    hashes: &mut Vec<u32>,
    index: &mut HashIndex,
    hash: u32,
    term: Term,
) -> Result<u32, AllocError>
    requires is { IsTermTable terms.old.items hashes.old.items index.old.slots.items index.old.places.elements }
    requires hash { hash ≡ term_hash term }
    requires absent { number_of_term terms.old.items term ≡ None }
    ensures is { IsTermTable terms.new.items hashes.new.items index.new.slots.items index.new.places.elements }
    ensures number { IfOk result (λ number. number_of_term terms.new.items term ≡ Some number) }
    ensures ok { OnOk result (terms.new.items ≡ terms.old.items ++ term ∷ []) }
    ensures err { OnErr result (terms.new.items ≡ terms.old.items) }
{
    let count = terms.len();
    if count >= TERMS_LIMIT {
        return Err(AllocError);
    }
    let alloc = *terms.allocator();
    grow(alloc, terms, hashes, index)?;
    terms.reserve(1)?;
    hashes.reserve(1)?;
    make_place(alloc, index, hash)?;
    let number = count as u32;
    terms.push_reserved(term);
    hashes.push_reserved(hash);
    put(index, terms, hash, number);
    Ok(number)
}
