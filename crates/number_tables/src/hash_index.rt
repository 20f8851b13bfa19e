//! Where the numbers of terms stand, by the terms' hashes.
ghost use Rattle.std.specs.Prelude.{◌≡◌, ◌+◌, ◌^◌, ◌<◌, ℕ, Some, IfOk, OnOk, length, map};
ghost use Rattle.std.specs.List.{slice_get, IsDistinct};
ghost use Rattle.std.specs.Ordering.{eq_by_cmp};
ghost use Rattle.rdf_terms.specs.declared.terms.Term.{Term};
ghost use Rattle.rdf_terms.specs.Order.{term_cmp};
ghost use Rattle.tree_clock.specs.Lists.{Has, IsAscending};
ghost use Rattle.number_tables.specs.HashBuckets.{AreStanding, IsFull};
ghost use Rattle.number_tables.specs.HashedTerms.{hashed_cmp, term_hash, wanted_term};
ghost use Rattle.number_tables.specs.TableNumbers.{number_of_term};
ghost use Rattle.number_tables.specs.TermFinding.{FindsTerm};

use crate::buckets::{find_in_bucket, is_open, vacancy, vacant_slot};
use crate::hashed::{HashedNumber, Wanted};
use crate::sought::{ByHash, Sought};
use chunked_list::Chunked;
use rdf_terms::Term;
use std::alloc::{AllocError, Global};

// Where there are more than four terms for each bucket of eight slots, the number of buckets is doubled.
const SLOTS_PER_TERM: usize = 2;

// So many slots there are at first.
const FIRST_SLOTS: usize = 8;

/// Where numbers stand: in the bucket of the term's hash, or, where that has no room, in order of the hashes.
#[derive(Drop)]
pub(crate) struct HashIndex {
    pub(crate) slots: Vec<HashedNumber>,
    pub(crate) places: Chunked<HashedNumber>,
}

/// The number of a term, where it has one.
pub(crate) fn find(terms: &[Term], index: &HashIndex, hash: u32, wanted: &Wanted<'_>) -> Option<u32>
    requires apart { IsDistinct (eq_by_cmp term_cmp) terms.now }
    requires is { AreStanding terms.now (length terms.now) index.now.slots.items index.now.places.elements }
    requires hash { hash ≡ term_hash (wanted_term wanted.now) }
    ensures { result ≡ number_of_term terms.now (wanted_term wanted.now) }
{
    if let Some(number) = find_in_bucket(terms, &index.slots, hash, wanted) {
        return Some(number);
    }
    if is_open(&index.slots, hash) {
        return None;
    }
    find_in_order(terms, &index.places, hash, wanted)
}

// The number of a term that is looked up, where it stands in order.
fn find_in_order(
    terms: &[Term],
    places: &Chunked<HashedNumber>,
    hash: u32,
    wanted: &Wanted<'_>,
) -> Option<u32>
    requires { IsAscending (hashed_cmp terms.now) places.now.elements }
    ensures { FindsTerm terms.now (wanted_term wanted.now)
        (λ number. Has places.now.elements (record { hash = hash; number = number })) result }
{
    let place = places.first_from(&Sought {
        terms,
        hash,
        wanted,
    })?;
    if wanted.is_at(terms, place.number) {
        return Some(place.number);
    }
    None
}

/// Makes room for a number of a hash.
pub(crate) fn make_place(alloc: Global, index: &mut HashIndex, hash: u32) -> Result<(), AllocError>
    ensures slots { index.new.slots.items ≡ index.old.slots.items }
    ensures places { index.new.places.elements ≡ index.old.places.elements }
    ensures room { OnOk result (IsFull index.new.slots.items hash → 0 < index.new.places.room) }
{
    if is_open(&index.slots, hash) {
        return Ok(());
    }
    index.places.prepare(alloc, 1)
}

/// Puts the next number where it belongs.
pub(crate) fn put(index: &mut HashIndex, terms: &[Term], hash: u32, number: u32)
    requires is { AreStanding terms.now number index.old.slots.items index.old.places.elements }
    requires term { (term : Term) × (slice_get terms.now number ≡ Some term) × (hash ≡ term_hash term) }
    requires few { number < 4294967295 }
    requires room { IsFull index.old.slots.items hash → 0 < index.old.places.room }
    ensures { AreStanding terms.now (number + 1) index.new.slots.items index.new.places.elements }
{
    match vacancy(&index.slots, hash) {
        Some(place) => index.slots[place] = HashedNumber { hash, number },
        None => index
            .places
            .insert(&ByHash { terms }, HashedNumber { hash, number }),
    }
}

/// Makes the buckets anew where there are too few of them for one term more.
pub(crate) fn grow(
    alloc: Global,
    terms: &[Term],
    hashes: &[u32],
    index: &mut HashIndex,
) -> Result<(), AllocError>
    requires few { length terms.now < 2 ^ 32 }
    requires hashed { hashes.now ≡ map term_hash terms.now }
    requires is { AreStanding terms.now (length terms.now) index.old.slots.items index.old.places.elements }
    ensures { AreStanding terms.now (length terms.now) index.new.slots.items index.new.places.elements }
{
    let count = index.slots.len();
    if terms.len() >= count / SLOTS_PER_TERM {
        let more = count.saturating_mul(2).max(FIRST_SLOTS);
        *index = made_anew(alloc, terms, hashes, more)?;
    }
    Ok(())
}

// The numbers of these terms, put where they belong among so many slots.
fn made_anew(
    alloc: Global,
    terms: &[Term],
    hashes: &[u32],
    slots: usize,
) -> Result<HashIndex, AllocError>
    requires few { length terms.now < 2 ^ 32 }
    requires hashed { hashes.now ≡ map term_hash terms.now }
    ensures { IfOk result (λ index. AreStanding terms.now (length terms.now) index.slots.items index.places.elements) }
{
    let mut index = HashIndex {
        slots: vec![in alloc; vacant_slot(); slots]?,
        places: Chunked::new(alloc),
    };
    for (number, hash) in hashes.iter().enumerate() {
        make_place(alloc, &mut index, *hash)?;
        put(&mut index, terms, *hash, number as u32);
    }
    Ok(index)
}
