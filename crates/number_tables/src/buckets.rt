//! Buckets: the slots of a table of hashes, eight neighbouring ones for each.
ghost use Rattle.std.specs.Prelude.{◌≡◌, ◌*◌, ◌≤◌, ℕ, IfNone, IfSome, IsTrue, length};
ghost use Rattle.number_tables.specs.HashBuckets.{bucket_of, HasSlot, IsFull, IsVacancy};
ghost use Rattle.number_tables.specs.HashedTerms.{wanted_term};
ghost use Rattle.number_tables.specs.TermFinding.{FindsTerm};

use crate::hashed::{HashedNumber, Wanted};
use rdf_terms::Term;

// The number of a slot where no term's number stands.
const VACANT: u32 = 4_294_967_295;

/// A slot where no number stands.
pub(crate) fn vacant_slot() -> HashedNumber {
    HashedNumber {
        hash: 0,
        number: VACANT,
    }
}

// Where the bucket of a hash begins, among so many slots.
fn bucket_start(slots: usize, hash: u32) -> usize
    ensures start { result ≡ 8 * bucket_of slots hash }
    ensures within { result ≤ slots }
{
    let last = (slots / 8).saturating_sub(1);
    (hash as usize & last) * 8
}

/// The number of a term that is looked up, where it stands in the bucket of its hash. Texts are looked at only where the hash is the same.
pub(crate) fn find_in_bucket(
    terms: &[Term],
    slots: &[HashedNumber],
    hash: u32,
    wanted: &Wanted<'_>,
) -> Option<u32>
    ensures { FindsTerm terms.now (wanted_term wanted.now) (HasSlot slots.now hash) result }
{
    let start = bucket_start(slots.len(), hash);
    let end = slots.len().min(start + 8);
    for place in start..end {
        let slot = slots[place];
        if slot.hash == hash && wanted.is_at(terms, slot.number) {
            return Some(slot.number);
        }
    }
    None
}

/// A place in the bucket of a hash where no number stands.
pub(crate) fn vacancy(slots: &[HashedNumber], hash: u32) -> Option<usize>
    ensures some { IfSome result (IsVacancy slots.now hash) }
    ensures none { IfNone result (IsFull slots.now hash) }
{
    let start = bucket_start(slots.len(), hash);
    let end = slots.len().min(start + 8);
    for place in start..end {
        if slots[place].number == VACANT {
            return Some(place);
        }
    }
    None
}

/// Whether the bucket of a hash has room. It looks at the last slot alone, since a bucket is filled from its front.
pub(crate) fn is_open(slots: &[HashedNumber], hash: u32) -> bool
    ensures { IsTrue result → (place : ℕ) × IsVacancy slots.now hash place }
{
    let start = bucket_start(slots.len(), hash);
    match slots.get(start + 7) {
        Some(slot) => slot.number == VACANT,
        None => false,
    }
}
