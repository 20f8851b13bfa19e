//! The places of keys that begin with given numbers.
ghost use Rattle.std.specs.Prelude.{◌≡◌, ◌≤◌, length, get_or};
ghost use Rattle.std.specs.Cmp.Lexicographic.{slice_cmp};
ghost use Rattle.std.specs.Ordering.{nat_cmp};
ghost use Rattle.pair_orders.specs.KeyFronts.{key_front_cmp};

use crate::keys::RankedKey;
use chunked_list::{Bound, numbers_hint};
use std::cmp::Ordering;

/// As many numbers of a key as there are in front, against these.
pub(crate) fn compare_front(front: &[u32], key: &RankedKey) -> Ordering
    ensures { result ≡ key_front_cmp front.now key.now }
{
    let ranks = [
        key.first, key.second, key.third, key.fourth, key.fifth, key.slot,
    ];
    let end = front.len().min(ranks.len());
    compare_numbers(&ranks[..end], front)
}

// How two lists of few numbers compare, up to the first that differ. The second isn't the shorter one.
fn compare_numbers(a: &[u32], b: &[u32]) -> Ordering
    requires { length a.now ≤ length b.now }
    ensures { result ≡ slice_cmp nat_cmp a.now b.now }
{
    for i in 0..a.len() {
        let found = a[i].cmp(&b[i]);
        if found.is_ne() {
            return found;
        }
    }
    let shorter = a.len() < b.len();
    if shorter {
        return Ordering::Less;
    }
    Ordering::Equal
}

// One of the first numbers; 0 where there is none.
fn number_at(front: &[u32], place: usize) -> u32
    ensures { result ≡ get_or front.now place 0 }
{
    if place < front.len() { front[place] } else { 0 }
}

/// The place of the keys that begin with these numbers.
#[derive(Drop)]
pub(crate) struct BeforeFront<'a> {
    pub(crate) front: &'a [u32],
}

impl<'a> Bound<RankedKey> for BeforeFront<'a> {
    ghost use Rattle.pair_orders.specs.KeyFronts.{is_before_front, front_text, front_below, front_above};

    ghost before = { λ place key. is_before_front place.front.now key };

    ghost key = { λ place. front_text place.front.now };

    fn is_before(&self, key: &RankedKey) -> bool {
        compare_front(self.front, key).is_lt()
    }

    fn shared(&self, _key: &RankedKey) -> usize {
        0
    }

    fn hint(&self, place: usize) -> u64 {
        numbers_hint(number_at(self.front, 0), number_at(self.front, 1), place)
    }

    ghost below = { λ place key less. front_below place.front.now key less };

    ghost above = { λ place key more. front_above place.front.now key more };
}

/// The place behind the keys that begin with two numbers.
#[derive(Drop)]
pub(crate) struct BehindTwo {
    pub(crate) first: u32,
    pub(crate) second: u32,
}

impl Bound<RankedKey> for BehindTwo {
    ghost use Rattle.std.specs.Prelude.{[], ◌∷◌};
    ghost use Rattle.chunked_list.specs.NumberTexts.{numbers_text};
    ghost use Rattle.pair_orders.specs.KeyFronts.{is_up_to_front, two_below, two_above};

    ghost before = { λ place key. is_up_to_front (place.first ∷ place.second ∷ []) key };

    ghost key = { λ place. numbers_text place.first place.second };

    fn is_before(&self, key: &RankedKey) -> bool {
        compare_front(&[self.first, self.second], key).is_le()
    }

    fn shared(&self, _key: &RankedKey) -> usize {
        0
    }

    fn hint(&self, place: usize) -> u64 {
        numbers_hint(self.first, self.second, place)
    }

    ghost below = { λ place key less. two_below place.first place.second key less };

    ghost above = { λ place key more. two_above place.first place.second key more };
}
