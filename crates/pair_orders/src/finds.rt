//! Keys that begin with given numbers.
ghost use Rattle.std.specs.Prelude.{◌≡◌, ◌↔◌, ℕ, IfSome, IfNone, IsTrue};
ghost use Rattle.tree_clock.specs.Lists.{Has, IsAscending};
ghost use Rattle.pair_orders.specs.KeyFronts.{HasFront};
ghost use Rattle.pair_orders.specs.Keys.{slotted_key, ranked_cmp};
ghost use Rattle.pair_orders.specs.KeptPairs.{AreLists, dots_in};
ghost use Rattle.pair_orders.specs.declared.keys.Key.{Key};
ghost use Rattle.pair_orders.specs.declared.keys.RankedKey.{RankedKey};

use crate::fronts::{BeforeFront, compare_front};
use crate::keys::{Numbers, RankedKey, Shape};
use crate::lists::{Lists, by_dot, keys_in};
use chunked_list::Chunked;

// The first key that begins with these numbers.
fn first_with<'a>(keys: &'a Chunked<RankedKey>, front: &[u32]) -> Option<&'a RankedKey>
    requires { IsAscending ranked_cmp keys.now.elements }
    ensures some { IfSome result (λ key. Has keys.now.elements key.now × HasFront front.now key.now) }
    ensures none { IfNone result ((key : RankedKey) → Has keys.now.elements key → ¬ HasFront front.now key) }
{
    let first = keys.first_from(&BeforeFront { front })?;
    if compare_front(front, first).is_eq() {
        return Some(first);
    }
    None
}

/// The slot of the key that has these numbers, by dot.
pub(crate) fn find_slot(lists: &Lists, numbers: &Numbers) -> Option<u32>
    requires { AreLists lists.now }
    ensures some { IfSome result (λ slot. Has (dots_in lists.now) (slotted_key numbers.now slot)) }
    ensures none { IfNone result ((slot : ℕ) → ¬ Has (dots_in lists.now) (slotted_key numbers.now slot)) }
{
    let front = [numbers.path, numbers.tick, numbers.s, numbers.p, numbers.o];
    let first = first_with(by_dot(lists), &front)?;
    Some(first.slot)
}

/// Whether a key has these numbers of terms.
pub(crate) fn has_terms(lists: &Lists, s: u32, p: u32, o: u32) -> bool
    requires { AreLists lists.now }
    ensures { IsTrue result ↔ ((key : Key) × Has (dots_in lists.now) key × (key.s ≡ s) × (key.p ≡ p) × (key.o ≡ o)) }
{
    let front = [s, p, o];
    first_with(keys_in(lists, Shape::Subject), &front).is_some()
}
