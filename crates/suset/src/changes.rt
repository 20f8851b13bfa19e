//! An ascending list of pairs changed by a cut, by one walk over the list and the cut.
ghost use Rattle.std.specs.Prelude.{◌≡◌, ◌<◌, ◌≤◌, ◌+◌, ◌++◌, ◌∷◌, [], IsTrue, IfSome, IfNone, IsSome, OnOk, OnErr, length, vec_len, vec_capacity};
ghost use Rattle.std.specs.declared.cmp.Ordering.TheVariants.{Less};
ghost use Rattle.mld_ops.specs.Applies.{Applies};
ghost use Rattle.mld_ops.specs.Tagged.{tagged_cmp};
ghost use Rattle.suset.specs.Walks.{IsAddStep, fronts_cmp};
ghost use Rattle.tree_clock.specs.Lists.{IsAscending};

use mld_ops::{Cut, Tagged, skip_below, stands_at};
use std::alloc::{AllocError, Global};
use std::cmp::Ordering;
use std::collections::VecDeque;
use std::mem;

/// Makes a list lose the pairs that a cut drops, and then gain those that it adds. Where memory is wanting, nothing changes.
pub(crate) fn apply_to(alloc: Global, pairs: &mut Vec<Tagged>, cut: Cut) -> Result<(), AllocError>
    requires pairs { IsAscending tagged_cmp pairs.old.items }
    requires drops { IsAscending tagged_cmp cut.drops.items }
    requires adds { IsAscending tagged_cmp cut.adds.items }
    ensures ok { OnOk result (Applies cut.drops.items cut.adds.items pairs.old.items pairs.new.items) }
    ensures err { OnErr result (pairs.new.items ≡ pairs.old.items) }
{
    let room = Vec::with_capacity(alloc, pairs.len() + cut.adds.len())?;
    let old = mem::replace(pairs, room);
    fill(pairs, old, cut);
    Ok(())
}

// Puts the old pairs but for the dropped ones, and the added ones, into the room that was made for them.
fn fill(room: &mut Vec<Tagged>, old: Vec<Tagged>, cut: Cut)
    requires empty { room.old.items ≡ [] }
    requires capacity { vec_len old + vec_len cut.adds ≤ vec_capacity room.old }
    requires old { IsAscending tagged_cmp old.items }
    requires drops { IsAscending tagged_cmp cut.drops.items }
    requires adds { IsAscending tagged_cmp cut.adds.items }
    ensures { Applies cut.drops.items cut.adds.items old.items room.new.items }
{
    let Cut { drops, adds } = cut;
    let mut old = VecDeque::from_vec(old);
    let mut adds = VecDeque::from_vec(adds);
    let mut place = 0;
    while let Some((pair, added)) = take_least(&mut old, &mut adds) {
        place = skip_below(&drops, place, &pair);
        let dropped = stands_at(&drops, place, &pair);
        push_staying(room, pair, added || !dropped);
    }
}

// Puts a pair behind the others where it stays.
fn push_staying(pairs: &mut Vec<Tagged>, pair: Tagged, stays: bool)
    requires { vec_len pairs.old < vec_capacity pairs.old }
    ensures stays { IsTrue stays → pairs.new.items ≡ pairs.old.items ++ pair ∷ [] }
    ensures goes { ¬ IsTrue stays → pairs.new.items ≡ pairs.old.items }
    ensures len { vec_len pairs.new ≤ vec_len pairs.old + 1 }
    ensures capacity { vec_capacity pairs.new ≡ vec_capacity pairs.old }
{
    if stays {
        pairs.push_reserved(pair);
    }
}

// Takes the least pair out of both lists, and tells whether it was an added one.
fn take_least(old: &mut VecDeque<Tagged>, adds: &mut VecDeque<Tagged>) -> Option<(Tagged, bool)>
    requires old { IsAscending tagged_cmp old.old.items }
    requires adds { IsAscending tagged_cmp adds.old.items }
    ensures some { IfSome result
        (λ next. IsAddStep old.old.items adds.old.items next.0 next.1 old.new.items adds.new.items) }
    ensures none { IfNone result ((old.old.items ≡ []) × (adds.old.items ≡ [])) }
    ensures fewer { IsSome result
        → length old.new.items + length adds.new.items < length old.old.items + length adds.old.items }
{
    match cmp_fronts(old, adds) {
        Ordering::Less => Some((old.pop_front()?, false)),
        Ordering::Greater => Some((adds.pop_front()?, true)),
        Ordering::Equal => {
            old.pop_front();
            Some((adds.pop_front()?, true))
        }
    }
}

// Which of the lists begins with the lesser pair.
fn cmp_fronts(old: &VecDeque<Tagged>, adds: &VecDeque<Tagged>) -> Ordering
    ensures { result ≡ fronts_cmp old.now.items adds.now.items }
{
    match (old.front(), adds.front()) {
        (Some(pair), Some(other)) => pair.cmp(other),
        (Some(_), None) => Ordering::Less,
        (None, _) => Ordering::Greater,
    }
}
