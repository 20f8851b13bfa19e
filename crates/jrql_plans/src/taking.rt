//! Which pattern is matched next, and what is wholly bound then.
ghost use Rattle.std.specs.Prelude.{◌≡◌, ◌<◌, [], length, IfOk, IfNone, IfSome};
ghost use Rattle.std.specs.List.{list_any};
ghost use Rattle.jrql_plans.specs.Planning.{has_more, is_closed, is_whole, places_bound, IsFirstMost, AreSortedOut};

use crate::marks::{is_closed, is_whole, places_bound};
use jrql_ast::{Filter, PatternTriple, Sequence};
use std::alloc::{AllocError, Global};

/// Takes out the patterns of which all places are bound.
pub(crate) fn take_whole<'a>(
    alloc: Global,
    left: &mut Vec<&'a PatternTriple>,
    bound: &[bool],
) -> Result<Vec<&'a PatternTriple>, AllocError>
    ensures { IfOk result (λ whole. AreSortedOut (λ pattern. is_whole bound.now pattern.now) left.old.items whole.items left.new.items) }
{
    let mut whole = Vec::new(alloc);
    let mut others = Vec::new(alloc);
    for pattern in left.as_slice() {
        if is_whole(pattern, bound) {
            whole.push(*pattern)?;
        } else {
            others.push(*pattern)?;
        }
    }
    *left = others;
    Ok(whole)
}

/// Takes out the filters of which both sides are bound.
pub(crate) fn take_closed<'a>(
    alloc: Global,
    open: &mut Vec<&'a Filter>,
    bound: &[bool],
) -> Result<Vec<&'a Filter>, AllocError>
    ensures { IfOk result (λ closed. AreSortedOut (λ test. is_closed bound.now test.now) open.old.items closed.items open.new.items) }
{
    let mut closed = Vec::new(alloc);
    let mut others = Vec::new(alloc);
    for test in open.as_slice() {
        if is_closed(test, bound) {
            closed.push(*test)?;
        } else {
            others.push(*test)?;
        }
    }
    *open = others;
    Ok(closed)
}

// The place of the first pattern with the most bound places.
fn best_place(left: &[&PatternTriple], bound: &[bool]) -> usize
    requires { 0 < length left.now }
    ensures { IsFirstMost (λ pattern. places_bound bound.now pattern.now) left.now result }
{
    let mut best = 0;
    let mut most = 0;
    for (place, pattern) in left.iter().enumerate() {
        let places = places_bound(pattern, bound);
        if places > most {
            best = place;
            most = places;
        }
    }
    best
}

// Whether a pattern has more bound places than so many.
fn has_more(pattern: &PatternTriple, places: u8, bound: &[bool]) -> bool
    ensures { result ≡ has_more bound.now places pattern.now }
{
    places_bound(pattern, bound) > places
}

// Whether one of these patterns has more bound places than so many.
fn is_outdone(patterns: &[PatternTriple], places: u8, bound: &[bool]) -> bool
    ensures { result ≡ list_any (has_more bound.now places) patterns.now }
{
    for pattern in patterns {
        if has_more(pattern, places, bound) {
            return true;
        }
    }
    false
}

// Whether a pattern of one of these branches has.
fn is_outdone_by(branches: &[Sequence<PatternTriple>], places: u8, bound: &[bool]) -> bool
    ensures { result ≡ list_any (list_any (has_more bound.now places)) branches.now }
{
    for branch in branches {
        if is_outdone(branch.as_slice(), places, bound) {
            return true;
        }
    }
    false
}

/// The place of the first pattern with the most bound places, but where no pattern is left, or one of a branch has more.
pub(crate) fn next_place(
    left: &[&PatternTriple],
    branches: &[Sequence<PatternTriple>],
    bound: &[bool],
) -> Option<usize>
    ensures some { IfSome result (IsFirstMost (λ pattern. places_bound bound.now pattern.now) left.now) }
    ensures none { IfNone result (branches.now ≡ [] → left.now ≡ []) }
{
    if left.is_empty() {
        return None;
    }
    let place = best_place(left, bound);
    let places = places_bound(left[place], bound);
    if is_outdone_by(branches, places, bound) {
        return None;
    }
    Some(place)
}
