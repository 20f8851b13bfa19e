//! Sets of pairs, changed and joined.
use crate::made::{clock, has_just, have_dots, left, pair, pairs, right, set};
use mld_ops::{Cut, Tags};
use std::alloc::Global;
use std::test::Fail;
use suset::TaggedSet;
use tree_clock::{Dot, Range};

// One side of a join: what it knows, and the pairs that it has.
#[derive(Clone, Copy)]
struct State<'a> {
    known: &'a [Dot],
    rows: &'a [(&'a str, Dot)],
}

// Whether the join of two states has just the pairs of these dots.
fn join_to(alloc: Global, mine: State, other: State, dots: &[Dot]) -> Result<bool, Fail> {
    let own = Box::new(alloc, clock(alloc, mine.known)?)?;
    let theirs = Box::new(alloc, clock(alloc, other.known)?)?;
    let list = Box::new(alloc, pairs(alloc, other.rows)?)?;
    let set = Box::new(alloc, set(alloc, mine.rows)?)?;
    let joined = Box::new(alloc, set.join(alloc, &own, &list, &theirs)?)?;
    has_just(alloc, &joined, dots)
}

// Both have t. Each has a pair that the other doesn't know, v and w, and one that the other knows and lacks, u and x.
#[test]
fn a_join_has_what_both_sides_leave(rt: HostRuntime) -> Result<(), Fail> {
    let mine = State {
        known: &[left(3), right(1)],
        rows: &[("t", left(1)), ("u", right(1)), ("v", left(3))],
    };
    let other = State {
        known: &[left(2), right(2)],
        rows: &[("t", left(1)), ("w", right(2)), ("x", left(2))],
    };
    assert!(rt; join_to(rt.alloc(), mine, other, &[left(1), left(3), right(2)])?);
    Ok(())
}

// Whether a set has a pair; the trait's call tells the same.
fn has(alloc: Global, set: &TaggedSet, subject: &str, dot: Dot) -> Result<bool, Fail> {
    let wanted = pair(alloc, subject, &dot)?;
    Ok(set.contains(&wanted) && set.has(&wanted))
}

// Whether the pairs of the left leaf's ticks from 2 to 3 are those of this dot.
fn has_of_range(alloc: Global, set: &TaggedSet, dot: Dot) -> Result<bool, Fail> {
    let range = Range {
        path: dot.path,
        first: 2,
        last: 3,
    };
    let found = set.of_range(alloc, &range)?;
    Ok(have_dots(&found, &[dot]))
}

// Drops two pairs, one of which isn't there, and adds two, one of which is dropped and one in front.
fn change(alloc: Global, set: &mut TaggedSet) -> Result<(), Fail> {
    let drops = pairs(alloc, &[("a", left(1)), ("t", left(1)), ("v", left(2))])?;
    let adds = pairs(alloc, &[("a", right(2)), ("v", left(2))])?;
    Ok(set.apply(alloc, Cut { drops, adds })?)
}

#[test]
fn a_set_is_asked_and_changed(rt: HostRuntime) -> Result<(), Fail> {
    let alloc = rt.alloc();
    let rows = [("t", left(1)), ("u", right(1)), ("v", left(2))];
    let mut set = Box::new(alloc, set(alloc, &rows)?)?;
    assert!(rt; has(alloc, &set, "u", right(1))? && !has(alloc, &set, "u", right(2))?);
    assert!(rt; has_of_range(alloc, &set, left(2))?);
    change(alloc, &mut set)?;
    assert!(rt; has_just(alloc, &set, &[right(2), right(1), left(2)])?);
    let list = Box::new(alloc, Box::into_inner(set).into_list())?;
    assert!(rt; list.len() == 3);
    Ok(())
}
