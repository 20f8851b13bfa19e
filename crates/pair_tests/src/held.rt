//! Entries that are held back, and released.
use crate::entries::{Row, clock, entry, range};
use crate::made::boxed;
use causal_buffer::{Held, HeldFault, Kept};
use mld_ops::HELD_LIMIT;
use std::alloc::{AllocError, Global};
use std::test::Fail;
use tree_clock::{Clock, Range};

// What comes of an entry of the range that is to be held.
fn hold(alloc: Global, held: &mut Held, range: Range) -> Result<Result<Kept, HeldFault>, Fail> {
    let row = Row {
        first: range.first,
        last: range.last,
        deletes: &[],
        inserts: &[],
    };
    let entry = entry(alloc, &row)?;
    Ok(held.add(alloc, &entry))
}

// Whether these ranges are held, in this order.
fn has_just(alloc: Global, held: &Held, ranges: &[Range]) -> Result<bool, AllocError> {
    let found = held.ranges(alloc)?;
    Ok(found.as_slice() == ranges)
}

// Takes out what is ready where the dots of a clock are known; the range of that.
fn take_by(held: &mut Held, known: &Clock) -> Option<Range> {
    if held.is_settled(known) {
        return None;
    }
    let entry = held.take_ready(known)?;
    Some(entry.range())
}

// Takes out what is ready where the ticks up to this one are known; the range of that.
fn take(alloc: Global, held: &mut Held, tick: u32) -> Result<Option<Range>, AllocError> {
    let known = clock(alloc, tick)?;
    Ok(take_by(held, &known))
}

// Leaves out what is known where the ticks up to this one are.
fn drop_known(alloc: Global, held: &mut Held, tick: u32) -> Result<(), AllocError> {
    let known = clock(alloc, tick)?;
    held.drop_known(&known);
    Ok(())
}

// Whether an entry of the ticks from `first` to `last` is held anew.
fn is_added(alloc: Global, held: &mut Held, first: u32, last: u32) -> Result<bool, Fail> {
    Ok(matches!(hold(alloc, held, range(first, last))?, Ok(Kept::Added)))
}

// Whether three entries are held in the order in which they come.
fn all_wait(alloc: Global, held: &mut Held) -> Result<bool, Fail> {
    Ok(
        held.is_empty()
            && is_added(alloc, held, 5, 6)?
            && is_added(alloc, held, 2, 4)?
            && is_added(alloc, held, 2, 3)?
            && held.len() == 3
            && has_just(alloc, held, &[range(5, 6), range(2, 4), range(2, 3)])?,
    )
}

// Whether the first ready one is taken, and one is left where known ones are left out.
fn one_is_left(alloc: Global, held: &mut Held) -> Result<bool, Fail> {
    let taken = take(alloc, held, 1)? == Some(range(2, 4));
    drop_known(alloc, held, 3)?;
    Ok(taken && has_just(alloc, held, &[range(5, 6)])?)
}

#[test]
fn entries_wait_in_order_of_arrival(rt: HostRuntime) -> Result<(), Fail> {
    let alloc = rt.alloc();
    let mut held = boxed(alloc, Held::empty(alloc))?;
    assert!(rt; all_wait(alloc, &mut held)?);
    assert!(rt; one_is_left(alloc, &mut held)?);
    Ok(())
}

// Whether one more is refused, and one that is held is still told so.
fn is_full(alloc: Global, held: &mut Held) -> Result<bool, Fail> {
    let refused = matches!(hold(alloc, held, range(1, 2))?, Err(HeldFault::Full));
    let again = matches!(hold(alloc, held, range(7, 7))?, Ok(Kept::Already));
    Ok(refused && again && held.len() == 4_096)
}

// Whether as many entries of one tick each as may be are all held, and no more.
fn fills_up(alloc: Global, held: &mut Held) -> Result<bool, Fail> {
    for tick in 1..=4_096 {
        if !is_added(alloc, held, tick, tick)? {
            return Ok(false);
        }
    }
    Ok(held.len() == 4_096 && HELD_LIMIT == 4_096 && is_full(alloc, held)?)
}

#[test]
fn no_more_than_the_limit_are_held(rt: HostRuntime) -> Result<(), Fail> {
    let alloc = rt.alloc();
    let mut held = boxed(alloc, Held::empty(alloc))?;
    assert!(rt; fills_up(alloc, &mut held)?);
    Ok(())
}
