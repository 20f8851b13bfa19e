//! Clocks that are raised, merged and compared, and their own paths.
use crate::made::{clock, left, right};
use std::alloc::{AllocError, Global};
use std::test::Fail;
use tree_clock::{Clock, Dot, Path};

// A tick of the root.
fn root(tick: u32) -> Dot {
    let path = Path::root();
    Dot { path, tick }
}

// Whether a clock has just the root's first tick, four of the left leaf and three of the right one.
fn has_both(alloc: Global, clock: &Clock) -> Result<bool, AllocError> {
    let list = Box::new(alloc, clock.to_list(alloc)?)?;
    let wanted = [(Path::root(), 1), (left(4).path, 4), (right(3).path, 3)];
    Ok(list.as_slice() == wanted.as_slice())
}

// Whether a clock has four ticks of the left leaf.
fn has_four(clock: &Clock) -> bool {
    clock.ticks(&left(4).path) == 4 && clock.covers(&left(4)) && !clock.covers(&left(5))
}

// Whether `here` is at most `both`, and at most `there` but for one of two paths.
fn are_compared(here: &Clock, there: &Clock, both: &Clock) -> bool {
    here.leq(both)
        && !here.leq(there)
        && !here.leq_elsewhere(there, &left(1).path)
        && there.leq_elsewhere(here, &right(1).path)
}

#[test]
fn clocks_are_raised_merged_and_compared(rt: HostRuntime) -> Result<(), Fail> {
    let alloc = rt.alloc();
    let here = Box::new(alloc, clock(alloc, &[root(1), left(4)])?)?;
    let there = Box::new(alloc, clock(alloc, &[left(2), right(3)])?)?;
    let mut both = Box::new(alloc, here.copy_in(alloc)?)?;
    both.merge(&there)?;
    assert!(rt; has_both(alloc, &both)? && has_four(&both));
    assert!(rt; are_compared(&here, &there, &both));
    Ok(())
}

// Makes a path with ticks the own one of a clock; whether it has ticks.
fn makes_own(clock: &mut Clock, path: &Path) -> bool {
    if clock.ticks(path) == 0 {
        return false;
    }
    clock.set_own(path);
    true
}

// Whether a clock's own path is that of a dot, and the dot its last one.
fn has_own(clock: &Clock, last: &Dot) -> bool {
    match clock.own() {
        Some(own) => own == *last,
        None => false,
    }
}

#[test]
fn a_clock_has_an_own_path(rt: HostRuntime) -> Result<(), Fail> {
    let alloc = rt.alloc();
    let mut here = Box::new(alloc, clock(alloc, &[root(1), left(4)])?)?;
    assert!(rt; here.own().is_none() && !makes_own(&mut here, &right(1).path));
    assert!(rt; makes_own(&mut here, &left(4).path) && has_own(&here, &left(4)));
    let copy = Box::new(alloc, here.copy_in(alloc)?)?;
    assert!(rt; makes_own(&mut here, &root(1).path) && has_own(&here, &root(1)));
    assert!(rt; has_own(&copy, &left(4)));
    Ok(())
}
