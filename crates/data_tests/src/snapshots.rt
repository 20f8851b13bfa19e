//! Snapshots, made and joined.
ghost use Rattle.std.specs.Prelude.{IfOk};
ghost use Rattle.mld_ops.specs.Messages.{snapshot_value, IsGoodSnapshot};
ghost use Rattle.tree_clock.specs.Clock.{Covers};

use crate::made::{clock, has_just, have_dots, left, pair, right, set};
use mld_ops::{Snapshot, Tagged};
use std::alloc::{AllocError, Global};
use std::test::Fail;
use suset::{TaggedSet, join, of_state};
use tree_clock::Clock;

// The snapshot of one who knows the dots of a clock, and has a pair.
fn of_one(alloc: Global, clock: &Clock, pair: &Tagged) -> Result<Snapshot, AllocError>
    requires { Covers clock.now.ticks pair.now.dot }
    ensures { IfOk result (λ snapshot. IsGoodSnapshot (snapshot_value snapshot)) }
{
    let mut list = Vec::new(alloc);
    list.push(pair.share()?)?;
    of_state(alloc, clock, list)
}

// Joins a state of two pairs with a snapshot.
fn join_with(alloc: Global, snapshot: &Snapshot) -> Result<(Clock, TaggedSet), Fail>
    requires { IsGoodSnapshot (snapshot_value snapshot.now) }
{
    let known = Box::new(alloc, clock(alloc, &[left(1), right(1)])?)?;
    let set = Box::new(alloc, set(alloc, &[("t", left(1)), ("u", right(1))])?)?;
    Ok(join(alloc, &known, &set, snapshot)?)
}

#[test]
fn a_join_has_the_ticks_of_both_and_what_the_snapshot_brings(rt: HostRuntime) -> Result<(), Fail> {
    let alloc = rt.alloc();
    let known = Box::new(alloc, clock(alloc, &[left(4)])?)?;
    let pair = Box::new(alloc, pair(alloc, "w", &left(4))?)?;
    assert!(rt; known.covers(&pair.dot));
    let snapshot = Box::new(alloc, of_one(alloc, &known, &pair)?)?;
    let kept = Box::new(alloc, snapshot.tagged.to_list(alloc)?)?;
    assert!(rt; have_dots(&kept, &[left(4)]));
    let joined = Box::new(alloc, join_with(alloc, &snapshot)?)?;
    assert!(rt; joined.0.ticks(&left(1).path) == 4 && joined.0.ticks(&right(1).path) == 1);
    assert!(rt; has_just(alloc, &joined.1, &[right(1), left(4)])?);
    Ok(())
}
