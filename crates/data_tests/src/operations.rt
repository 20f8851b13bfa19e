//! What operations mean, pairs that are taken out of a list, and lists of messages.
ghost use Rattle.mld_ops.specs.Tagged.{tagged_cmp};
ghost use Rattle.tree_clock.specs.Lists.{IsAscending};

use crate::made::{have_dots, left, right};
use mld_ops::{Message, Messages, Operation, Tagged, has_pair, meaning, remove_pairs};
use op_codec::read_tagged;
use rdf_terms::{Triple, read_triple};
use std::alloc::{AllocError, Global};
use std::test::Fail;
use tree_clock::{Dot, Range, Ranges};
use uuid::Uuid;

// The range of one dot.
fn only(dot: Dot) -> Range {
    Range {
        path: dot.path,
        first: dot.tick,
        last: dot.tick,
    }
}

fn triple(alloc: Global) -> Result<Triple, Fail> {
    Ok(read_triple(alloc, "<http://d/a> <http://d/#p> \"x\" .")?)
}

// The triple with the first tick of the right leaf.
fn right_pairs(alloc: Global) -> Result<Vec<Tagged>, Fail> {
    let (pairs, _) = read_tagged(
        alloc,
        b"\x00\x00\x00\x01\x00\x00\x00\x20<http://d/a> <http://d/#p> \"x\" .\x01\x80\x00\x00\x00\x01",
        0,
    )?;
    Ok(pairs)
}

fn inserting(alloc: Global, dot: Dot) -> Result<Operation, Fail> {
    let mut inserts = Vec::new(alloc);
    inserts.push(triple(alloc)?)?;
    Ok(Operation {
        dot,
        causes: Ranges::new(alloc),
        deletes: Vec::new(alloc),
        inserts,
    })
}

fn deleting(alloc: Global, dot: Dot) -> Result<Operation, Fail> {
    let mut causes = Ranges::new(alloc);
    causes.push(only(right(1)))?;
    Ok(Operation {
        dot,
        causes,
        deletes: right_pairs(alloc)?,
        inserts: Vec::new(alloc),
    })
}

// Both leaves insert the triple, and then the right one deletes its own pair.
fn history(alloc: Global) -> Result<Vec<Operation>, Fail> {
    let mut history = Vec::new(alloc);
    history.push(deleting(alloc, right(2))?)?;
    history.push(inserting(alloc, right(1))?)?;
    history.push(inserting(alloc, left(1))?)?;
    Ok(history)
}

// Takes pairs out of a list of the pairs of both leaves: whether those were there, and the left leaf's stays.
fn are_taken_out(list: &mut Vec<Tagged>, pairs: &[Tagged]) -> bool
    requires { IsAscending tagged_cmp list.old.items }
{
    let mut had = have_dots(list, &[left(1), right(1)]);
    for pair in pairs {
        had &= has_pair(list, pair);
    }
    remove_pairs(list, pairs);
    had && have_dots(list, &[left(1)])
}

#[test]
fn a_pair_goes_where_its_delete_is_known(rt: HostRuntime) -> Result<(), Fail> {
    let alloc = rt.alloc();
    let history = Box::new(alloc, history(alloc)?)?;
    let known = [only(left(1)), only(right(1)), only(right(2))];
    let pairs = Box::new(alloc, meaning(alloc, &history, &known)?)?;
    assert!(rt; have_dots(&pairs, &[left(1)]));
    let mut pairs = Box::new(alloc, meaning(alloc, &history, &known[..2])?)?;
    let gone = Box::new(alloc, right_pairs(alloc)?)?;
    assert!(rt; are_taken_out(&mut pairs, &gone));
    Ok(())
}

// Adds a message to a list, and tells whether it is there.
fn takes_one(messages: &mut Messages) -> Result<bool, AllocError> {
    let was_empty = messages.is_empty();
    messages.push(Message::JoinAsk(Uuid::nil()))?;
    Ok(was_empty && messages.len() == 1 && messages.as_slice().len() == 1)
}

#[test]
fn messages_are_added_to_a_list(rt: HostRuntime) -> Result<(), Fail> {
    let mut messages = Box::new(rt.alloc(), Messages::new(rt.alloc()))?;
    assert!(rt; takes_one(&mut messages)?);
    Ok(())
}
