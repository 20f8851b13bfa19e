//! Scripts of one clone, in the manner of a shell: the worked ones, and what compacting and undoing leave.
use crate::made::{Asked, Said, first_amiss, founded};
use std::test::Fail;

/// Past states and undos, one after another, around a compaction and a truncation. The answers were worked by hand from what both mean.
const WORKED: &[(Asked, Said)] = &[
    (Asked::Add(0), Said::Did(1)),
    (Asked::Add(1), Said::Did(2)),
    (Asked::Past(&[("", 1)]), Said::Has(&[("", 1, 0)])),
    (Asked::Past(&[]), Said::Has(&[])),
    (Asked::Remove(0), Said::Did(3)),
    (Asked::Undo(("", 3)), Said::Did(4)),
    (Asked::Show, Said::Has(&[("", 4, 0), ("", 2, 1)])),
    (Asked::Undo(("", 2)), Said::Did(5)),
    (Asked::Show, Said::Has(&[("", 4, 0)])),
    (Asked::Undo(("", 9)), Said::NotKept),
    (Asked::Undo(("1", 1)), Said::NotOwn),
    (Asked::Past(&[("", 9)]), Said::Unknown(("", 9))),
    (Asked::Compact, Said::Kept(1)),
    (Asked::Past(&[("", 2)]), Said::Split(("", 2))),
    (Asked::Undo(("", 5)), Said::NotKept),
    (Asked::Truncate(0), Said::Kept(0)),
    (Asked::Past(&[]), Said::Behind),
];

/// A triple with two tags, and undos of undos.
const AGAIN: &[(Asked, Said)] = &[
    (Asked::Add(0), Said::Did(1)),
    (Asked::Add(0), Said::Did(2)),
    (Asked::Undo(("", 2)), Said::Nothing),
    (Asked::Undo(("", 1)), Said::Nothing),
    (Asked::Remove(0), Said::Did(3)),
    (Asked::Undo(("", 1)), Said::Nothing),
    (Asked::Undo(("", 3)), Said::Did(4)),
    (Asked::Show, Said::Has(&[("", 4, 0)])),
    (Asked::Undo(("", 4)), Said::Did(5)),
    (Asked::Show, Said::Has(&[])),
    (Asked::Undo(("", 5)), Said::Did(6)),
    (Asked::Show, Said::Has(&[("", 6, 0)])),
    (Asked::Past(&[("", 3)]), Said::Has(&[])),
    (
        Asked::Past(&[("", 2)]),
        Said::Has(&[("", 1, 0), ("", 2, 0)]),
    ),
];

/// An undo that would give a second value.
const SINGLE: &[(Asked, Said)] = &[
    (Asked::Add(0), Said::Did(1)),
    (Asked::Remove(0), Said::Did(2)),
    (Asked::Add(1), Said::Did(3)),
    (Asked::Undo(("", 2)), Said::Single),
    (Asked::Show, Said::Has(&[("", 3, 1)])),
];

#[test]
fn past_states_and_undos_are_those_worked_by_hand(rt: HostRuntime) -> Result<(), Fail> {
    let mut clone = founded(&rt, rt.alloc(), &[])?;
    let amiss = first_amiss(&mut clone, &rt, rt.alloc(), WORKED);
    assert!(rt; amiss == 0, "line {amiss}");
    Ok(())
}

#[test]
fn undos_are_taken_back(rt: HostRuntime) -> Result<(), Fail> {
    let mut clone = founded(&rt, rt.alloc(), &[])?;
    let amiss = first_amiss(&mut clone, &rt, rt.alloc(), AGAIN);
    assert!(rt; amiss == 0, "line {amiss}");
    Ok(())
}

#[test]
fn an_undo_gives_no_second_value(rt: HostRuntime) -> Result<(), Fail> {
    let mut clone = founded(&rt, rt.alloc(), &["http://d/p"])?;
    let amiss = first_amiss(&mut clone, &rt, rt.alloc(), SINGLE);
    assert!(rt; amiss == 0, "line {amiss}");
    Ok(())
}
