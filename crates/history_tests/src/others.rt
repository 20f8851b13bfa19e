//! Scripts of a clone that takes what another one made.
use crate::made::{Asked, Said, first_amiss, founded};
use std::test::Fail;

/// Entries of another path, which rest on the clone's own.
const RESTING: &[(Asked, Said)] = &[
    (Asked::Add(0), Said::Did(1)),
    (Asked::Receive(("1", 1), 1, &[("", 1)]), Said::Took),
    (
        Asked::Receive(("1", 2), 2, &[("", 1), ("1", 1)]),
        Said::Took,
    ),
    (Asked::Add(2), Said::Did(2)),
    (Asked::Past(&[("1", 1)]), Said::NotClosed("1", 1, 1)),
    (Asked::Past(&[("", 2)]), Said::NotClosed("", 2, 2)),
    (Asked::Past(&[("", 2), ("1", 1)]), Said::NotClosed("", 2, 2)),
    (
        Asked::Past(&[("", 1), ("1", 1)]),
        Said::Has(&[("", 1, 0), ("1", 1, 1)]),
    ),
    (Asked::Past(&[("", 1)]), Said::Has(&[("", 1, 0)])),
    (Asked::Past(&[("", 3), ("1", 3)]), Said::Unknown(("", 3))),
    (Asked::Past(&[("", 1), ("1", 3)]), Said::Unknown(("1", 3))),
    (Asked::Compact, Said::Kept(3)),
    (Asked::Past(&[("", 1), ("1", 1)]), Said::Split(("1", 1))),
    (
        Asked::Past(&[("", 1), ("1", 2)]),
        Said::Has(&[("", 1, 0), ("1", 1, 1), ("1", 2, 2)]),
    ),
    (Asked::Truncate(2), Said::Kept(2)),
    (Asked::Past(&[("1", 2)]), Said::Behind),
    (Asked::Past(&[("", 1)]), Said::Has(&[("", 1, 0)])),
];

/// A triple that both have tagged.
const TAGGED: &[(Asked, Said)] = &[
    (Asked::Add(0), Said::Did(1)),
    (Asked::Receive(("1", 1), 0, &[]), Said::Took),
    (Asked::Undo(("", 1)), Said::Nothing),
    (Asked::Undo(("1", 1)), Said::NotOwn),
    (Asked::Remove(0), Said::Did(2)),
    (Asked::Receive(("1", 2), 0, &[("1", 1)]), Said::Took),
    (Asked::Undo(("", 2)), Said::Nothing),
    (Asked::Show, Said::Has(&[("1", 2, 0)])),
];

#[test]
fn a_past_state_needs_what_its_ranges_rest_on(rt: HostRuntime) -> Result<(), Fail> {
    let mut clone = founded(&rt, rt.alloc(), &[])?;
    let amiss = first_amiss(&mut clone, &rt, rt.alloc(), RESTING);
    assert!(rt; amiss == 0, "line {amiss}");
    Ok(())
}

#[test]
fn what_another_tagged_stays(rt: HostRuntime) -> Result<(), Fail> {
    let mut clone = founded(&rt, rt.alloc(), &[])?;
    let amiss = first_amiss(&mut clone, &rt, rt.alloc(), TAGGED);
    assert!(rt; amiss == 0, "line {amiss}");
    Ok(())
}
