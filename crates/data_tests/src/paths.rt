//! Limits, paths, leaves, dots and ranges.
use std::alloc::AllocError;
use std::test::Fail;
use tree_clock::{Dot, Leaf, PATH_LIMIT, Path, Range, Ranges, TICK_LIMIT, knows};

#[test]
fn limits_have_their_numbers(rt: HostRuntime) {
    assert!(rt; PATH_LIMIT == 64);
    assert!(rt; TICK_LIMIT == 4_294_967_295);
}

// The path r01.
fn r01() -> Path {
    Path::root().child(false).child(true)
}

#[test]
fn a_path_has_its_letters(rt: HostRuntime) {
    let path = r01();
    assert!(rt; Path::root().is_empty() && path.len() == 2);
    assert!(rt; !path.letter(0) && path.letter(1));
}

#[test]
fn dots_are_ordered_by_path_before_tick(rt: HostRuntime) {
    let low = Dot {
        path: r01(),
        tick: 9,
    };
    let high = Dot {
        path: Path::root().child(true),
        tick: 2,
    };
    assert!(rt; low < high && low != high);
}

// The root forks, and its first son gives: the paths of the second son, of what the first keeps and of what it gives.
fn forked() -> Option<[Path; 3]> {
    let (mut zero, one) = Leaf::genesis().fork().ok()?;
    let right = zero.give()?;
    Some([one.path(), zero.path(), right.path()])
}

#[test]
fn a_leaf_forks_and_gives(rt: HostRuntime) {
    let left = Path::root().child(false);
    let wanted = [
        Path::root().child(true),
        left.child(false),
        left.child(true),
    ];
    assert!(rt; forked() == Some(wanted));
    assert!(rt; Leaf::at(r01()).path() == r01());
}

// Adds the ranges r.1-2 and r1.5-5.
fn add_ranges(ranges: &mut Ranges) -> Result<(), AllocError> {
    let path = Path::root();
    ranges.push(Range {
        path,
        first: 1,
        last: 2,
    })?;
    ranges.push(Range {
        path: path.child(true),
        first: 5,
        last: 5,
    })
}

// Whether these are the two ranges, by what they know.
fn are_those(ranges: &Ranges) -> bool {
    let path = Path::root();
    let right = path.child(true);
    ranges.len() == 2
        && ranges.knows(&Dot { path, tick: 2 })
        && !ranges.knows(&Dot { path, tick: 5 })
        && knows(
            ranges.as_slice(),
            &Dot {
                path: right,
                tick: 5,
            },
        )
}

#[test]
fn a_list_knows_the_dots_of_its_ranges(rt: HostRuntime) -> Result<(), Fail> {
    let mut ranges = Box::new(rt.alloc(), Ranges::new(rt.alloc()))?;
    assert!(rt; ranges.is_empty());
    add_ranges(&mut ranges)?;
    let copy = Box::new(rt.alloc(), ranges.copy_in(rt.alloc())?)?;
    assert!(rt; are_those(&copy));
    Ok(())
}
