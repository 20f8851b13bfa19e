//! Lists of pairs that name each path once.
use crate::made::{clock, have_dots, left, pair, pairs, right};
use mld_ops::{PairList, PairRow};
use std::alloc::Global;
use std::test::Fail;
use tree_clock::{Dot, Path};

/// The list of four pairs, one of the right leaf among three of the left one, behind a clock that knows these dots.
fn list(alloc: Global, known: &[Dot]) -> Result<Box<PairList>, Fail> {
    let clock = Box::new(alloc, clock(alloc, known)?)?;
    let rows = [
        ("t", left(1)),
        ("u", right(1)),
        ("v", left(2)),
        ("w", left(3)),
    ];
    let pairs = pairs(alloc, &rows)?;
    Ok(Box::new(alloc, PairList::from_list(alloc, &clock, pairs)?)?)
}

/// Whether the pair at a place has this dot.
fn is_at(list: &PairList, at: usize, dot: &Dot) -> bool {
    match list.get(at) {
        Some(pair) => pair.dot == *dot,
        None => false,
    }
}

/// Whether the list has the four pairs, and nothing behind them.
fn has_the_four(list: &PairList) -> bool {
    list.len() == 4
        && !list.is_empty()
        && is_at(list, 0, &left(1))
        && is_at(list, 1, &right(1))
        && is_at(list, 2, &left(2))
        && is_at(list, 3, &left(3))
        && list.get(4).is_none()
}

/// Whether so many paths are named, and the rows have these numbers of theirs.
fn are_numbered(list: &PairList, count: usize, numbers: &[u32]) -> bool {
    let (paths, rows) = list.parts();
    paths.len() == count
        && rows
            .iter()
            .zip(numbers)
            .all(|(row, number)| row.path == *number)
}

/// Whether a copy has the same pairs, as a plain list.
fn is_copied(alloc: Global, list: &PairList) -> Result<bool, Fail> {
    let copy = Box::new(alloc, list.copy_in(alloc)?)?;
    let plain = Box::new(alloc, copy.to_list(alloc)?)?;
    Ok(have_dots(&plain, &[left(1), right(1), left(2), left(3)]))
}

#[test]
fn each_path_of_a_clock_is_named_once(rt: HostRuntime) -> Result<(), Fail> {
    let list = list(rt.alloc(), &[left(3), right(1)])?;
    assert!(rt; has_the_four(&list));
    assert!(rt; are_numbered(&list, 2, &[0, 1, 0, 0]));
    assert!(rt; is_copied(rt.alloc(), &list)?);
    Ok(())
}

#[test]
fn a_path_that_the_clock_lacks_is_named_where_it_comes(rt: HostRuntime) -> Result<(), Fail> {
    let list = list(rt.alloc(), &[right(1)])?;
    assert!(rt; has_the_four(&list));
    assert!(rt; are_numbered(&list, 3, &[1, 0, 2, 2]));
    Ok(())
}

/// A list of one row with a number that no path has.
fn without_paths(alloc: Global) -> Result<Box<PairList>, Fail> {
    let pair = pair(alloc, "t", &left(1))?;
    let mut rows = Vec::new(alloc);
    rows.push(PairRow {
        triple: pair.triple,
        path: 7,
        tick: 2,
    })?;
    Ok(Box::new(alloc, PairList::from_rows(Vec::new(alloc), rows))?)
}

#[test]
fn a_number_that_no_path_has_stands_for_the_root(rt: HostRuntime) -> Result<(), Fail> {
    let root = Dot {
        path: Path::root(),
        tick: 2,
    };
    let list = without_paths(rt.alloc())?;
    assert!(rt; is_at(&list, 0, &root));
    assert!(rt; PairList::new(rt.alloc()).is_empty());
    Ok(())
}
