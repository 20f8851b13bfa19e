//! Numbers sorted by hints, where a few of them share what all share, and where they share more.
use crate::made::push;
use crate::numbers::{BySize, Number};
use chunked_list::hinted_chunks::sort_by_hints;
use std::alloc::{AllocError, Global};
use std::test::Fail;

// So many numbers are sorted.
const COUNT: u32 = 40;

// 40 numbers, each less by one than the one before it, from 0x010203C8 down to 0x010203A1, and another one at a place among them.
fn numbers(alloc: Global, place: u32, other: u32) -> Result<Vec<Number>, AllocError> {
    let mut list = Vec::new(alloc);
    for behind in 0..COUNT {
        let value = if behind == place {
            other
        } else {
            16_909_256 - behind
        };
        push(&mut list, Number { value })?;
    }
    Ok(list)
}

// Whether numbers ascend from a first one to a last one.
fn ascend(list: &[Number], first: u32, last: u32) -> bool {
    let (Some(least), Some(greatest)) = (list.first(), list.last()) else {
        return false;
    };
    least.value == first
        && greatest.value == last
        && list.is_sorted_by(|number, other| number.value < other.value)
}

// Whether the numbers are sorted, from a first one to a last one.
fn are_sorted(alloc: Global, row: &(u32, u32, u32, u32)) -> Result<bool, AllocError> {
    let (place, other, first, last) = *row;
    let mut list = numbers(alloc, place, other)?;
    sort_by_hints(alloc, &BySize, &mut list)?;
    Ok(list.len() == COUNT as usize && ascend(&list, first, last))
}

// Where which other number stands, and the first and the last number when all are sorted. Each third place is looked at for a guess of
// what all share, so at the places 1 and 38 the guess is wrong, where the other number has another front.
const CASES: &[(u32, u32, u32, u32)] = &[
    (40, 0, 16_909_217, 16_909_256),
    (1, 5, 5, 16_909_256),
    (3, 5, 5, 16_909_256),
    (38, 4_294_967_295, 16_909_217, 4_294_967_295),
    (1, 16_909_568, 16_909_217, 16_909_568),
    (0, 16_843_009, 16_843_009, 16_909_255),
];

#[test]
fn numbers_are_sorted_whatever_a_few_of_them_share(rt: HostRuntime) -> Result<(), Fail> {
    for row in CASES {
        assert!(rt; are_sorted(rt.alloc(), row)?, "{}", row.0);
    }
    Ok(())
}
