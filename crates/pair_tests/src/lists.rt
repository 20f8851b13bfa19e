//! Numbers in chunks, at the borders of chunks.
ghost use Rattle.std.specs.Ordering.{nat_cmp};
ghost use Rattle.tree_clock.specs.Lists.{IsAscending};

use crate::made::{boxed, push};
use crate::numbers::{BySize, Number, Under};
use chunked_list::Chunked;
use std::alloc::{AllocError, Global};
use std::test::Fail;

// Puts the numbers from a first one to an end in.
fn fill(alloc: Global, list: &mut Chunked<Number>, first: u32, end: u32) -> bool
    requires { IsAscending nat_cmp list.old.elements }
    ensures { IsAscending nat_cmp list.new.elements }
{
    for value in first..end {
        if list.prepare(alloc, 1).is_err() {
            return false;
        }
        list.insert(&BySize, Number { value });
    }
    true
}

// Takes the numbers from a first one to an end out.
fn cut_out(list: &mut Chunked<Number>, first: u32, end: u32)
    requires { IsAscending nat_cmp list.old.elements }
    ensures { IsAscending nat_cmp list.new.elements }
{
    for value in first..end {
        list.remove(&BySize, &Number { value });
    }
}

// Whether there are so many chunks, and one of them has the numbers from a first one to an end.
fn has_chunk(list: &Chunked<Number>, chunks: usize, at: usize, first: u32, end: u32) -> bool {
    let Some(chunk) = list.chunks().get(at) else {
        return false;
    };
    let mut next = first;
    for number in chunk.as_slice() {
        if number.value != next {
            return false;
        }
        next = next.saturating_add(1);
    }
    list.chunks().len() == chunks && next == end
}

// Puts the numbers from 0 to an end in a list.
fn count_up(numbers: &mut Vec<Number>, end: u32) -> Result<(), AllocError> {
    for value in 0..end {
        push(numbers, Number { value })?;
    }
    Ok(())
}

// A list is made of the numbers from 0 to an end.
fn made(alloc: Global, end: u32) -> Result<Box<Chunked<Number>>, AllocError> {
    let mut numbers = Vec::new(alloc);
    count_up(&mut numbers, end)?;
    boxed(alloc, Chunked::from_vec(alloc, numbers)?)
}

// Whether a list that is made of so many numbers has so many chunks, the last of them from this number on.
fn is_made(alloc: Global, end: u32, chunks: usize, first: u32) -> Result<bool, AllocError> {
    let list = made(alloc, end)?;
    let is_so = if chunks == 0 {
        list.chunks().is_empty()
    } else {
        has_chunk(&list, chunks, chunks - 1, first, end)
    };
    Ok(is_so && list.len() == end as usize)
}

// How many numbers a list is made of, how many chunks it has, and the first number of the last one.
const MADE: &[(u32, usize, u32)] = &[
    (0, 0, 0),
    (1, 1, 0),
    (63, 1, 0),
    (64, 2, 63),
    (126, 2, 63),
    (127, 3, 126),
];

#[test]
fn lists_of_vectors_about_the_limit(rt: HostRuntime) -> Result<(), Fail> {
    for (end, chunks, first) in MADE {
        assert!(rt; is_made(rt.alloc(), *end, *chunks, *first)?, "{end}");
    }
    Ok(())
}

// The numbers from a first one to an end.
type Span = (u32, u32);

const NONE: Span = (0, 0);

// Which numbers come in, and which go then; how many numbers and chunks there are behind that, and which numbers the chunk of a place has.
type Step = (Span, Span, usize, usize, usize, Span);

const STEPS: &[Step] = &[
    // A chunk of 63 numbers splits by an insert at its first place; an insert behind all of them gets a chunk of its own.
    ((1, 64), NONE, 63, 1, 0, (1, 64)),
    ((0, 1), NONE, 64, 2, 0, (0, 32)),
    ((64, 95), NONE, 95, 2, 1, (32, 95)),
    ((95, 96), NONE, 96, 3, 1, (32, 95)),
    (NONE, NONE, 96, 3, 2, (95, 96)),
    // The last chunk goes with its only number; the one before it, which is full then, splits by an insert that isn't at its end.
    (NONE, (95, 96), 95, 2, 1, (32, 95)),
    (NONE, (50, 51), 94, 2, 0, (0, 32)),
    ((95, 96), NONE, 95, 2, 0, (0, 32)),
    ((50, 51), NONE, 96, 3, 1, (32, 64)),
    (NONE, NONE, 96, 3, 2, (64, 96)),
    // A chunk loses its last number, which comes back to its end; and the chunk behind it goes with all of its numbers.
    (NONE, (31, 32), 95, 3, 0, (0, 31)),
    ((31, 32), NONE, 96, 3, 0, (0, 32)),
    (NONE, (32, 64), 64, 2, 1, (64, 96)),
];

// Whether a list is as it should be behind a step. The number 96 is never there.
fn is_done(alloc: Global, list: &mut Chunked<Number>, step: Step) -> bool
    requires { IsAscending nat_cmp list.old.elements }
    ensures { IsAscending nat_cmp list.new.elements }
{
    let (came, gone, count, chunks, at, span) = step;
    let is_in = fill(alloc, list, came.0, came.1);
    cut_out(list, gone.0, gone.1);
    is_in
        && list.len() == count
        && has_chunk(list, chunks, at, span.0, span.1)
        && list.contains(&BySize, &Number { value: span.0 })
        && !list.contains(&BySize, &Number { value: 96 })
}

// Whether a list that is empty at first is as it should be behind each step.
fn are_done(alloc: Global, list: &mut Chunked<Number>) -> bool
    requires { IsAscending nat_cmp list.old.elements }
    ensures { IsAscending nat_cmp list.new.elements }
{
    for step in STEPS {
        if !is_done(alloc, list, *step) {
            return false;
        }
    }
    true
}

// The numbers from 30 to 65 stand at the end of one chunk and at the front of the next.
fn is_found(alloc: Global, list: &Chunked<Number>) -> Result<bool, AllocError>
    requires { IsAscending nat_cmp list.now.elements }
{
    let found = list.between(alloc, &Under { number: 30 }, &Under { number: 66 })?;
    Ok(match found.as_slice() {
        [a, b, c, d] => a.value == 30 && b.value == 31 && c.value == 64 && d.value == 65,
        _ => false,
    })
}

// Whether a number stands at a place.
fn stands_at(list: &Chunked<Number>, place: usize, number: u32) -> bool {
    place < list.len() && list.at(place).value == number
}

// The same numbers stand at the places from 30 to 34.
fn is_spanned(alloc: Global, list: &Chunked<Number>) -> Result<bool, AllocError> {
    if list.len() < 34 {
        return Ok(false);
    }
    let found = list.from_to(alloc, 30, 34)?;
    Ok(match found.as_slice() {
        [a, b, c, d] => a.value == 30 && b.value == 31 && c.value == 64 && d.value == 65,
        _ => false,
    })
}

// Whether so many numbers pass a test.
fn has_under(
    alloc: Global,
    list: &Chunked<Number>,
    number: u32,
    count: usize,
) -> Result<bool, AllocError> {
    let found = list.find_all(alloc, &Under { number })?;
    Ok(found.len() == count)
}

// No chunk is left where all numbers go.
fn is_emptied(list: &mut Chunked<Number>) -> bool
    requires { IsAscending nat_cmp list.old.elements }
{
    cut_out(list, 0, 96);
    list.len() == 0 && list.chunks().is_empty()
}

#[test]
fn chunks_split_and_go_at_their_borders(rt: HostRuntime) -> Result<(), Fail> {
    let alloc = rt.alloc();
    let mut list = boxed(alloc, Chunked::new(alloc))?;
    assert!(rt; are_done(alloc, &mut list));
    assert!(rt; is_found(alloc, &list)? && has_under(alloc, &list, 66, 34)?);
    assert!(rt; is_spanned(alloc, &list)?);
    assert!(rt; stands_at(&list, 31, 31) && stands_at(&list, 32, 64) && stands_at(&list, 63, 95));
    assert!(rt; is_emptied(&mut list));
    Ok(())
}
