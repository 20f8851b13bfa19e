//! How many elements stand before each chunk: numbers that are shifted by edits, and searched by halves.
ghost use Rattle.std.specs.Prelude.{◌≡◌, ℕ, ◌<◌, ◌≤◌, ◌+◌, ◌-◌, ◌^◌, ◌++◌, length, map, take, drop, vec_len, vec_capacity};
ghost use Rattle.std.specs.List.{insert, slice_index_or};
ghost use Rattle.hinted_chunks.specs.ChunkLimits.{half_limit};

use hinted_chunks::{HALF, put_in};

/// Makes the numbers from a place on less and more by so many.
pub(crate) fn shift(starts: &mut Vec<usize>, from: usize, less: usize, more: usize)
    requires from { from ≤ vec_len starts.old }
    requires fits { (i : ℕ) → from ≤ i → i < vec_len starts.old → (less ≤ slice_index_or starts.old.items i 0)
        × (slice_index_or starts.old.items i 0 + more < 2 ^ 64) }
    ensures items { starts.new.items ≡ take from starts.old.items ++ map (λ n. n - less + more) (drop from starts.old.items) }
    ensures len { vec_len starts.new ≡ vec_len starts.old }
    ensures capacity { vec_capacity starts.new ≡ vec_capacity starts.old }
{
    shift_all(&mut starts[from..], less, more);
}

// Makes all numbers less and more by so many.
fn shift_all(numbers: &mut [usize], less: usize, more: usize)
    requires { (i : ℕ) → i < length numbers.old → (less ≤ slice_index_or numbers.old i 0)
        × (slice_index_or numbers.old i 0 + more < 2 ^ 64) }
    ensures { numbers.new ≡ map (λ n. n - less + more) numbers.old }
{
    for number in numbers.iter_mut() {
        *number = *number - less + more;
    }
}

/// Puts the number of the second half behind that of a chunk that is split.
pub(crate) fn put_half(starts: &mut Vec<usize>, chunk: usize)
    requires chunk { chunk < vec_len starts.old }
    requires room { vec_len starts.old < vec_capacity starts.old }
    requires fits { slice_index_or starts.old.items chunk 0 + half_limit < 2 ^ 64 }
    ensures items { starts.new.items ≡ insert starts.old.items (chunk + 1) (slice_index_or starts.old.items chunk 0 + half_limit) }
    ensures len { vec_len starts.new ≡ vec_len starts.old + 1 }
    ensures capacity { vec_capacity starts.old ≤ vec_capacity starts.new }
{
    let half = starts[chunk] + HALF;
    put_in(starts, chunk + 1, half);
}

// How far from where it is guessed a number is looked for, where it isn't just there.
const NEAR: usize = 16;

/// The last number that is at most so many, where those from it on are more: it is found by halves, and among chunks of one size at once.
pub(crate) fn last_at_most(starts: &[usize], count: usize) -> usize
    requires some { 0 < length starts.now }
    requires first { slice_index_or starts.now 0 0 ≤ count }
    ensures within { result < length starts.now }
    ensures most { slice_index_or starts.now result 0 ≤ count }
    ensures next { result + 1 < length starts.now → count < slice_index_or starts.now (result + 1) 0 }
{
    let guess = guessed(starts, count);
    let mut low = low_near(starts, guess, count);
    let mut high = high_near(starts, guess, count);
    while low + 1 < high {
        let middle = low + (high - low) / 2;
        if starts[middle] <= count {
            low = middle;
        } else {
            high = middle;
        }
    }
    low
}

// Where such a number would stand, if all were as far apart as the first and the last.
fn guessed(starts: &[usize], count: usize) -> usize
    requires { 0 < length starts.now }
    ensures { result < length starts.now }
{
    let last = starts.len() - 1;
    let end = starts[last];
    if end == 0 {
        return 0;
    }
    (count.wrapping_mul(last) / end).min(last)
}

// A place not behind a guess, whose number is at most so many: the guess, else one near it, else the first.
fn low_near(starts: &[usize], guess: usize, count: usize) -> usize
    requires guess { guess < length starts.now }
    requires first { slice_index_or starts.now 0 0 ≤ count }
    ensures guess { result ≤ guess }
    ensures most { slice_index_or starts.now result 0 ≤ count }
{
    if starts[guess] <= count {
        return guess;
    }
    let near = guess.saturating_sub(NEAR);
    if starts[near] <= count { near } else { 0 }
}

// A place behind a guess, whose number is more: the next one, else one near it, else the end.
fn high_near(starts: &[usize], guess: usize, count: usize) -> usize
    requires guess { guess < length starts.now }
    ensures guess { guess < result }
    ensures within { result ≤ length starts.now }
    ensures next { result < length starts.now → count < slice_index_or starts.now result 0 }
{
    let next = guess + 1;
    if next < starts.len() && count < starts[next] {
        return next;
    }
    let near = guess.saturating_add(NEAR);
    if near < starts.len() && count < starts[near] {
        return near;
    }
    starts.len()
}
