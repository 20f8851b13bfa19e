//! Comparisons of texts as they would be written, without writing them: the first place where they differ decides.
ghost use Rattle.std.specs.Prelude.{◌≡◌, ℕ, ◌+◌, ◌≤◌, List, [], ◌∷◌, ◌++◌, take, drop, length, slice_index_or};
ghost use Rattle.std.specs.Cmp.Lexicographic.{slice_cmp};
ghost use Rattle.std.specs.Ordering.{nat_cmp, ordering_then};
ghost use Rattle.text_rules.specs.Compare.{common, rank, rank_at};
ghost use Rattle.text_rules.specs.Marks.{quote, greater};
ghost use Rattle.text_rules.specs.Escaped.{escaped};

use std::cmp::Ordering;
use std::simd::prelude::*;

/// How many bytes are compared at once.
const LANES: usize = 16;

/// How many bytes two texts have in common from their starts.
pub fn common_len(a: &[u8], b: &[u8]) -> usize
    ensures { result ≡ common a.now b.now }
{
    let shorter = a.len().min(b.len());
    if shorter < LANES {
        return common_by_one(a, b);
    }
    let last = shorter - LANES;
    let mut passed = 0;
    while passed < last {
        let more = common_lanes(a, b, passed);
        if more < LANES {
            return passed + more;
        }
        passed += LANES;
    }
    last + common_lanes(a, b, last)
}

/// How many of the 16 bytes from a place on two texts have in common.
fn common_lanes(a: &[u8], b: &[u8], place: usize) -> usize
    requires first { place + 16 ≤ length a.now }
    requires second { place + 16 ≤ length b.now }
    ensures { result ≡ common (take 16 (drop place a.now)) (take 16 (drop place b.now)) }
{
    let unequal = u8x16::from_slice(&a[place..])
        .simd_ne(u8x16::from_slice(&b[place..]))
        .to_bitmask();
    if unequal == 0 {
        LANES
    } else {
        unequal.trailing_zeros() as usize
    }
}

/// How many bytes two texts have in common from their starts, looked at one by one.
#[tactic(auto, using(crate::proofs::Comparing::common_more, crate::proofs::Comparing::common_stop, crate::proofs::Comparing::common_end))]
fn common_by_one(a: &[u8], b: &[u8]) -> usize
    ensures { result ≡ common a.now b.now }
{
    let shorter = a.len().min(b.len());
    for i in 0..shorter {
        if a[i] != b[i] {
            return i;
        }
    }
    shorter
}

/// Where a byte of a lexical form stands among all bytes, as it is written: a quote, a backslash, LF and CR
/// have a backslash first, and then a second byte that decides.
fn rank(byte: u8) -> u32
    ensures { result ≡ rank byte }
{
    match byte {
        b'"' => 23586,
        b'\\' => 23644,
        b'\n' => 23662,
        b'\r' => 23666,
        _ => byte as u32 * 256,
    }
}

/// The rank of the byte at a place, or of the quote that ends the lexical form.
#[tactic(auto, using(crate::proofs::Comparing::rank_at_read, crate::proofs::Comparing::rank_at_past))]
fn rank_at(text: &[u8], place: usize) -> u32
    ensures { result ≡ rank_at text.now place }
{
    if place < text.len() {
        rank(text[place])
    } else {
        8704
    }
}

/// Compares two lexical forms as they are written, with their closing quotes.
#[tactic(auto, using(crate::specs::CompareLaws::escaped_cmp))]
pub fn cmp_escaped(a: &[u8], b: &[u8]) -> Ordering
    ensures { (u v : List ℕ)
        → slice_cmp nat_cmp (escaped a.now ++ quote ∷ u) (escaped b.now ++ quote ∷ v)
        ≡ ordering_then result (slice_cmp nat_cmp u v) }
{
    let place = common_len(a, b);
    rank_at(a, place).cmp(&rank_at(b, place))
}

/// Compares two texts that both go on with `>` and end there.
#[tactic(auto, using(crate::specs::CompareLaws::ended_cmp))]
pub fn cmp_closed(a: &[u8], b: &[u8]) -> Ordering
    ensures { result ≡ slice_cmp nat_cmp (a.now ++ greater ∷ []) (b.now ++ greater ∷ []) }
{
    let place = common_len(a, b);
    let first = byte_at(a, place).cmp(&byte_at(b, place));
    first.then(a.len().cmp(&b.len()))
}

/// The byte at a place, or `>` at the end.
fn byte_at(text: &[u8], place: usize) -> u8
    ensures { result ≡ slice_index_or text.now place greater }
{
    if place < text.len() {
        text[place]
    } else {
        b'>'
    }
}
