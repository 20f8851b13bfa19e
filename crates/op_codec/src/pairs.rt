//! Pairs and lists of pairs as bytes.
ghost use Rattle.std.specs.Prelude.{◌≡◌, ◌≤◌, ◌++◌, None, length, drop, OnOk, OnErr, IfOk, MatchResult};
ghost use Rattle.std.specs.List.{AllByRecursion};
ghost use Rattle.op_codec.specs.Agreement.{IsRead, IsRefused, TakesItem, MissesItem};
ghost use Rattle.rdf_terms.specs.Kept.{KeepsStart};
ghost use Rattle.op_codec.specs.CodecLaws.{IsWrittenIn};
ghost use Rattle.op_codec.specs.StoredLists.{is_above};
ghost use Rattle.op_codec.specs.PairBytes.{cover_of, is_covered, fits_pairs, pair_bytes, read_pair, pairs_bytes, read_pairs};
ghost use Rattle.op_codec.specs.Stored.{IsShortTriple, AreShortPairs, HasPairShape, ArePairs};
ghost use Rattle.mld_ops.specs.PairLists.{rows_pairs};

use crate::clocks::{append_dot, read_dot};
use crate::faults::CodecFault;
use crate::fields::read_u32;
use crate::lists::{is_above, push_item};
use crate::triples::{append_stored, read_stored};
use mld_bytes::put_u32;
use mld_ops::{PairList, PairRow, Tagged, row_ref};
use rdf_terms::Triple;
use std::alloc::{AllocError, Global};
use tree_clock::{Clock, Dot, Path};

/// Appends a pair.
fn append_pair(out: &mut Vec<u8>, triple: &Triple, dot: &Dot) -> Result<(), AllocError>
    requires { IsShortTriple triple.now }
    ensures ok { OnOk result
        (out.new.items ≡ out.old.items ++ pair_bytes (record { triple = triple.now; dot = dot.now })) }
    ensures err { OnErr result (KeepsStart out.old.items out.new.items) }
    ensures shape { OnOk result (HasPairShape (record { triple = triple.now; dot = dot.now })) }
{
    append_stored(out, triple)?;
    append_dot(out, dot)
}

/// Appends a plain list of pairs.
pub(crate) fn append_pairs(out: &mut Vec<u8>, pairs: &[Tagged]) -> Result<(), AllocError>
    requires { AreShortPairs pairs.now }
    ensures ok { OnOk result (out.new.items ≡ out.old.items ++ pairs_bytes pairs.now) }
    ensures err { OnErr result (KeepsStart out.old.items out.new.items) }
    ensures shape { OnOk result (AllByRecursion HasPairShape pairs.now) }
{
    put_u32(out, pairs.len() as u32)?;
    for pair in pairs {
        append_pair(out, &pair.triple, &pair.dot)?;
    }
    Ok(())
}

/// Appends the pairs of rows.
fn append_rows(out: &mut Vec<u8>, paths: &[Path], rows: &[PairRow]) -> Result<(), AllocError>
    requires { AreShortPairs (rows_pairs paths.now rows.now) }
    ensures ok { OnOk result (out.new.items ≡ out.old.items ++ pairs_bytes (rows_pairs paths.now rows.now)) }
    ensures err { OnErr result (KeepsStart out.old.items out.new.items) }
    ensures shape { OnOk result (AllByRecursion HasPairShape (rows_pairs paths.now rows.now)) }
{
    put_u32(out, rows.len() as u32)?;
    for row in rows {
        let pair = row_ref(paths, row);
        append_pair(out, pair.triple, &pair.dot)?;
    }
    Ok(())
}

/// Appends a list of pairs.
pub(crate) fn append_list(out: &mut Vec<u8>, list: &PairList) -> Result<(), AllocError>
    requires { AreShortPairs list.now }
    ensures ok { OnOk result (out.new.items ≡ out.old.items ++ pairs_bytes list.now) }
    ensures err { OnErr result (KeepsStart out.old.items out.new.items) }
    ensures shape { OnOk result (AllByRecursion HasPairShape list.now) }
{
    let (paths, rows) = list.parts();
    append_rows(out, paths, rows)
}

/// Appends a list of pairs in bytes. Where memory runs out the buffer is as before.
///
/// The list has fewer than 2^32 pairs, and the written form of each triple fewer than 2^32 bytes.
pub fn write_tagged(out: &mut Vec<u8>, list: &PairList) -> Result<(), AllocError>
    requires { AreShortPairs list.now }
    ensures ok { OnOk result (out.new.items ≡ out.old.items ++ pairs_bytes list.now) }
    ensures err { OnErr result (out.new.items ≡ out.old.items) }
    ensures shape { OnOk result (AllByRecursion HasPairShape list.now) }
{
    let start = out.len();
    let written = append_list(out, list);
    if written.is_err() {
        out.truncate(start);
    }
    written
}

/// Reads a pair.
#[tactic(auto, unfolding(crate::specs::PairBytes::read_pair))]
fn read_pair(alloc: Global, input: &[u8], at: usize) -> Result<(Tagged, usize), CodecFault>
    requires { at ≤ length input.now }
    ensures { MatchResult result
        (λ read. IsRead (read_pair at (drop at input.now)) input.now read.0 read.1)
        (IsRefused (read_pair at (drop at input.now))) }
{
    let (triple, next) = read_stored(alloc, input, at)?;
    let (dot, end) = read_dot(input, next)?;
    Ok((Tagged { triple, dot }, end))
}

/// Whether a dot is one of a clock's, where a clock is given.
fn is_covered(cover: Option<&Clock>, dot: &Dot) -> bool
    ensures { result ≡ is_covered (cover_of (λ clock. clock.now.ticks) cover.entry) dot.now }
{
    match cover {
        Some(clock) => clock.covers(dot),
        None => true,
    }
}

/// Whether a pair may stand behind others: it is above the last of them, and a clock covers it, where one is given.
fn fits_pairs(cover: Option<&Clock>, pairs: &[Tagged], pair: &Tagged) -> bool
    ensures { result ≡ fits_pairs (cover_of (λ clock. clock.now.ticks) cover.entry) pairs.now pair.now }
{
    is_above(pairs, pair) && is_covered(cover, &pair.dot)
}

/// Reads a pair behind others, and the place behind it.
fn read_next(
    alloc: Global,
    input: &[u8],
    place: usize,
    cover: Option<&Clock>,
    pairs: &mut Vec<Tagged>,
) -> Result<usize, CodecFault>
    requires { place ≤ length input.now }
    ensures { MatchResult result
        (TakesItem read_pair (fits_pairs (cover_of (λ clock. clock.now.ticks) cover.entry)) input.now pairs.old.items
        place pairs.new.items)
        (MissesItem read_pair (fits_pairs (cover_of (λ clock. clock.now.ticks) cover.entry)) input.now
        pairs.old.items place) }
{
    let (pair, next) = read_pair(alloc, input, place)?;
    if !fits_pairs(cover, pairs, &pair) {
        return Err(CodecFault::NotInGrammar { place });
    }
    push_item(pairs, pair)?;
    Ok(next)
}

/// Reads a list of pairs, which a clock covers, where one is given.
pub(crate) fn read_pairs(
    alloc: Global,
    input: &[u8],
    at: usize,
    cover: Option<&Clock>,
) -> Result<(Vec<Tagged>, usize), CodecFault>
    requires { at ≤ length input.now }
    ensures { MatchResult result
        (λ read. IsRead (read_pairs (cover_of (λ clock. clock.now.ticks) cover.entry) at (drop at input.now)) input.now
        (read.0).items read.1)
        (IsRefused (read_pairs (cover_of (λ clock. clock.now.ticks) cover.entry) at (drop at input.now))) }
{
    let (count, mut place) = read_u32(input, at)?;
    // Pairs are read one by one, so that a count by itself asks for no memory.
    let mut pairs = Vec::new(alloc);
    for _done in 0..count {
        place = read_next(alloc, input, place, cover, &mut pairs)?;
    }
    Ok((pairs, place))
}

/// Reads a list of pairs from a place of an input, in bytes from its start and at most its length, and the place behind the
/// list. Refused with `NotInGrammar` where no list is spelled there, with the place of what is wrong in the input: that of
/// a pair, where it isn't above the one before it.
pub fn read_tagged(
    alloc: Global,
    input: &[u8],
    at: usize,
) -> Result<(Vec<Tagged>, usize), CodecFault>
    requires { at ≤ length input.now }
    ensures agrees { MatchResult result
        (λ read. IsRead (read_pairs None at (drop at input.now)) input.now (read.0).items read.1)
        (IsRefused (read_pairs None at (drop at input.now))) }
    ensures written { IfOk result (λ read. IsWrittenIn ArePairs pairs_bytes at input.now (read.0).items read.1) }
{
    read_pairs(alloc, input, at, None)
}
