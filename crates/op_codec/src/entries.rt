//! Entries as bytes.
ghost use Rattle.std.specs.Prelude.{◌≡◌, ◌≤◌, ◌++◌, length, drop, OnOk, OnErr, IfOk, MatchResult};
ghost use Rattle.std.specs.List.{AllByRecursion};
ghost use Rattle.op_codec.specs.Agreement.{IsRead, IsRefused, TakesItem, MissesItem};
ghost use Rattle.op_codec.specs.Entries.{range_bytes, read_range, insert_bytes, read_insert, inserts_bytes, read_inserts, entry_bytes, read_entry};
ghost use Rattle.rdf_terms.specs.Kept.{KeepsStart};
ghost use Rattle.op_codec.specs.CodecLaws.{IsWrittenIn};
ghost use Rattle.op_codec.specs.StoredLists.{is_above};
ghost use Rattle.op_codec.specs.Stored.{IsShortTriple, AreShortInserts, IsShortEntry, HasInsertShape, IsRange, IsStoredEntry};
ghost use Rattle.mld_ops.specs.Tagged.{insert_cmp};

use crate::clocks::{append_clock, append_tick, read_any_tick, read_clock};
use crate::faults::CodecFault;
use crate::fields::read_u32;
use crate::lists::{is_above, push_item};
use crate::pairs::{append_pairs, read_pairs};
use crate::paths::{append_path, read_path};
use crate::triples::{append_stored, read_stored};
use mld_bytes::put_u32;
use mld_ops::Entry;
use rdf_terms::Triple;
use std::alloc::{AllocError, Global};
use tree_clock::Range;

/// Appends a range.
fn append_range(out: &mut Vec<u8>, range: &Range) -> Result<(), AllocError>
    ensures ok { OnOk result (out.new.items ≡ out.old.items ++ range_bytes range.now) }
    ensures err { OnErr result (KeepsStart out.old.items out.new.items) }
    ensures stored { OnOk result (IsRange range.now) }
{
    let _count = range.path.len();
    append_path(out, &range.path)?;
    append_tick(out, range.first)?;
    append_tick(out, range.last)
}

/// Reads a range, of any ticks.
#[tactic(auto, unfolding(crate::specs::Entries::read_range))]
fn read_range(input: &[u8], at: usize) -> Result<(Range, usize), CodecFault>
    requires { at ≤ length input.now }
    ensures { MatchResult result
        (λ read. IsRead (read_range at (drop at input.now)) input.now read.0 read.1)
        (IsRefused (read_range at (drop at input.now))) }
{
    let (path, next) = read_path(input, at)?;
    let (first, more) = read_any_tick(input, next)?;
    let (last, end) = read_any_tick(input, more)?;
    Ok((Range { path, first, last }, end))
}

/// Appends an insert.
fn append_insert(out: &mut Vec<u8>, triple: &Triple, tick: u32) -> Result<(), AllocError>
    requires { IsShortTriple triple.now }
    ensures ok { OnOk result (out.new.items ≡ out.old.items ++ insert_bytes (triple.now, tick)) }
    ensures err { OnErr result (KeepsStart out.old.items out.new.items) }
    ensures shape { OnOk result (HasInsertShape (triple.now, tick)) }
{
    append_stored(out, triple)?;
    append_tick(out, tick)
}

/// Appends a list of inserts.
fn append_inserts(out: &mut Vec<u8>, inserts: &[(Triple, u32)]) -> Result<(), AllocError>
    requires { AreShortInserts inserts.now }
    ensures ok { OnOk result (out.new.items ≡ out.old.items ++ inserts_bytes inserts.now) }
    ensures err { OnErr result (KeepsStart out.old.items out.new.items) }
    ensures shape { OnOk result (AllByRecursion HasInsertShape inserts.now) }
{
    put_u32(out, inserts.len() as u32)?;
    for (triple, tick) in inserts {
        append_insert(out, triple, *tick)?;
    }
    Ok(())
}

/// Reads an insert, of any tick.
#[tactic(auto, unfolding(crate::specs::Entries::read_insert))]
fn read_insert(alloc: Global, input: &[u8], at: usize) -> Result<((Triple, u32), usize), CodecFault>
    requires { at ≤ length input.now }
    ensures { MatchResult result
        (λ read. IsRead (read_insert at (drop at input.now)) input.now read.0 read.1)
        (IsRefused (read_insert at (drop at input.now))) }
{
    let (triple, next) = read_stored(alloc, input, at)?;
    let (tick, end) = read_any_tick(input, next)?;
    Ok(((triple, tick), end))
}

/// Reads an insert behind others, and the place behind it.
fn read_next(
    alloc: Global,
    input: &[u8],
    place: usize,
    inserts: &mut Vec<(Triple, u32)>,
) -> Result<usize, CodecFault>
    requires { place ≤ length input.now }
    ensures { MatchResult result
        (TakesItem read_insert (is_above insert_cmp) input.now inserts.old.items place inserts.new.items)
        (MissesItem read_insert (is_above insert_cmp) input.now inserts.old.items place) }
{
    let (insert, next) = read_insert(alloc, input, place)?;
    if !is_above(inserts, &insert) {
        return Err(CodecFault::NotInGrammar { place });
    }
    push_item(inserts, insert)?;
    Ok(next)
}

/// Reads a list of inserts.
fn read_inserts(
    alloc: Global,
    input: &[u8],
    at: usize,
) -> Result<(Vec<(Triple, u32)>, usize), CodecFault>
    requires { at ≤ length input.now }
    ensures { MatchResult result
        (λ read. IsRead (read_inserts at (drop at input.now)) input.now (read.0).items read.1)
        (IsRefused (read_inserts at (drop at input.now))) }
{
    let (count, mut place) = read_u32(input, at)?;
    let mut inserts = Vec::new(alloc);
    for _done in 0..count {
        place = read_next(alloc, input, place, &mut inserts)?;
    }
    Ok((inserts, place))
}

/// Appends an entry.
#[tactic(auto, unfolding(crate::specs::Entries::entry_bytes))]
pub(crate) fn append_entry(out: &mut Vec<u8>, entry: &Entry) -> Result<(), AllocError>
    requires { IsShortEntry entry.now }
    ensures ok { OnOk result (out.new.items ≡ out.old.items ++ entry_bytes entry.now) }
    ensures err { OnErr result (KeepsStart out.old.items out.new.items) }
    ensures stored { OnOk result (IsStoredEntry entry.now) }
{
    append_range(out, &entry.range())?;
    append_clock(out, entry.time())?;
    append_pairs(out, entry.deletes())?;
    append_inserts(out, entry.inserts())
}

/// Appends an entry in bytes. Where memory runs out the buffer is as before. What is written is read as the entry.
///
/// Each of its lists has fewer than 2^32 items, and the written form of each triple fewer than 2^32 bytes.
pub fn write_entry(out: &mut Vec<u8>, entry: &Entry) -> Result<(), AllocError>
    requires { IsShortEntry entry.now }
    ensures ok { OnOk result (out.new.items ≡ out.old.items ++ entry_bytes entry.now) }
    ensures err { OnErr result (out.new.items ≡ out.old.items) }
    ensures stored { OnOk result (IsStoredEntry entry.now) }
{
    let start = out.len();
    let written = append_entry(out, entry);
    if written.is_err() {
        out.truncate(start);
    }
    written
}

/// Reads an entry from a place of an input, in bytes from its start and at most its length, and the place behind the
/// entry. Refused with `NotInGrammar` where no entry is spelled there, with the place of what is wrong in the input: that of
/// the entry, where its parts are none of an entry.
#[tactic(auto, unfolding(crate::specs::Entries::read_entry))]
pub fn read_entry(alloc: Global, input: &[u8], at: usize) -> Result<(Entry, usize), CodecFault>
    requires { at ≤ length input.now }
    ensures agrees { MatchResult result
        (λ read. IsRead (read_entry at (drop at input.now)) input.now read.0 read.1)
        (IsRefused (read_entry at (drop at input.now))) }
    ensures written { IfOk result (λ read. IsWrittenIn IsStoredEntry entry_bytes at input.now read.0 read.1) }
{
    let (range, next) = read_range(input, at)?;
    let (time, next) = read_clock(alloc, input, next)?;
    let (deletes, next) = read_pairs(alloc, input, next, None)?;
    let (inserts, end) = read_inserts(alloc, input, next)?;
    match Entry::new(range, time, deletes, inserts) {
        Some(entry) => Ok((entry, end)),
        None => Err(CodecFault::NotInGrammar { place: at }),
    }
}
