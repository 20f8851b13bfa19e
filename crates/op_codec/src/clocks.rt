//! Ticks, dots and clocks as bytes.
ghost use Rattle.std.specs.Prelude.{◌≡◌, ◌≤◌, ◌++◌, ◌∷◌, [], true, length, drop, OnOk, OnErr, IfOk, MatchResult};
ghost use Rattle.std.specs.List.{AllByRecursion};
ghost use Rattle.op_codec.specs.Agreement.{IsRead, IsRefused, TakesItem, MissesItem};
ghost use Rattle.op_codec.specs.Clocks.{tick_bytes, read_any_tick, read_tick, dot_bytes, read_dot, read_ticks, last_path, clock_bytes, read_clock};
ghost use Rattle.rdf_terms.specs.Kept.{KeepsStart};
ghost use Rattle.op_codec.specs.CodecLaws.{IsWrittenIn};
ghost use Rattle.op_codec.specs.StoredLists.{is_above, is_above_one};
ghost use Rattle.op_codec.specs.Stored.{IsShort, HasShape, HaveShape, IsStoredClock};
ghost use Rattle.tree_clock.specs.Clock.{entry_cmp};
ghost use Rattle.tree_clock.specs.Path.{path_cmp};

use crate::faults::CodecFault;
use crate::fields::read_u32;
use crate::paths::{append_path, read_path};
use mld_bytes::put_u32;
use std::alloc::{AllocError, Global};
use tree_clock::{Clock, Dot, Path};

/// Appends a tick.
pub(crate) fn append_tick(out: &mut Vec<u8>, tick: u32) -> Result<(), AllocError>
    ensures ok { OnOk result (out.new.items ≡ out.old.items ++ tick_bytes tick) }
    ensures err { OnErr result (KeepsStart out.old.items out.new.items) }
{
    put_u32(out, tick)
}

/// Appends a dot.
pub(crate) fn append_dot(out: &mut Vec<u8>, dot: &Dot) -> Result<(), AllocError>
    ensures ok { OnOk result (out.new.items ≡ out.old.items ++ dot_bytes dot.now) }
    ensures err { OnErr result (KeepsStart out.old.items out.new.items) }
    ensures shape { OnOk result (HasShape dot.now) }
{
    let _count = dot.path.len();
    append_path(out, &dot.path)?;
    append_tick(out, dot.tick)
}

/// Reads a tick of any number.
pub(crate) fn read_any_tick(input: &[u8], at: usize) -> Result<(u32, usize), CodecFault>
    requires { at ≤ length input.now }
    ensures { MatchResult result
        (λ read. IsRead (read_any_tick at (drop at input.now)) input.now read.0 read.1)
        (IsRefused (read_any_tick at (drop at input.now))) }
{
    read_u32(input, at)
}

/// Reads a tick from 1 on.
fn read_tick(input: &[u8], at: usize) -> Result<(u32, usize), CodecFault>
    requires { at ≤ length input.now }
    ensures agrees { MatchResult result
        (λ read. IsRead (read_tick at (drop at input.now)) input.now read.0 read.1)
        (IsRefused (read_tick at (drop at input.now))) }
    ensures positive { IfOk result (λ read. 1 ≤ read.0) }
{
    let (tick, next) = read_any_tick(input, at)?;
    if tick == 0 {
        return Err(CodecFault::NotInGrammar { place: at });
    }
    Ok((tick, next))
}

/// Reads a dot.
#[tactic(auto, unfolding(crate::specs::Clocks::read_dot))]
pub(crate) fn read_dot(input: &[u8], at: usize) -> Result<(Dot, usize), CodecFault>
    requires { at ≤ length input.now }
    ensures agrees { MatchResult result
        (λ read. IsRead (read_dot at (drop at input.now)) input.now read.0 read.1)
        (IsRefused (read_dot at (drop at input.now))) }
    ensures positive { IfOk result (λ read. 1 ≤ read.0.tick) }
{
    let (path, next) = read_path(input, at)?;
    let (tick, end) = read_tick(input, next)?;
    Ok((Dot { path, tick }, end))
}

/// Appends a list of paths with their ticks.
fn append_ticks(out: &mut Vec<u8>, list: &[(Path, u32)]) -> Result<(), AllocError>
    requires { IsShort list.now }
    ensures ok { OnOk result (out.new.items ≡ out.old.items ++ clock_bytes list.now) }
    ensures err { OnErr result (KeepsStart out.old.items out.new.items) }
    ensures shape { OnOk result (AllByRecursion HaveShape list.now) }
{
    put_u32(out, list.len() as u32)?;
    for (path, tick) in list {
        let dot = Dot {
            path: *path,
            tick: *tick,
        };
        append_dot(out, &dot)?;
    }
    Ok(())
}

/// Appends a clock.
pub(crate) fn append_clock(out: &mut Vec<u8>, clock: &Clock) -> Result<(), AllocError>
    requires { IsShort clock.now.ticks }
    ensures ok { OnOk result (out.new.items ≡ out.old.items ++ clock_bytes clock.now.ticks) }
    ensures err { OnErr result (KeepsStart out.old.items out.new.items) }
    ensures stored { OnOk result (IsStoredClock clock.now.ticks) }
{
    let list = clock.to_list(*out.allocator())?;
    append_ticks(out, &list)
}

/// Appends a clock in bytes. Where memory runs out the buffer is as before.
///
/// The clock has fewer than 2^32 paths with ticks.
pub fn write_clock(out: &mut Vec<u8>, clock: &Clock) -> Result<(), AllocError>
    requires { IsShort clock.now.ticks }
    ensures ok { OnOk result (out.new.items ≡ out.old.items ++ clock_bytes clock.now.ticks) }
    ensures err { OnErr result (out.new.items ≡ out.old.items) }
    ensures stored { OnOk result (IsStoredClock clock.now.ticks) }
{
    let start = out.len();
    let written = append_clock(out, clock);
    if written.is_err() {
        out.truncate(start);
    }
    written
}

/// Whether a path is above the last one, if there is one.
fn is_path_above(last: Option<Path>, path: &Path) -> bool
    ensures { result ≡ is_above_one path_cmp last path.now }
{
    match last {
        Some(last) => last.cmp(path).is_lt(),
        None => true,
    }
}

/// Adds the ticks of a path behind those of a clock.
fn add_last(clock: &mut Clock, dot: &Dot) -> Result<(), AllocError>
    requires above { is_above_one path_cmp (last_path clock.old.ticks) dot.now.path ≡ true }
    requires positive { 1 ≤ dot.now.tick }
    ensures { OnOk result (clock.new.ticks ≡ clock.old.ticks ++ (dot.now.path, dot.now.tick) ∷ []) }
{
    clock.reserve(&dot.path)?;

    // The look-up says that the clock is in order.
    let _before = clock.ticks(&dot.path);
    clock.raise(dot);
    Ok(())
}

/// Reads a path with its ticks behind those of a clock, and the place behind them.
fn read_next(
    input: &[u8],
    place: usize,
    clock: &mut Clock,
    last: &mut Option<Path>,
) -> Result<usize, CodecFault>
    requires place { place ≤ length input.now }
    requires last { last.old ≡ last_path clock.old.ticks }
    ensures agrees { MatchResult result
        (TakesItem read_ticks (is_above entry_cmp) input.now clock.old.ticks place clock.new.ticks)
        (MissesItem read_ticks (is_above entry_cmp) input.now clock.old.ticks place) }
    ensures last { OnOk result (last.new ≡ last_path clock.new.ticks) }
{
    let (dot, next) = read_dot(input, place)?;
    if !is_path_above(*last, &dot.path) {
        return Err(CodecFault::NotInGrammar { place });
    }
    add_last(clock, &dot)?;
    *last = Some(dot.path);
    Ok(next)
}

/// Reads a clock from a place of an input, in bytes from its start and at most its length, and the place behind the clock.
/// Refused with `NotInGrammar` where no clock is spelled there, with the place of what is wrong in the input: that of a
/// path with its ticks, where it isn't above the one before it.
pub fn read_clock(alloc: Global, input: &[u8], at: usize) -> Result<(Clock, usize), CodecFault>
    requires { at ≤ length input.now }
    ensures agrees { MatchResult result
        (λ read. IsRead (read_clock at (drop at input.now)) input.now (read.0).ticks read.1)
        (IsRefused (read_clock at (drop at input.now))) }
    ensures written { IfOk result (λ read. IsWrittenIn IsStoredClock clock_bytes at input.now (read.0).ticks read.1) }
{
    let (count, mut place) = read_u32(input, at)?;
    // Paths are read one by one, so that a count by itself asks for no memory.
    let mut clock = Clock::empty(alloc);
    let mut last = None;
    for _done in 0..count {
        place = read_next(input, place, &mut clock, &mut last)?;
    }
    Ok((clock, place))
}
