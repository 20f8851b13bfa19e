//! The runs of a node over one device, one after another.
ghost use Rattle.std.specs.Prelude.{◌≡◌, length, IfOk};
ghost use Rattle.mld_io.specs.Wires.{taken_of};

use crate::comparing::{has_end, has_sent};
use crate::given::{device_of, events_of, fails_of, words_of};
use crate::lines::{End, Failing, Section, bad_line, count_lines, crash_of, end_of};
use crate::wires::ScarceWire;
use disk_model::MemoryBanks;
use mld_io::{CrashBanks, MemoryWire, Side};
use node_run::serve;
use std::alloc::{Alloc, AllocError, Global};
use std::io::{self, Print};
use std::thread::Threads;
use transcripts::{has_side, is_side, side_bytes};

/// How a session is gone through.
#[derive(Clone, Copy)]
pub struct Way<'a> {
    /// The name of its file.
    pub name: &'a str,
    /// Whether each piece is cut in two.
    pub is_cut: bool,
}

/// Goes through a session; whether all is as it says. What differs is written.
pub fn plays<R: Print + Threads + Sync + Alloc<A = Global>>(
    rt: &R,
    way: Way<'_>,
    text: &str,
) -> io::Result<bool> {
    let (head, _) = text.split_once("\nserve").unwrap_or((text, ""));
    if !is_head(head) {
        println!(rt; "{}: a line before the first run can't be read", way.name)?;
        return Ok(false);
    }
    let mut banks = banks_of(rt.alloc(), head)?;
    play_sections(rt, way, text, &mut banks)
}

/// Whether a text is a title, and behind it lines that tell bytes of sides.
fn is_head(head: &str) -> bool {
    let (title, sides) = head.split_once('\n').unwrap_or((head, ""));
    title.starts_with("# ") && sides.lines().all(|line| is_side(line))
}

/// A device with the bytes that are told, and none where none are.
fn banks_of(alloc: Global, head: &str) -> Result<Box<MemoryBanks>, AllocError> {
    let a = side_bytes(alloc, head, "a")?;
    let b = side_bytes(alloc, head, "b")?;
    let banks = MemoryBanks::with_bytes(alloc, a.as_slice(), b.as_slice())?;
    Ok(Box::new(alloc, banks)?)
}

/// Does the runs of a session over a device, up to the first that can't be read; whether all is as it says. What differs is written.
fn play_sections<R: Print + Threads + Sync + Alloc<A = Global>>(
    rt: &R,
    way: Way<'_>,
    text: &str,
    banks: &mut MemoryBanks,
) -> io::Result<bool> {
    let mut place = 0u64;
    let mut is_so = true;
    for text in text.split("\nserve") {
        if place > 0 {
            let section = Section { text, place };
            if !is_section(rt, way, section)? {
                return Ok(false);
            }
            is_so = play(rt, way, section, banks)? && is_so;
            place = place.saturating_add(count_lines(text));
        } else {
            place = count_lines(text).saturating_add(1);
        }
    }
    Ok(is_so)
}

/// Whether a run can be read. Where it can't be, that is written.
fn is_section<R: Print>(rt: &R, way: Way<'_>, section: Section<'_>) -> io::Result<bool> {
    if let Some(place) = bad_line(section) {
        println!(rt; "{}: line {place} can't be read", way.name)?;
        return Ok(false);
    }
    if end_of(section).is_none() {
        println!(rt;
            "{}: the run of line {} has no status",
            way.name, section.place
        )?;
        return Ok(false);
    }
    Ok(true)
}

/// Does one run over a device, which has then what the node left; whether all is as it says. What differs is written.
fn play<R: Print + Threads + Sync + Alloc<A = Global>>(
    rt: &R,
    way: Way<'_>,
    section: Section<'_>,
    banks: &mut MemoryBanks,
) -> io::Result<bool> {
    let words = words_of(rt.alloc(), section)?;
    let mut wire = wire_of(rt.alloc(), section, way.is_cut)?;
    let device = device_of(rt.alloc(), section, banks)?;
    let ran = serve(rt, rt.alloc(), &words, &mut wire, device);
    let end = End {
        status: ran.status,
        turns: ran.turns,
        damaged: ran.damaged,
    };
    *banks = ran.banks;
    if crash_of(section).is_some() {
        banks.revive();
    }
    compare(rt, way, section, wire.wire(), end, banks)
}

/// The wire of a run, of which nothing was taken yet.
fn wire_of(alloc: Global, section: Section<'_>, is_cut: bool) -> Result<ScarceWire, AllocError>
    ensures { IfOk result (λ wire. length (taken_of wire.log) ≡ 0) }
{
    let lacks = fails_of(alloc, section, Failing::Memory)?;
    let wire = memory_wire_of(alloc, section, is_cut)?;
    Ok(ScarceWire::new(wire, lacks))
}

/// The wire in memory of a run, of which nothing was taken yet.
fn memory_wire_of(
    alloc: Global,
    section: Section<'_>,
    is_cut: bool,
) -> Result<MemoryWire, AllocError>
    ensures { IfOk result (λ wire. length (taken_of wire.log) ≡ 0) }
{
    let fails = fails_of(alloc, section, Failing::Wire)?;
    let events = events_of(alloc, section, is_cut)?;
    MemoryWire::new(alloc, events, fails.as_slice())
}

/// Whether all that came of a run is as wanted. What differs is written.
fn compare<R: Print + Alloc<A = Global>>(
    rt: &R,
    way: Way<'_>,
    section: Section<'_>,
    wire: &MemoryWire,
    got: End,
    banks: &MemoryBanks,
) -> io::Result<bool> {
    let Some(wanted) = end_of(section) else {
        return Ok(false);
    };
    let sends = has_sent(rt, way.name, section, wire)?;
    let ends = has_end(rt, way.name, section.place, wanted, got, way.is_cut)?;
    let a = has_side(rt, way.name, section.text, "a", banks.bytes(Side::A))?;
    let b = has_side(rt, way.name, section.text, "b", banks.bytes(Side::B))?;
    Ok(sends && ends && a && b)
}
