//! Whether what came of a run is what its session says.
use crate::given::connections_of;
use crate::lines::{End, Line, Section, is_closed, line_of};
use mld_io::MemoryWire;
use std::alloc::{Alloc, AllocError, Global};
use std::io::{self, Print};
use transcripts::{first_bytes, put_hexadecimal};

/// Whether on each connection just what is wanted was sent, and it was shut where that is wanted. What differs is written.
pub fn has_sent<R: Print + Alloc<A = Global>>(
    rt: &R,
    name: &str,
    section: Section<'_>,
    wire: &MemoryWire,
) -> io::Result<bool> {
    let mut is_so = true;
    for number in &connections_of(rt.alloc(), section)? {
        if !has_connection(rt, name, section, wire, *number)? {
            is_so = false;
        }
    }
    Ok(is_so)
}

/// Whether on a connection just what is wanted was sent, and it was shut where that is wanted. What differs is written.
fn has_connection<R: Print + Alloc<A = Global>>(
    rt: &R,
    name: &str,
    section: Section<'_>,
    wire: &MemoryWire,
    number: u32,
) -> io::Result<bool> {
    let sent = wire.sent(rt.alloc(), number)?;
    let sends = has_sent_on(rt, name, section, number, sent.as_slice())?;
    let shuts = has_shut(rt, name, section, number, wire.is_shut(number))?;
    Ok(sends && shuts)
}

/// Whether a connection was shut just where that is wanted. What differs is written.
fn has_shut<R: Print>(
    rt: &R,
    name: &str,
    section: Section<'_>,
    number: u32,
    is_shut: bool,
) -> io::Result<bool> {
    let wanted = is_closed(section, number);
    if is_shut == wanted {
        return Ok(true);
    }
    let state = if wanted { "shut" } else { "not shut" };
    println!(rt;
        "{name}:{}: connection {number} is to be {state}",
        section.place
    )?;
    Ok(false)
}

/// Whether just what is wanted was sent on a connection. The first piece that differs is written.
fn has_sent_on<R: Print + Alloc<A = Global>>(
    rt: &R,
    name: &str,
    section: Section<'_>,
    number: u32,
    sent: &[u8],
) -> io::Result<bool> {
    let mut rest = sent;
    let mut place = section.place;
    for line in section.text.split('\n') {
        match behind_line(rt.alloc(), line, number, rest)? {
            Some(behind) => rest = behind,
            None => {
                tell_got(rt, name, place, number, rest)?;
                return Ok(false);
            }
        }
        place = place.saturating_add(1);
    }
    if !rest.is_empty() {
        tell_got(rt, name, section.place, number, rest)?;
    }
    Ok(rest.is_empty())
}

/// What was sent behind what a line wants on this connection; `None` where something else was.
fn behind_line<'a>(
    alloc: Global,
    line: &str,
    number: u32,
    rest: &'a [u8],
) -> Result<Option<&'a [u8]>, AllocError> {
    match line_of(line) {
        Some(Line::Sent(conn, told)) if conn == number => behind_bytes(alloc, told, rest),
        _ => Ok(Some(rest)),
    }
}

/// What stands behind bytes that are told as digits; `None` where others stand there.
fn behind_bytes<'a>(
    alloc: Global,
    told: &str,
    rest: &'a [u8],
) -> Result<Option<&'a [u8]>, AllocError> {
    let mut bytes = Vec::new(alloc);
    put_hexadecimal(&mut bytes, told)?;
    Ok(rest.strip_prefix(bytes.as_slice()))
}

/// Writes the first bytes of what was sent at a place where something else is wanted.
fn tell_got<R: Print + Alloc<A = Global>>(
    rt: &R,
    name: &str,
    place: u64,
    number: u32,
    rest: &[u8],
) -> io::Result<()> {
    let got = first_bytes(rt.alloc(), rest)?;
    println!(rt; "{name}:{place}: on connection {number} got `{got}`")
}

/// Whether a run ended as is wanted. How many events it took isn't looked at where their pieces were cut. What differs is written.
pub fn has_end<R: Print>(
    rt: &R,
    name: &str,
    place: u64,
    wanted: End,
    got: End,
    is_cut: bool,
) -> io::Result<bool> {
    let has_place = has_damaged(wanted.damaged, got.damaged);
    if wanted.status == got.status && (is_cut || wanted.turns == got.turns) && has_place {
        return Ok(true);
    }
    println!(rt;
        "{name}:{place}: wanted status {} and {} turns, got {} and {}{}",
        wanted.status,
        wanted.turns,
        got.status,
        got.turns,
        if has_place {
            ""
        } else {
            "; another place is damaged"
        }
    )?;
    Ok(false)
}

/// Whether the same place is damaged.
fn has_damaged(wanted: Option<(mld_io::Side, u64)>, got: Option<(mld_io::Side, u64)>) -> bool {
    match (wanted, got) {
        (None, None) => true,
        (Some((side, place)), Some((other, at))) => side == other && place == at,
        _ => false,
    }
}
