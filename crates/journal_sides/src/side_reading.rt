//! The reading of a side's bytes.
ghost use Rattle.std.specs.Prelude.{◌↔◌, Some, IsTrue, IfOk};
ghost use Rattle.journal_sides.specs.FoundVolumes.{BeginsOpen, HasPlaceBehind, TellsVolume};

use crate::head_reading::{Opening, read_head};
use crate::heads::Head;
use crate::record_reading::{OPEN_GATE, Progress, take_records};
use mld_io::Side;
use mld_ops::Entry;
use op_codec::CodecFault;
use std::alloc::Global;

/// What was found on an open side.
#[derive(Drop)]
pub struct Found {
    /// The side.
    pub side: Side,
    /// Its generation.
    pub generation: u64,
    /// The head, whose path is that of the clone.
    pub head: Head,
    /// The entries, the oldest first.
    pub entries: Vec<Entry>,
    /// The place of the closed gate behind the last record.
    pub stop: u64,
}

/// Whether the first byte is an open gate.
pub fn is_opened(input: &[u8]) -> bool
    ensures { IsTrue result ↔ BeginsOpen input.now }
{
    match input.first() {
        Some(gate) => *gate == OPEN_GATE,
        None => false,
    }
}

/// Reads the bytes of a side, whose first gate is open, up to the closed gate behind the last record.
///
/// # Errors
///
/// `NotInGrammar` with the byte where what is wrong begins, and `NoMemory`.
pub fn read_volume(alloc: Global, side: Side, input: &[u8]) -> Result<Found, CodecFault>
    requires { BeginsOpen input.now }
    ensures tells { TellsVolume side input.now result }
    ensures room { IfOk result (λ found. HasPlaceBehind (Some found)) }
{
    let (Opening { generation, head }, next) = read_head(alloc, input, 1)?;
    let mut progress = Progress {
        entries: Vec::new(alloc),
        path: head.path,
        known: head.base.copy_in(alloc)?,
    };
    let stop = take_records(alloc, input, next, &mut progress)?;
    let mut head = head;
    head.path = progress.path;
    Ok(Found {
        side,
        generation,
        head,
        entries: progress.entries,
        stop: stop as u64,
    })
}
