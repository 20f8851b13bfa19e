//! Writes that aren't synced, with what they covered.
ghost use Rattle.std.specs.Prelude.{◌≡◌, ◌+◌, ◌^◌, ◌<◌, ◌≤◌, length, take, vec_len, IfOk};
ghost use Rattle.mld_io.specs.Disk.{written};
ghost use Rattle.disk_model.specs.SideSteps.{torn_piece};
ghost use Rattle.disk_model.specs.Covered.{AreChained, CoversBytes, first_size, lost_by, torn_by};

use crate::bytes::put;
use mld_io::Piece;
use std::alloc::{AllocError, Global};

/// The byte that a torn write leaves behind its first half.
const TORN: u8 = 255;

/// A write that isn't synced: its piece from a place on, the bytes that it covered, and how long
/// the side was before it.
#[derive(Debug, Drop)]
pub struct Unsynced {
    pub at: usize,
    pub piece: Piece,
    pub covered: Piece,
    pub size: usize,
}

/// The write of a piece over these bytes, from a place on.
pub fn covering(
    alloc: Global,
    bytes: &[u8],
    at: usize,
    piece: &[u8],
) -> Result<Unsynced, AllocError>
    requires within { at ≤ length bytes.now }
    requires small { at + length piece.now < 2 ^ 64 }
    ensures { IfOk result (λ write. CoversBytes at piece.now bytes.now write) }
{
    let end = bytes.len().min(at + piece.len());
    Ok(Unsynced {
        at,
        piece: Piece::copy_in(alloc, piece)?,
        covered: Piece::copy_in(alloc, &bytes[at..end])?,
        size: bytes.len(),
    })
}

/// Takes these writes back, the newest first, and gives how long the side was before them.
pub fn take_back(seen: &mut Vec<u8>, size: usize, writes: &[Unsynced]) -> usize
    requires chained { AreChained writes.now size }
    requires in_seen { size ≤ vec_len seen.old }
    ensures len { vec_len seen.new ≡ vec_len seen.old }
    ensures size { result ≡ first_size writes.now size }
    ensures lost { take result seen.new.items ≡ lost_by writes.now (take size seen.old.items) }
{
    let mut left = size;
    let mut rest = writes;
    while let Some((write, before)) = rest.split_last() {
        put(seen, write.at, write.covered.as_slice());
        left = write.size;
        rest = before;
    }
    left
}

/// Does these writes again, each of them torn, which makes the side so long.
pub fn tear_again(seen: &mut Vec<u8>, size: usize, writes: &[Unsynced])
    requires chained { AreChained writes.now size }
    requires in_seen { size ≤ vec_len seen.old }
    ensures len { vec_len seen.new ≡ vec_len seen.old }
    ensures torn { take size seen.new.items ≡ torn_by writes.now (take (first_size writes.now size) seen.old.items) }
{
    let mut rest = writes;
    while let Some((write, behind)) = rest.split_first() {
        put_torn(seen, write.at, write.piece.as_slice());
        rest = behind;
    }
}

/// Puts the piece over the bytes from this place on, and tears it.
fn put_torn(bytes: &mut Vec<u8>, at: usize, piece: &[u8])
    requires { at + length piece.now ≤ vec_len bytes.old }
    ensures len { vec_len bytes.new ≡ vec_len bytes.old }
    ensures written { bytes.new.items ≡ written at (torn_piece piece.now) bytes.old.items }
{
    fill_torn(&mut bytes[at..at + piece.len()], piece);
}

/// The first half of the piece, and then the byte of a torn write.
fn fill_torn(out: &mut [u8], piece: &[u8])
    requires { length out.old ≡ length piece.now }
    ensures { out.new ≡ torn_piece piece.now }
{
    let half = piece.len() / 2;
    out[..half].copy_from_slice(&piece[..half]);
    out[half..].fill(TORN);
}
