//! The reading of banks: the bytes of a side in pieces, and what both sides keep.
ghost use Rattle.std.specs.Prelude.{◌≡◌, ◌≤◌, ◌+◌, ◌++◌, Some, None, Ok, length, take, drop, OnOk, IfOk, IfErr, IsOk, IsErrOf};
ghost use Rattle.mld_io.specs.Arm.{Metered};
ghost use Rattle.mld_io.specs.Disk.{Log, Sides, bytes_of, seen};
ghost use Rattle.journal_sides.specs.FoundVolumes.{HasPlaceBehind, MayBeWritten};
ghost use Rattle.journal_store.specs.Closing.{StaysTold};
ghost use Rattle.journal_store.specs.Crashes.{LeavesNothingNew};
ghost use Rattle.journal_store.specs.Found.{ReadsSame, TellsSide, TellsBoth, IsQuiet, IsFailed, fault_on};
ghost use Rattle.journal_store.specs.Mounting.{IsSynced};

use crate::faults::MountFault;
use journal_sides::{Found, is_opened, read_volume};
use mld_io::{Banks, IoFault, Side};
use op_codec::CodecFault;
use std::alloc::Global;

/// How many bytes are read at once at most.
const PIECE: usize = 4_096;

/// Where the generation of a side stands.
const GENERATION_PLACE: u64 = 5;

/// Appends the next bytes of a side to those that were read before, as many as are asked for, up to 4,096.
fn read_piece<B: Banks>(
    banks: &mut B,
    side: Side,
    bytes: &mut Vec<u8>,
    count: usize,
) -> Result<(), IoFault>
    requires count { count ≤ PIECE }
    requires within { (l : Log) → B.log banks.old ≡ Some l
        → length bytes.old.items + count ≤ length (bytes_of side (seen l)) }
    ensures bytes { (l : Log) → B.log banks.old ≡ Some l
        → OnOk result
        (bytes.new.items ≡ bytes.old.items ++ take count
        (drop (length bytes.old.items) (bytes_of side (seen l)))) }
    ensures size { OnOk result (length bytes.new.items ≡ length bytes.old.items + count) }
    ensures log { B.log banks.new ≡ B.log banks.old }
    ensures meter { Metered 0 (B.meter banks.old) (B.meter banks.new) (IsOk result) (IsErrOf result IoFault.Failed) }
{
    let mut piece = [0; PIECE];
    let at = bytes.len() as u64;
    banks.read_at(side, at, &mut piece[..count])?;
    bytes.extend_from_slice(&piece[..count])?;
    Ok(())
}

/// Reads a side to its end, behind what was read before.
fn read_rest<B: Banks>(
    banks: &mut B,
    side: Side,
    bytes: &mut Vec<u8>,
    size: usize,
) -> Result<(), IoFault>
    requires size { (l : Log) → B.log banks.old ≡ Some l → size ≡ length (bytes_of side (seen l)) }
    requires begun { (l : Log) → B.log banks.old ≡ Some l
        → bytes.old.items ≡ take (length bytes.old.items) (bytes_of side (seen l)) }
    ensures bytes { (l : Log) → B.log banks.old ≡ Some l → OnOk result (bytes.new.items ≡ bytes_of side (seen l)) }
    ensures log { B.log banks.new ≡ B.log banks.old }
    ensures meter { Metered 0 (B.meter banks.old) (B.meter banks.new) (IsOk result) (IsErrOf result IoFault.Failed) }
{
    while bytes.len() < size {
        let count = (size - bytes.len()).min(PIECE);
        read_piece(banks, side, bytes, count)?;
    }
    Ok(())
}

/// Reads a side: its first byte, and the rest where that is an open gate.
fn read_bytes<B: Banks>(alloc: Global, banks: &mut B, side: Side) -> Result<Vec<u8>, IoFault>
    ensures bytes { (l : Log) → B.log banks.old ≡ Some l
        → IfOk result (λ bytes. ReadsSame bytes.items (bytes_of side (seen l))) }
    ensures log { B.log banks.new ≡ B.log banks.old }
    ensures meter { Metered 0 (B.meter banks.old) (B.meter banks.new) (IsOk result) (IsErrOf result IoFault.Failed) }
{
    let size = banks.len(side)? as usize;
    let mut bytes = Vec::new(alloc);
    if size == 0 {
        return Ok(bytes);
    }
    read_piece(banks, side, &mut bytes, 1)?;
    if !is_opened(&bytes) {
        return Ok(bytes);
    }
    read_rest(banks, side, &mut bytes, size)?;
    Ok(bytes)
}

/// The fault of bytes of a side.
fn mount_fault(side: Side, fault: CodecFault) -> MountFault
    ensures { result ≡ fault_on side fault }
{
    match fault {
        CodecFault::NotInGrammar { place } => MountFault::Damaged {
            side,
            place: place as u64,
        },
        CodecFault::NoMemory => MountFault::NoMemory,
    }
}

/// What stands on a side of these bytes, if it is open.
fn find_in(alloc: Global, side: Side, input: &[u8]) -> Result<Option<Found>, MountFault>
    ensures tells { TellsSide side input.now result }
    ensures quiet { IsQuiet result }
    ensures room { IfOk result HasPlaceBehind }
    ensures good { IfOk result MayBeWritten }
{
    if !is_opened(input) {
        return Ok(None);
    }
    match read_volume(alloc, side, input) {
        Ok(found) => Ok(Some(found)),
        Err(fault) => Err(mount_fault(side, fault)),
    }
}

/// What stands on a side, if it is open.
fn find_on<B: Banks>(alloc: Global, banks: &mut B, side: Side) -> Result<Option<Found>, MountFault>
    ensures tells { (l : Log) → B.log banks.old ≡ Some l → TellsSide side (bytes_of side (seen l)) result }
    ensures room { IfOk result HasPlaceBehind }
    ensures good { IfOk result MayBeWritten }
    ensures log { B.log banks.new ≡ B.log banks.old }
    ensures meter { Metered 0 (B.meter banks.old) (B.meter banks.new) (IsQuiet result) (IsFailed result) }
{
    let bytes = read_bytes(alloc, banks, side)?;
    find_in(alloc, side, &bytes)
}

/// Syncs both sides.
fn sync_both<B: Banks>(banks: &mut B) -> Result<(), MountFault>
    ensures refusals { IfErr result (λ fault. fault ≡ MountFault.Device) }
    ensures synced { (l : Log) → B.log banks.old ≡ Some l → IsSynced (IsOk result) l (B.log banks.new) }
    ensures moments { (l : Log) → B.log banks.old ≡ Some l → LeavesNothingNew l (B.log banks.new) }
    ensures told { StaysTold (B.log banks.old) (B.log banks.new) }
    ensures meter { Metered 2 (B.meter banks.old) (B.meter banks.new) (IsQuiet result) (IsFailed result) }
{
    banks.sync(Side::A)?;
    banks.sync(Side::B)?;
    Ok(())
}

/// The one that counts of what was found on side A and on side B.
fn choose(a: Option<Found>, b: Option<Found>) -> Result<Option<Found>, MountFault>
    ensures tells { (sides : Sides) → TellsSide Side.A sides.a (Ok a)
        → TellsSide Side.B sides.b (Ok b) → TellsBoth sides result }
    ensures quiet { IsQuiet result }
    ensures room { HasPlaceBehind a → HasPlaceBehind b → IfOk result HasPlaceBehind }
    ensures good { MayBeWritten a → MayBeWritten b → IfOk result MayBeWritten }
{
    let Some(a) = a else {
        return Ok(b);
    };
    let Some(b) = b else {
        return Ok(Some(a));
    };
    if a.generation == b.generation {
        return Err(MountFault::Damaged {
            side: Side::B,
            place: GENERATION_PLACE,
        });
    }
    if a.generation < b.generation {
        return Ok(Some(b));
    }
    Ok(Some(a))
}

/// Syncs both sides of banks, and reads what is kept on them.
pub(crate) fn find<B: Banks>(alloc: Global, banks: &mut B) -> Result<Option<Found>, MountFault>
    ensures tells { (l : Log) → B.log banks.old ≡ Some l → TellsBoth (seen l) result }
    ensures room { IfOk result HasPlaceBehind }
    ensures good { IfOk result MayBeWritten }
    ensures synced { (l : Log) → B.log banks.old ≡ Some l → IsSynced (IsQuiet result) l (B.log banks.new) }
    ensures moments { (l : Log) → B.log banks.old ≡ Some l → LeavesNothingNew l (B.log banks.new) }
    ensures told { StaysTold (B.log banks.old) (B.log banks.new) }
    ensures meter { Metered 2 (B.meter banks.old) (B.meter banks.new) (IsQuiet result) (IsFailed result) }
{
    sync_both(banks)?;
    let a = find_on(alloc, banks, Side::A)?;
    let b = find_on(alloc, banks, Side::B)?;
    choose(a, b)
}
