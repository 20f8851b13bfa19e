//! Records and whole sides put on a device.
ghost use Rattle.std.specs.Prelude.{◌≡◌, ◌+◌, ◌^◌, ◌<◌, None, Some, length, OnOk, IfOk, IfErr, IsOk, IsErrOf};
ghost use Rattle.mld_io.specs.Arm.{Metered};
ghost use Rattle.mld_io.specs.Disk.{Log, LeavesMeanwhile, IsSettled, bytes_of, seen};
ghost use Rattle.journal_sides.specs.Heads.{head_value};
ghost use Rattle.journal_sides.specs.RecordBytes.{RecordValue};
ghost use Rattle.journal_sides.specs.SideReadings.{Volume};
ghost use Rattle.journal_sides.specs.StoredVolumes.{IsGoodHead, AreGoodEntries, IsVolume};
ghost use Rattle.journal_sides.specs.WrittenRecords.{with_record, volume_of};
ghost use Rattle.journal_store.specs.CallEnds.{KeepsEnd, ClosesOrKeeps, EndsBehindFirst};
ghost use Rattle.journal_store.specs.Closing.{WasCalled, StaysTold};
ghost use Rattle.journal_store.specs.WrittenSides.{HasEndAt, HasVolume, IsAppendingTo, IsWritingTo, record_body};

use crate::device::{Stop, append_body, fill_side};
use crate::faults::Why;
use journal_sides::{Head, side_body};
use mld_io::{Banks, Side};
use mld_ops::Entry;
use std::alloc::Global;

/// Puts a record behind those of a side, whose closed gate is at this place. The body is the record with the closed gate
/// that stands behind it then. Gives the place of that gate.
pub(crate) fn put_record<B: Banks>(
    banks: &mut B,
    side: Side,
    stop: u64,
    body: &[u8],
) -> Result<u64, Stop>
    requires room { stop + 1 < 2 ^ 64 }
    requires gate { (l : Log) → B.log banks.old ≡ Some l → stop < length (bytes_of side (seen l)) }
    ensures room { IfOk result (λ end. end + 1 < 2 ^ 64) }
    ensures done { (l : Log) (volume : Volume) (next : RecordValue)
        → HasEndAt side volume stop l (B.log banks.old) → body.now ≡ record_body next
        → IfOk result (λ end. HasVolume side (with_record next volume) end l (B.log banks.new)) }
    ensures moments { (l : Log) (volume : Volume) (next : RecordValue)
        → HasEndAt side volume stop l (B.log banks.old) → body.now ≡ record_body next
        → IsVolume volume → IsVolume (with_record next volume)
        → LeavesMeanwhile l (B.log banks.new) (IsAppendingTo (B.meter banks.old).arm side stop volume next (seen l)) }
    ensures before { IsErrOf result Stop.Before → banks.new ≡ banks.old }
    ensures called { EndsBehindFirst result → WasCalled B.log B.meter banks.old banks.new }
    ensures told { StaysTold (B.log banks.old) (B.log banks.new) }
    ensures meter { Metered 4 (B.meter banks.old) (B.meter banks.new)
        (IsOk result) (IsErrOf result (Stop.Within Why.Device)) }
{
    append_body(banks, side, stop, body)?;
    Ok(stop + body.len() as u64)
}

/// Writes a side anew, with a head of a generation and entries. Gives the place of the closed gate behind them.
pub(crate) fn write_side<B: Banks>(
    alloc: Global,
    banks: &mut B,
    side: Side,
    generation: u64,
    head: &Head,
    entries: &[Entry],
) -> Result<u64, Stop>
    requires head { IsGoodHead (head_value head.now) }
    requires entries { AreGoodEntries (head_value head.now).base.ticks entries.now }
    ensures room { IfOk result (λ end. end + 1 < 2 ^ 64) }
    ensures stored { OnOk result (IsVolume (volume_of generation (head_value head.now) entries.now)) }
    ensures done { (l : Log) → B.log banks.old ≡ Some l → IsSettled l
        → IfOk result (λ end.
        HasVolume side (volume_of generation (head_value head.now) entries.now) end l (B.log banks.new)) }
    ensures moments { (l : Log) → B.log banks.old ≡ Some l → IsSettled l
        → LeavesMeanwhile l (B.log banks.new)
        (IsWritingTo (B.meter banks.old).arm side (volume_of generation (head_value head.now) entries.now)
        (seen l)) }
    ensures before { IsErrOf result Stop.Before → banks.new ≡ banks.old }
    ensures called { EndsBehindFirst result → WasCalled B.log B.meter banks.old banks.new }
    ensures told { StaysTold (B.log banks.old) (B.log banks.new) }
    ensures meter { Metered 6 (B.meter banks.old) (B.meter banks.new)
        (IsOk result) (IsErrOf result (Stop.Within Why.Device)) }
{
    let body = side_body(alloc, generation, head, entries)?;
    fill_side(banks, side, &body)?;
    Ok(body.len() as u64)
}

/// Keeps what calls on a device left: the place of the closed gate behind what they wrote, or why they stopped, which closes a
/// journal where some of them were done.
fn keep_end(stop: &mut u64, closed: &mut Option<Why>, put: Result<u64, Stop>) -> Result<(), Why>
    ensures { KeepsEnd stop.old closed.old put stop.new closed.new result }
{
    match put {
        Ok(end) => {
            *stop = end;
            Ok(())
        }
        Err(Stop::Before) => Err(Why::NoMemory),
        Err(Stop::Within(why)) => {
            *closed = Some(why);
            Err(why)
        }
    }
}

/// Puts a record behind those of the side that counts in a journal that isn't closed, as `put_record` does. A call that was
/// begun and not done closes the journal.
pub(crate) fn append_at<B: Banks>(
    banks: &mut B,
    side: Side,
    stop: &mut u64,
    closed: &mut Option<Why>,
    body: &[u8],
) -> Result<(), Why>
    requires opened { closed.old ≡ None }
    requires room { stop.old + 1 < 2 ^ 64 }
    requires gate { (l : Log) → B.log banks.old ≡ Some l → stop.old < length (bytes_of side (seen l)) }
    ensures room { stop.new + 1 < 2 ^ 64 }
    ensures opened { OnOk result (closed.new ≡ None) }
    ensures called { OnOk result (WasCalled B.log B.meter banks.old banks.new) }
    ensures refused { IfErr result (ClosesOrKeeps B.log B.meter banks.old banks.new stop.old stop.new closed.new) }
    ensures done { (l : Log) (volume : Volume) (next : RecordValue)
        → HasEndAt side volume stop.old l (B.log banks.old) → body.now ≡ record_body next
        → OnOk result (HasVolume side (with_record next volume) stop.new l (B.log banks.new)) }
    ensures moments { (l : Log) (volume : Volume) (next : RecordValue)
        → HasEndAt side volume stop.old l (B.log banks.old) → body.now ≡ record_body next
        → IsVolume volume → IsVolume (with_record next volume)
        → LeavesMeanwhile l (B.log banks.new)
        (IsAppendingTo (B.meter banks.old).arm side stop.old volume next (seen l)) }
    ensures told { StaysTold (B.log banks.old) (B.log banks.new) }
    ensures meter { Metered 4 (B.meter banks.old) (B.meter banks.new) (IsOk result) (IsErrOf result Why.Device) }
{
    let put = put_record(banks, side, *stop, body);
    keep_end(stop, closed, put)
}

/// Writes a side anew, as `write_side` does. A call that was begun and not done closes the journal.
pub(crate) fn swap_at<B: Banks>(
    alloc: Global,
    banks: &mut B,
    side: Side,
    stop: &mut u64,
    closed: &mut Option<Why>,
    generation: u64,
    head: &Head,
    entries: &[Entry],
) -> Result<(), Why>
    requires opened { closed.old ≡ None }
    requires room { stop.old + 1 < 2 ^ 64 }
    requires head { IsGoodHead (head_value head.now) }
    requires entries { AreGoodEntries (head_value head.now).base.ticks entries.now }
    ensures room { stop.new + 1 < 2 ^ 64 }
    ensures opened { OnOk result (closed.new ≡ None) }
    ensures called { OnOk result (WasCalled B.log B.meter banks.old banks.new) }
    ensures refused { IfErr result (ClosesOrKeeps B.log B.meter banks.old banks.new stop.old stop.new closed.new) }
    ensures stored { OnOk result (IsVolume (volume_of generation (head_value head.now) entries.now)) }
    ensures done { (l : Log) → B.log banks.old ≡ Some l → IsSettled l
        → OnOk result
        (HasVolume side (volume_of generation (head_value head.now) entries.now) stop.new l (B.log banks.new)) }
    ensures moments { (l : Log) → B.log banks.old ≡ Some l → IsSettled l
        → LeavesMeanwhile l (B.log banks.new)
        (IsWritingTo (B.meter banks.old).arm side (volume_of generation (head_value head.now) entries.now)
        (seen l)) }
    ensures told { StaysTold (B.log banks.old) (B.log banks.new) }
    ensures meter { Metered 6 (B.meter banks.old) (B.meter banks.new) (IsOk result) (IsErrOf result Why.Device) }
{
    let put = write_side(alloc, banks, side, generation, head, entries);
    keep_end(stop, closed, put)
}
