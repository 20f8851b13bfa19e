//! The calls on a device that change what is durable: a piece is written and synced before the mark that makes it count, so
//! that a crash leaves what was there before, or what is there after.
ghost use Rattle.std.specs.Prelude.{◌≡◌, ◌↔◌, ◌+◌, ◌^◌, ◌<◌, ◌≤◌, ◌∷◌, [], None, Some, length, OnOk, IsOk, IsErrOf};
ghost use Rattle.mld_io.specs.Arm.{Metered};
ghost use Rattle.mld_io.specs.Disk.{Log, Writes, Syncs, LeavesMeanwhile, IsSettled, Wrote, bytes_of, grown, seen};
ghost use Rattle.journal_store.specs.Closing.{WasCalled, StaysTold};
ghost use Rattle.journal_store.specs.CallEnds.{EndsBehindFirst};
ghost use Rattle.journal_store.specs.Device.{IsAppending, IsFilling, HasBytes, appended, filled};

use crate::faults::Why;
use mld_io::{Banks, IoFault, Side};
use std::alloc::AllocError;

/// How calls on a device ended that were not all done.
#[derive(Clone, Copy, Debug, PartialEq, Eq)]
pub(crate) enum Stop {
    /// There was no memory for the first of them, and nothing has changed.
    Before,
    /// One was refused, and a part of them may be done.
    Within(Why),
}

impl From<AllocError> for Stop {
    ghost use Rattle.journal_store.specs.declared.device.Stop.TheVariants.{Before};

    ghost from_gives = { λ _ e. e ≡ Before };

    fn from(_fault: AllocError) -> Stop {
        Stop::Before
    }
}

/// Writes a piece over the bytes of a side from a place on, and syncs the side.
fn write_body<B: Banks>(banks: &mut B, side: Side, at: u64, piece: &[u8]) -> Result<(), IoFault>
    requires { (l : Log) → B.log banks.old ≡ Some l → at ≤ length (bytes_of side (seen l)) }
    ensures small { OnOk result (at + length piece.now < 2 ^ 64) }
    ensures done { (l : Log) → B.log banks.old ≡ Some l
        → OnOk result (Syncs side (grown (Wrote side at piece.now) l) (B.log banks.new)) }
    ensures failed { (l : Log) → B.log banks.old ≡ Some l
        → IsErrOf result IoFault.Failed → Writes side at piece.now l (B.log banks.new) }
    ensures no_memory { IsErrOf result IoFault.NoMemory → banks.new ≡ banks.old }
    ensures untold { B.log banks.old ≡ None → B.log banks.new ≡ None }
    ensures meter { Metered 2 (B.meter banks.old) (B.meter banks.new) (IsOk result) (IsErrOf result IoFault.Failed) }
{
    banks.write_at(side, at, piece)?;
    banks.sync(side)
}

/// Opens the gate at a place of a side.
fn open_gate<B: Banks>(banks: &mut B, side: Side, gate: u64) -> Result<(), IoFault>
    requires { (l : Log) → B.log banks.old ≡ Some l → gate ≤ length (bytes_of side (seen l)) }
    ensures done { (l : Log) → B.log banks.old ≡ Some l
        → OnOk result (Syncs side (grown (Wrote side gate (1 ∷ [])) l) (B.log banks.new)) }
    ensures failed { (l : Log) → B.log banks.old ≡ Some l
        → IsErrOf result IoFault.Failed → Writes side gate (1 ∷ []) l (B.log banks.new) }
    ensures no_memory { IsErrOf result IoFault.NoMemory → banks.new ≡ banks.old }
    ensures untold { B.log banks.old ≡ None → B.log banks.new ≡ None }
    ensures meter { Metered 2 (B.meter banks.old) (B.meter banks.new) (IsOk result) (IsErrOf result IoFault.Failed) }
{
    write_body(banks, side, gate, &[1])
}

/// Shuts the first gate of a side.
fn shut_gate<B: Banks>(banks: &mut B, side: Side) -> Result<(), IoFault>
    ensures done { (l : Log) → B.log banks.old ≡ Some l
        → OnOk result (Syncs side (grown (Wrote side 0 (0 ∷ [])) l) (B.log banks.new)) }
    ensures failed { (l : Log) → B.log banks.old ≡ Some l
        → IsErrOf result IoFault.Failed → Writes side 0 (0 ∷ []) l (B.log banks.new) }
    ensures no_memory { IsErrOf result IoFault.NoMemory → banks.new ≡ banks.old }
    ensures untold { B.log banks.old ≡ None → B.log banks.new ≡ None }
    ensures meter { Metered 2 (B.meter banks.old) (B.meter banks.new) (IsOk result) (IsErrOf result IoFault.Failed) }
{
    write_body(banks, side, 0, &[0])
}

/// Puts a body behind a standing gate that is shut, and opens the gate. The body has its own last gate.
pub(crate) fn append_body<B: Banks>(
    banks: &mut B,
    side: Side,
    gate: u64,
    body: &[u8],
) -> Result<(), Stop>
    requires room { gate + 1 < 2 ^ 64 }
    requires gate { (l : Log) → B.log banks.old ≡ Some l → gate < length (bytes_of side (seen l)) }
    ensures small { OnOk result (gate + 1 + length body.now < 2 ^ 64) }
    ensures done { (l : Log) → B.log banks.old ≡ Some l → IsSettled l
        → OnOk result (HasBytes side (appended gate body.now (bytes_of side (seen l))) l (B.log banks.new)) }
    ensures moments { (l : Log) → B.log banks.old ≡ Some l → IsSettled l
        → LeavesMeanwhile l (B.log banks.new) (IsAppending (B.meter banks.old).arm side gate body.now (seen l)) }
    ensures before { IsErrOf result Stop.Before → banks.new ≡ banks.old }
    ensures called { EndsBehindFirst result → WasCalled B.log B.meter banks.old banks.new }
    ensures told { StaysTold (B.log banks.old) (B.log banks.new) }
    ensures meter { Metered 4 (B.meter banks.old) (B.meter banks.new)
        (IsOk result) (IsErrOf result (Stop.Within Why.Device)) }
{
    match write_body(banks, side, gate + 1, body) {
        Ok(()) => {}
        Err(IoFault::Failed) => return Err(Stop::Within(Why::Device)),
        Err(IoFault::NoMemory) => return Err(Stop::Before),
    }
    within(open_gate(banks, side, gate))
}

/// How calls ended of which some were done before.
fn within(last: Result<(), IoFault>) -> Result<(), Stop>
    ensures ok { IsOk last ↔ IsOk result }
    ensures device { IsErrOf last IoFault.Failed ↔ IsErrOf result (Stop.Within Why.Device) }
    ensures no_memory { IsErrOf last IoFault.NoMemory ↔ IsErrOf result (Stop.Within Why.NoMemory) }
{
    match last {
        Ok(()) => Ok(()),
        Err(IoFault::Failed) => Err(Stop::Within(Why::Device)),
        Err(IoFault::NoMemory) => Err(Stop::Within(Why::NoMemory)),
    }
}

/// Writes a side anew: shuts its first gate, puts a body behind it, and opens it. The body has its own last gate.
pub(crate) fn fill_side<B: Banks>(banks: &mut B, side: Side, body: &[u8]) -> Result<(), Stop>
    ensures small { OnOk result (1 + length body.now < 2 ^ 64) }
    ensures done { (l : Log) → B.log banks.old ≡ Some l → IsSettled l
        → OnOk result (HasBytes side (filled body.now (bytes_of side (seen l))) l (B.log banks.new)) }
    ensures moments { (l : Log) → B.log banks.old ≡ Some l → IsSettled l
        → LeavesMeanwhile l (B.log banks.new) (IsFilling (B.meter banks.old).arm side body.now (seen l)) }
    ensures before { IsErrOf result Stop.Before → banks.new ≡ banks.old }
    ensures called { EndsBehindFirst result → WasCalled B.log B.meter banks.old banks.new }
    ensures told { StaysTold (B.log banks.old) (B.log banks.new) }
    ensures meter { Metered 6 (B.meter banks.old) (B.meter banks.new)
        (IsOk result) (IsErrOf result (Stop.Within Why.Device)) }
{
    match shut_gate(banks, side) {
        Ok(()) => {}
        Err(IoFault::Failed) => return Err(Stop::Within(Why::Device)),
        Err(IoFault::NoMemory) => return Err(Stop::Before),
    }
    begun(append_body(banks, side, 0, body))
}

/// How calls ended before which some were done.
fn begun(rest: Result<(), Stop>) -> Result<(), Stop>
    ensures ok { IsOk rest ↔ IsOk result }
    ensures device { IsErrOf rest (Stop.Within Why.Device) ↔ IsErrOf result (Stop.Within Why.Device) }
    ensures not_before { IsErrOf result Stop.Before → ⊥ }
{
    match rest {
        Err(Stop::Before) => Err(Stop::Within(Why::NoMemory)),
        other => other,
    }
}
