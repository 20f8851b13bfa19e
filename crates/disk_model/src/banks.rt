//! A bank in memory.
ghost use Rattle.std.specs.Prelude.{◌≡◌, ◌+◌, ◌^◌, ◌<◌, ◌≤◌, ◌++◌, [], ◌∷◌, None, Some, Ok, length, take, drop, replicate, IsOk, IfOk, OnOk, OnErr, IsErrOf, refl};
ghost use Rattle.mld_io.specs.Arm.{Caught, Metered, armed, revived};
ghost use Rattle.mld_io.specs.Disk.{Log, Writes, Revives, Syncs, Wrote, bytes_of, grown, seen};
ghost use Rattle.disk_model.specs.CountedCalls.{armed_calls, leave_of, meter_of, revived_calls};
ghost use Rattle.disk_model.specs.BankSteps.{ReadMoves, WriteMoves, SyncMoves, blank_bank, memory_log, read_of, whole_bank};
ghost use Rattle.disk_model.specs.SideSteps.{left_by};
ghost use Rattle.disk_model.specs.Store.{cut};

use crate::calls::Calls;
use crate::store::Store;
use mld_io::{Banks, CrashBanks, IoFault, Leave, Side};
use std::alloc::{AllocError, Global};
use std::marker::Model;

/// A device of two sides in memory, of which chosen calls fail, and which can be made to crash.
///
/// A crash leaves what the arm says: nothing of each unsynced write, all of it, or its first half
/// and then bytes 255. Where the bank isn't armed it leaves nothing.
#[derive(Debug, Drop)]
pub struct MemoryBanks {
    store: Store,
    calls: Calls,
}

impl Model for MemoryBanks {
    ghost use Rattle.disk_model.specs.BankSteps.{BanksValue};

    ghost Value = { BanksValue };

    ghost view = { λ m. record { store = m.store; calls = m.calls } };
}

impl MemoryBanks {
    /// A bank whose sides have no bytes, which takes no memory.
    pub fn blank(alloc: Global) -> MemoryBanks
        ensures { result ≡ blank_bank }
    {
        MemoryBanks {
            store: Store::blank(alloc),
            calls: Calls::new(alloc),
        }
    }

    /// A bank whose sides have these bytes, all of them durable.
    pub fn with_bytes(alloc: Global, a: &[u8], b: &[u8]) -> Result<MemoryBanks, AllocError>
        ensures { IfOk result (λ m. m ≡ whole_bank (record { a = a.now; b = b.now })) }
    {
        Ok(MemoryBanks {
            store: Store::with_bytes(alloc, a, b)?,
            calls: Calls::new(alloc),
        })
    }

    /// Has the call of this number fail, where the first call since making has number 0. A call
    /// that answers want of memory has no number.
    pub fn fail_call(&mut self, call: u64) -> Result<(), AllocError>
        ensures ok { OnOk result (self.new
            ≡ record self.old { calls = record self.old.calls { fails = self.old.calls.fails ++ call ∷ [] } }) }
        ensures err { OnErr result (self.new ≡ self.old) }
    {
        self.calls.fail(call)
    }

    /// What reads give of a side.
    pub fn bytes(&self, side: Side) -> &[u8]
        ensures { result.now ≡ bytes_of side (seen (memory_log self.now)) }
    {
        self.store.bytes(side)
    }

    /// How many bytes a side has.
    fn size(&mut self, side: Side) -> Result<u64, IoFault>
        ensures length { IfOk result (λ n. n ≡ length (read_of side self.old)) }
        ensures moves { ReadMoves self.old result self.new }
    {
        self.calls.begin()?;
        self.calls.end_read();
        Ok(self.store.bytes(side).len() as u64)
    }

    /// Fills `out` with the bytes of a side from this place on.
    fn read(&mut self, side: Side, at: u64, out: &mut [u8]) -> Result<(), IoFault>
        requires { at + length out.old ≤ length (read_of side self.old) }
        ensures bytes { OnOk result (out.new ≡ take (length out.old) (drop at (read_of side self.old))) }
        ensures moves { ReadMoves self.old result self.new }
    {
        self.calls.begin()?;
        self.calls.end_read();
        copy_from(self.store.bytes(side), at as usize, out);
        Ok(())
    }

    /// Writes the piece on a side, also where it is then caught.
    fn write(&mut self, side: Side, at: u64, piece: &[u8]) -> Result<(), IoFault>
        requires { at ≤ length (read_of side self.old) }
        ensures small { OnOk result (at + length piece.now < 2 ^ 64) }
        ensures moves { WriteMoves side at piece.now self.old result self.new }
    {
        self.calls.begin()?;
        self.store.write(side, at as usize, piece)?;
        self.calls.end_change()
    }

    /// Makes what reads give of a side durable, where it isn't caught.
    fn sync_side(&mut self, side: Side) -> Result<(), IoFault>
        ensures { SyncMoves side self.old result self.new }
    {
        self.calls.begin()?;
        self.calls.end_change()?;
        self.store.sync(side);
        Ok(())
    }
}

impl Banks for MemoryBanks {
    ghost log = { λ m. Some (memory_log m) };

    ghost meter = { λ m. meter_of m.calls };

    fn len(&mut self, side: Side) -> Result<u64, IoFault>
        ensures length { (l : Log) → Some (memory_log self.old) ≡ Some l
            → IfOk result (λ n. n ≡ length (bytes_of side (seen l))) }
        ensures log { Some (memory_log self.new) ≡ Some (memory_log self.old) }
        ensures no_memory { IsErrOf result IoFault.NoMemory → self.new ≡ self.old }
        ensures meter { Metered 0 (meter_of self.old.calls) (meter_of self.new.calls) (IsOk result)
            (IsErrOf result IoFault.Failed) }
        ensures stops { (meter_of self.old.calls).arm ≡ Caught → IsErrOf result IoFault.Failed }
        ensures moves { ReadMoves self.old result self.new }
    {
        self.size(side)
    }

    fn read_at(&mut self, side: Side, at: u64, out: &mut [u8]) -> Result<(), IoFault>
        requires { (l : Log) → Some (memory_log self.old) ≡ Some l
            → at + length out.old ≤ length (bytes_of side (seen l)) }
        ensures bytes { (l : Log) → Some (memory_log self.old) ≡ Some l
            → OnOk result (out.new ≡ take (length out.old) (drop at (bytes_of side (seen l)))) }
        ensures log { Some (memory_log self.new) ≡ Some (memory_log self.old) }
        ensures no_memory { IsErrOf result IoFault.NoMemory → ⊥ }
        ensures meter { Metered 0 (meter_of self.old.calls) (meter_of self.new.calls) (IsOk result)
            (IsErrOf result IoFault.Failed) }
        ensures stops { (meter_of self.old.calls).arm ≡ Caught → IsErrOf result IoFault.Failed }
        ensures moves { ReadMoves self.old result self.new }
    {
        self.read(side, at, out)
    }

    fn write_at(&mut self, side: Side, at: u64, piece: &[u8]) -> Result<(), IoFault>
        requires { (l : Log) → Some (memory_log self.old) ≡ Some l → at ≤ length (bytes_of side (seen l)) }
        ensures small { OnOk result (at + length piece.now < 2 ^ 64) }
        ensures done { (l : Log) → Some (memory_log self.old) ≡ Some l
            → OnOk result (Some (memory_log self.new) ≡ Some (grown (Wrote side at piece.now) l)) }
        ensures failed { (l : Log) → Some (memory_log self.old) ≡ Some l → IsErrOf result IoFault.Failed
            → Writes side at piece.now l (Some (memory_log self.new)) }
        ensures no_memory { IsErrOf result IoFault.NoMemory → self.new ≡ self.old }
        ensures untold { Some (memory_log self.old) ≡ None → Some (memory_log self.new) ≡ None }
        ensures meter { Metered 1 (meter_of self.old.calls) (meter_of self.new.calls) (IsOk result)
            (IsErrOf result IoFault.Failed) }
        ensures stops { (meter_of self.old.calls).arm ≡ Caught → IsErrOf result IoFault.Failed }
        ensures moves { WriteMoves side at piece.now self.old result self.new }
    {
        self.write(side, at, piece)
    }

    fn sync(&mut self, side: Side) -> Result<(), IoFault>
        ensures done { (l : Log) → Some (memory_log self.old) ≡ Some l
            → OnOk result (Syncs side l (Some (memory_log self.new))) }
        ensures failed { IsErrOf result IoFault.Failed → Some (memory_log self.new) ≡ Some (memory_log self.old) }
        ensures no_memory { IsErrOf result IoFault.NoMemory → ⊥ }
        ensures untold { Some (memory_log self.old) ≡ None → Some (memory_log self.new) ≡ None }
        ensures meter { Metered 1 (meter_of self.old.calls) (meter_of self.new.calls) (IsOk result)
            (IsErrOf result IoFault.Failed) }
        ensures stops { (meter_of self.old.calls).arm ≡ Caught → IsErrOf result IoFault.Failed }
        ensures moves { SyncMoves side self.old result self.new }
    {
        self.sync_side(side)
    }
}

impl CrashBanks for MemoryBanks {
    fn arm(&mut self, calls: u32, leave: Leave)
        ensures log { Some (memory_log self.new) ≡ Some (memory_log self.old) }
        ensures meter { meter_of self.new.calls ≡ armed calls leave (meter_of self.old.calls) }
        ensures moves { self.new ≡ record self.old { calls = armed_calls calls leave self.old.calls } }
    {
        self.calls.arm(calls, leave);
    }

    fn stopped(&self) -> bool {
        self.calls.is_caught()
    }

    /// It leaves of the unsynced writes what the arm says, and nothing where there is none.
    fn revive(&mut self)
        ensures cut { (l : Log) → Some (memory_log self.old) ≡ Some l → Revives l (Some (memory_log self.new)) }
        ensures meter { meter_of self.new.calls ≡ revived (meter_of self.old.calls) }
        ensures leaves { seen (memory_log self.new)
            ≡ left_by (leave_of self.old.calls.arming) self.old.store.first self.old.store.steps }
        ensures moves { self.new ≡ record self.old {
          store = cut (leave_of self.old.calls.arming) self.old.store;
          calls = revived_calls self.old.calls;
        } }
    {
        self.store.cut(self.calls.leave());
        self.calls.revive();
    }

    ghost tells = { λ m. refl };
}

/// Copies the bytes from this place on.
fn copy_from(bytes: &[u8], at: usize, out: &mut [u8])
    requires { at + length out.old ≤ length bytes.now }
    ensures { out.new ≡ take (length out.old) (drop at bytes.now) }
{
    out.copy_from_slice(&bytes[at..at + out.len()]);
}

/// So many blank banks: neither side has a byte, no call was made and none is to fail, no fault is
/// counted, and none is armed.
pub fn blank_banks(alloc: Global, count: usize) -> Result<Vec<MemoryBanks>, AllocError>
    ensures { IfOk result (λ banks. banks.items ≡ replicate count blank_bank) }
{
    let mut banks = Vec::with_capacity(alloc, count)?;
    for _ in 0..count {
        banks.push_reserved(MemoryBanks::blank(alloc));
    }
    Ok(banks)
}
