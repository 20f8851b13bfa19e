//! A device that is two lists of bytes, so that what a journal costs is seen beside hardly anything else.
ghost use Rattle.std.specs.Prelude.{ℕ, ◌+◌, ◌^◌, ◌<◌, None, length, IsTrue, IsOk, IsErrOf};
ghost use Rattle.mld_io.specs.Arm.{Metered};
ghost use Rattle.measure_journals.specs.PlainMeter.{plain_meter};

use mld_io::{Banks, IoFault, Side};
use std::alloc::Global;

/// Two sides of bytes. It tells nothing of its calls, as a file, so nothing is promised of what is kept on it. A place past the end of a side,
/// and want of memory, are faults of the device.
#[derive(Drop)]
pub struct PlainBanks {
    a: Vec<u8>,
    b: Vec<u8>,
    faults: u64,
}

impl PlainBanks {
    /// A device whose side A has these bytes, and whose side B has none.
    pub fn new(alloc: Global, a: Vec<u8>) -> PlainBanks {
        PlainBanks {
            a,
            b: Vec::new(alloc),
            faults: 0,
        }
    }

    /// The bytes of a side.
    fn side(&self, side: Side) -> &[u8] {
        match side {
            Side::A => self.a.as_slice(),
            Side::B => self.b.as_slice(),
        }
    }
}

/// Fills `out` with the bytes from a place on; whether they are there.
fn copy_from(bytes: &[u8], at: u64, out: &mut [u8]) -> bool {
    let at = at as usize;
    let Some(end) = at.checked_add(out.len()) else {
        return false;
    };
    if bytes.len() < end {
        return false;
    }
    out.copy_from_slice(&bytes[at..end]);
    true
}

/// Puts the piece over the bytes from a place on, and past their end; whether it could.
fn put(bytes: &mut Vec<u8>, at: u64, piece: &[u8]) -> bool
    ensures { IsTrue result → at + length piece.now < 2 ^ 64 }
{
    let at = at as usize;
    let size = bytes.len();
    if size < at || at.checked_add(piece.len()).is_none() {
        return false;
    }
    let over = piece.len().min(size - at);
    if bytes.extend_from_slice(&piece[over..]).is_err() {
        return false;
    }
    bytes[at..at + over].copy_from_slice(&piece[..over]);
    true
}

/// What a call answers that was done or not. One that wasn't is counted.
fn answer(done: bool, faults: &mut u64) -> Result<(), IoFault>
    ensures done { IsOk result → IsTrue done }
    ensures no_memory { IsErrOf result IoFault.NoMemory → ⊥ }
    ensures meter { (calls : ℕ) → Metered calls (plain_meter faults.old) (plain_meter faults.new) (IsOk result) (IsErrOf result IoFault.Failed) }
{
    if done {
        return Ok(());
    }
    *faults = faults.saturating_add(1);
    Err(IoFault::Failed)
}

impl Banks for PlainBanks {
    ghost log = { λ b. None };

    ghost meter = { λ b. plain_meter b.faults };

    fn len(&mut self, side: Side) -> Result<u64, IoFault> {
        Ok(self.side(side).len() as u64)
    }

    fn read_at(&mut self, side: Side, at: u64, out: &mut [u8]) -> Result<(), IoFault> {
        let done = copy_from(self.side(side), at, out);
        answer(done, &mut self.faults)
    }

    fn write_at(&mut self, side: Side, at: u64, piece: &[u8]) -> Result<(), IoFault> {
        if side == Side::A {
            let done = put(&mut self.a, at, piece);
            return answer(done, &mut self.faults);
        }
        let done = put(&mut self.b, at, piece);
        answer(done, &mut self.faults)
    }

    fn sync(&mut self, _side: Side) -> Result<(), IoFault> {
        Ok(())
    }
}
