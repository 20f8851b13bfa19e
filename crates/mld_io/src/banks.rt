//! Devices with two sides of bytes, which keep what they are given and may crash.
ghost use Rattle.std.specs.Prelude.{◌≡◌, ◌↔◌, ◌+◌, ◌^◌, ◌<◌, ◌≤◌, Option, None, Some, length, take, drop, IsTrue, IsOk, IfOk, OnOk, IsErrOf, IsSome};
ghost use Rattle.mld_io.specs.Arm.{Meter, Caught, Metered, armed, revived};
ghost use Rattle.mld_io.specs.Disk.{Log, Writes, Revives, Syncs, Wrote, bytes_of, grown, seen};

use crate::faults::IoFault;

/// One of the two sides of a device.
#[derive(Clone, Copy, Debug, PartialEq, Eq)]
pub enum Side {
    A,
    B,
}

/// What a crash leaves of the writes that are not synced.
#[derive(Clone, Copy, Debug, PartialEq, Eq)]
pub enum Leave {
    /// None of them.
    Lose,
    /// All of them.
    Keep,
    /// A part of each of them.
    Torn,
}

/// A device with two sides of bytes. What is written may be lost by a crash until its side is
/// synced.
pub trait Banks: Drop {
    /// The sides that it had at first and the calls since, where it tells them. A bank that tells
    /// them is honest: its reads give what they make, and a crash leaves no more than they allow.
    ghost log: { Self → Option Log };

    /// The counts of faults, and how the bank is armed.
    ghost meter: { Self → Meter };

    /// How many bytes a side has.
    ///
    /// # Errors
    ///
    /// `Failed` where the device failed, which counts as a fault, and `NoMemory`.
    fn len(&mut self, side: Side) -> Result<u64, IoFault>
        ensures length { (l : Log) → log self.old ≡ Some l → IfOk result (λ n. n ≡ length (bytes_of side (seen l))) }
        ensures log { log self.new ≡ log self.old }
        ensures no_memory { IsErrOf result IoFault.NoMemory → self.new ≡ self.old }
        ensures meter { Metered 0 (meter self.old) (meter self.new) (IsOk result) (IsErrOf result IoFault.Failed) }
        ensures stops { (meter self.old).arm ≡ Caught → IsErrOf result IoFault.Failed };

    /// Fills `out` with the bytes of a side from this place on. It takes no memory.
    ///
    /// # Errors
    ///
    /// `Failed` where the device failed, which counts as a fault.
    fn read_at(&mut self, side: Side, at: u64, out: &mut [u8]) -> Result<(), IoFault>
        requires { (l : Log) → log self.old ≡ Some l → at + length out.old ≤ length (bytes_of side (seen l)) }
        ensures bytes { (l : Log) → log self.old ≡ Some l
            → OnOk result (out.new ≡ take (length out.old) (drop at (bytes_of side (seen l)))) }
        ensures log { log self.new ≡ log self.old }
        ensures no_memory { IsErrOf result IoFault.NoMemory → ⊥ }
        ensures meter { Metered 0 (meter self.old) (meter self.new) (IsOk result) (IsErrOf result IoFault.Failed) }
        ensures stops { (meter self.old).arm ≡ Caught → IsErrOf result IoFault.Failed };

    /// Writes the piece over the bytes of a side from this place on, and past their end where it
    /// is longer. Place and length together are below 2^64 where it is done.
    ///
    /// # Errors
    ///
    /// `Failed` where the device failed, which counts as a fault: any part of the write may be
    /// done. `NoMemory` leaves the bank as it was.
    fn write_at(&mut self, side: Side, at: u64, piece: &[u8]) -> Result<(), IoFault>
        requires { (l : Log) → log self.old ≡ Some l → at ≤ length (bytes_of side (seen l)) }
        ensures small { OnOk result (at + length piece.now < 2 ^ 64) }
        ensures done { (l : Log) → log self.old ≡ Some l
            → OnOk result (log self.new ≡ Some (grown (Wrote side at piece.now) l)) }
        ensures failed { (l : Log) → log self.old ≡ Some l → IsErrOf result IoFault.Failed
            → Writes side at piece.now l (log self.new) }
        ensures no_memory { IsErrOf result IoFault.NoMemory → self.new ≡ self.old }
        ensures untold { log self.old ≡ None → log self.new ≡ None }
        ensures meter { Metered 1 (meter self.old) (meter self.new) (IsOk result) (IsErrOf result IoFault.Failed) }
        ensures stops { (meter self.old).arm ≡ Caught → IsErrOf result IoFault.Failed };

    /// Makes the bytes of a side durable: a crash leaves them as reads give them. It takes no
    /// memory.
    ///
    /// # Errors
    ///
    /// `Failed` where the device failed, which counts as a fault: a crash may then leave what it
    /// might have left before.
    fn sync(&mut self, side: Side) -> Result<(), IoFault>
        ensures done { (l : Log) → log self.old ≡ Some l → OnOk result (Syncs side l (log self.new)) }
        ensures failed { IsErrOf result IoFault.Failed → log self.new ≡ log self.old }
        ensures no_memory { IsErrOf result IoFault.NoMemory → ⊥ }
        ensures untold { log self.old ≡ None → log self.new ≡ None }
        ensures meter { Metered 1 (meter self.old) (meter self.new) (IsOk result) (IsErrOf result IoFault.Failed) }
        ensures stops { (meter self.old).arm ≡ Caught → IsErrOf result IoFault.Failed };
}

/// Banks that can be made to crash, for tries of what stands above them. They are always honest.
pub trait CrashBanks: Banks {
    /// Has so many calls of `write_at` and `sync` done, and catches the next one: it and all later
    /// calls fail until `revive`, which then leaves this much of the writes that aren't synced. A
    /// bank that has caught a call stays so.
    fn arm(&mut self, calls: u32, leave: Leave)
        ensures log { Self.log self.new ≡ Self.log self.old }
        ensures meter { Self.meter self.new ≡ armed calls leave (Self.meter self.old) };

    /// Whether a call was caught.
    fn stopped(&self) -> bool
        ensures { IsTrue result ↔ ((Self.meter self.now).arm ≡ Caught) };

    /// Cuts the power and brings it back: reads then give one of the pairs of sides that a crash
    /// may leave, that pair is stable, and nothing is armed.
    fn revive(&mut self)
        ensures cut { (l : Log) → Self.log self.old ≡ Some l → Revives l (Self.log self.new) }
        ensures meter { Self.meter self.new ≡ revived (Self.meter self.old) };

    /// They tell their log always.
    ghost tells: { (banks : Self) → IsSome (Self.log banks) };
}
