//! Connections over which bytes come and go.
ghost use Rattle.std.specs.Prelude.{◌≡◌, ℕ, ◌-◌, ◌^◌, ◌<◌, Option, None, Some, IfOk, IsErrOf, IsTrue};
ghost use Rattle.mld_io.specs.Faults.{HasSinkCause};
ghost use Rattle.mld_io.specs.Wires.{WireLog, TakesEvent, CountsEvent, TellsSent, after_shut, is_event};

use crate::events::Event;
use crate::faults::IoFault;

/// Connections, which it gives events of, and takes bytes for.
pub trait Wire {
    /// What was done over it, the newest first, where it tells that.
    ghost log: { Self → Option WireLog };

    /// How many events were taken.
    ghost taken: { Self → ℕ };

    /// How many faults there were. A count that has come to 2^64-1 stays there.
    ghost faults: { Self → ℕ };

    /// Takes the next event. A piece has 1 to 65,536 bytes, and a connection that breaks is told as
    /// one that its other end shut.
    ///
    /// # Errors
    ///
    /// `Failed` where the wire failed, which counts as a fault. `NoMemory` leaves the wire as it was. No event is
    /// taken.
    fn next(&mut self) -> Result<Event, IoFault>
        requires { taken self.old < 2 ^ 64 - 1 }
        ensures log { (l : WireLog) → log self.old ≡ Some l → TakesEvent l result (log self.new) }
        ensures untold { log self.old ≡ None → log self.new ≡ None }
        ensures taken { CountsEvent (taken self.old) result (taken self.new) }
        ensures sized { IfOk result (λ event. IsTrue (is_event event)) }
        ensures no_memory { IsErrOf result IoFault.NoMemory → self.new ≡ self.old }
        ensures cause { HasSinkCause (faults self.old) (faults self.new) result };

    /// Sends the whole piece on a connection. What is sent on a connection that is gone is dropped,
    /// and told as sent.
    ///
    /// # Errors
    ///
    /// `Failed` where the wire failed, which counts as a fault. `NoMemory` leaves the wire as it was. Nothing is
    /// told as sent then.
    fn send(&mut self, conn: u32, piece: &[u8]) -> Result<(), IoFault>
        ensures log { (l : WireLog) → log self.old ≡ Some l → TellsSent l conn piece.now result (log self.new) }
        ensures untold { log self.old ≡ None → log self.new ≡ None }
        ensures taken { taken self.new ≡ taken self.old }
        ensures no_memory { IsErrOf result IoFault.NoMemory → self.new ≡ self.old }
        ensures cause { HasSinkCause (faults self.old) (faults self.new) result };

    /// Shuts a connection, behind what was sent on it. One that isn't open stays as it was.
    fn shut(&mut self, conn: u32)
        ensures log { (l : WireLog) → log self.old ≡ Some l → log self.new ≡ Some (after_shut conn l) }
        ensures untold { log self.old ≡ None → log self.new ≡ None }
        ensures taken { taken self.new ≡ taken self.old }
        ensures faults { faults self.new ≡ faults self.old };
}
