//! Where bytes go.
ghost use Rattle.std.specs.Prelude.{◌≡◌, ℕ, ◌<◌, List, [], Option, length, take, IsOk, IfOk, OnOk, OnErr};
ghost use Rattle.std.specs.Io.{WritesAtMost};
ghost use Rattle.std.specs.Io.KnownBytes.{Appends, WriteAppends};
ghost use Rattle.mld_io.specs.Faults.{HasSinkCause, HasWriteCause};

use crate::faults::{IoFault, WriteFault};

/// What takes bytes.
pub trait Sink {
    /// The bytes written so far, where the sink tells them.
    ghost held: { Self → Option (List ℕ) };

    /// How many faults there were. A count that has come to 2^64-1 stays there.
    ghost faults: { Self → ℕ };

    /// Takes a front of the piece, at least one byte of a piece that is not empty, or refuses it
    /// and takes none.
    ///
    /// # Errors
    ///
    /// `Failed` where the write failed, which counts as a fault, and `NoMemory` where there was no
    /// memory for it.
    fn write(&mut self, piece: &[u8]) -> Result<usize, IoFault>
        ensures bound { WritesAtMost result piece.now }
        ensures some { IfOk result (λ n. 0 < length piece.now → 0 < n) }
        ensures bytes { WriteAppends (held self.old) (held self.new) result piece.now }
        ensures cause { HasSinkCause (faults self.old) (faults self.new) result };
}

/// Writes the whole piece: each call gives the sink all that it has not taken yet, so a sink that
/// takes all is called once. An empty piece leaves the sink as it was.
///
/// # Errors
///
/// What the sink refused a part with. A front of the piece is written by then.
pub fn write_all<K: Sink>(sink: &mut K, piece: &[u8]) -> Result<(), WriteFault>
    ensures ok { OnOk result (Appends (K.held sink.old) (K.held sink.new) piece.now) }
    ensures err { OnErr result ((n : ℕ) × Appends (K.held sink.old) (K.held sink.new) (take n piece.now)) }
    ensures cause { HasWriteCause (K.faults sink.old) (K.faults sink.new) result }
    ensures untouched { piece.now ≡ [] → (sink.new ≡ sink.old) × IsOk result }
{
    let mut done = 0;
    while done < piece.len() {
        done += sink.write(&piece[done..])?;
    }
    Ok(())
}
