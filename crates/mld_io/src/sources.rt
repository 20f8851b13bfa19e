//! Where bytes come from.
ghost use Rattle.std.specs.Prelude.{ℕ, List, Option};
ghost use Rattle.std.specs.Io.{ReadsAtMost};
ghost use Rattle.std.specs.Io.KnownBytes.{ReadConsumes};
ghost use Rattle.mld_io.specs.Faults.{HasCause};

use crate::faults::Failed;

/// What gives bytes until its end.
pub trait Source {
    /// The bytes that are left, where the source tells them.
    ghost left: { Self → Option (List ℕ) };

    /// How many faults there were. A count that has come to 2^64-1 stays there.
    ghost faults: { Self → ℕ };

    /// Takes a front of the bytes that are left, and puts it at the front of `out`. With room in
    /// `out` it answers 0 only at the end. A failed read takes none.
    fn read(&mut self, out: &mut [u8]) -> Result<usize, Failed>
        ensures bound { ReadsAtMost result out.new }
        ensures bytes { ReadConsumes (left self.old) (left self.new) result out.new }
        ensures cause { HasCause (faults self.old) (faults self.new) result };
}
