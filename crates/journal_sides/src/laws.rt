//! Laws of the bytes of a side, which hold for all values and all bytes. These functions do nothing: their clauses are the laws.
ghost use Rattle.std.specs.Prelude.{◌≡◌, ◌≢◌, ℕ, ◌∷◌, ◌++◌, List};
ghost use Rattle.op_codec.specs.CodecLaws.{AreBytes};
ghost use Rattle.journal_sides.specs.Format.{open_gate};
ghost use Rattle.journal_sides.specs.SideReadings.{IsOpen, Volume, volume_bytes, read_side};
ghost use Rattle.journal_sides.specs.StoredVolumes.{IsWrittenSide, IsVolume};

/// An open side is read as what was written on it, whatever stands behind its closed gate, and what is read as one was
/// written so.
pub fn one_volume()
    ensures back { (volume : Volume) (gate : ℕ) (junk : List ℕ) → IsVolume volume → gate ≢ open_gate
        → read_side (volume_bytes volume ++ gate ∷ junk) ≡ IsOpen volume }
    ensures one { (bytes : List ℕ) (volume : Volume) → AreBytes bytes → read_side bytes ≡ IsOpen volume
        → IsWrittenSide bytes volume }
{}
