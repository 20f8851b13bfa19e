//! Laws of the spellings of clocks, lists of pairs, entries and messages, which hold for all values and all bytes. These
//! functions do nothing: their clauses are the laws.
//!
//! Each has the same three: what is written for a value is read as that value, whatever follows; what is read as a value is
//! what is written for it, so that a value has one spelling; and where reading has a fault nothing that is written for a
//! value comes first.
ghost use Rattle.std.specs.Prelude.{None};
ghost use Rattle.mld_ops.specs.Messages.{MessageValue, IsGoodMessage};
ghost use Rattle.op_codec.specs.Clocks.{clock_bytes, read_clock};
ghost use Rattle.op_codec.specs.Entries.{entry_bytes, read_entry};
ghost use Rattle.op_codec.specs.CodecLaws.{IsReadBack, IsOneSpelling, RefusesRightly};
ghost use Rattle.op_codec.specs.MessageBytes.{message_bytes, read_message};
ghost use Rattle.op_codec.specs.PairBytes.{pairs_bytes, read_pairs};
ghost use Rattle.op_codec.specs.Stored.{IsStoredClock, ArePairs, IsStoredEntry, IsMessage};

/// Clocks.
pub fn one_clock()
    ensures back { IsReadBack IsStoredClock clock_bytes read_clock }
    ensures one { IsOneSpelling IsStoredClock clock_bytes read_clock }
    ensures refusals { RefusesRightly IsStoredClock clock_bytes read_clock }
{}

/// Lists of pairs.
pub fn one_list_of_pairs()
    ensures back { IsReadBack ArePairs pairs_bytes (read_pairs None) }
    ensures one { IsOneSpelling ArePairs pairs_bytes (read_pairs None) }
    ensures refusals { RefusesRightly ArePairs pairs_bytes (read_pairs None) }
{}

/// Entries.
pub fn one_entry()
    ensures back { IsReadBack IsStoredEntry entry_bytes read_entry }
    ensures one { IsOneSpelling IsStoredEntry entry_bytes read_entry }
    ensures refusals { RefusesRightly IsStoredEntry entry_bytes read_entry }
{}

/// Messages. Where one has a snapshot, that may be taken.
pub fn one_message()
    ensures back { IsReadBack IsMessage message_bytes read_message }
    ensures one { IsOneSpelling IsMessage message_bytes read_message }
    ensures refusals { RefusesRightly IsMessage message_bytes read_message }
    ensures good { (message : MessageValue) → IsMessage message → IsGoodMessage message }
{}
