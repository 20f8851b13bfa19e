//! The next line of an input, under the limits that every program has.
ghost use Rattle.std.specs.Prelude.{◌≡◌, ℕ, [], false, None, IsTrue, IfOk, IfErr, OnOk, OnErr, IsErrOf};
ghost use Rattle.input_lines.specs.TooLarge.{IsUnderLimits, BreaksLimits};
ghost use Rattle.input_lines.specs.Taken.{WhereTold, TakesLine, TellsEnd, Advances};
ghost use Rattle.input_lines.specs.HowFar.{IsBrokenOff};
ghost use Rattle.input_lines.specs.InputFaults.{HasReadCause};

use crate::faults::InputFault;
use mld_io::{LineFault, Lines, Piece, Source};

/// The next line, where line `number` is due; None behind the last.
///
/// # Errors
/// `ReadFault` where the source failed, `TooLarge` where the line breaks a limit, and `NoMemory`.
pub fn next_line<S: Source>(
    lines: &mut Lines,
    source: &mut S,
    number: u64,
) -> Result<Option<Piece>, InputFault>
    requires good { IsTrue lines.old.good }
    requires limits { IsUnderLimits lines.old }
    // The first line of what was left was taken, and it keeps the limits; or there was none.
    ensures line { WhereTold (S.left source.old)
        (λ bytes. IfOk result (TakesLine lines.old.taken bytes (S.left source.new) lines.new.taken)) }
    // There is none only where nothing was left, and the source tells its end in a line that lacks its LF.
    ensures at_end { lines.old.ended ≡ false
        → WhereTold (S.left source.old) (λ bytes. IfOk result (λ line. line ≡ None → bytes ≡ [])) }
    ensures ended { WhereTold (S.left source.old) (λ bytes. IfOk result (TellsEnd lines.new.ended bytes)) }
    ensures failed { OnErr result (lines.old.ended ≡ false) }
    // The line that is too large is the one that was due. Of one that could not be given a part was taken that keeps the limits, and of one
    // that is too large one byte more.
    ensures large { (at : ℕ) → IsErrOf result (InputFault.TooLarge at)
        → (at ≡ number) × WhereTold (S.left source.old) (BreaksLimits lines.old.taken) }
    ensures broken_off { IfErr result (λ fault. WhereTold (S.left source.old)
        (λ bytes. IsBrokenOff lines.old.taken fault bytes (S.left source.new))) }
    ensures good { OnOk result (IsTrue lines.new.good) }
    ensures limits { IsUnderLimits lines.new }
    ensures progress { IfOk result (Advances lines.old.taken lines.new.taken) }
    // `ReadFault` comes just where the source had a fault.
    ensures cause { HasReadCause (S.faults source.old) (S.faults source.new) result }
{
    match lines.next(source) {
        Ok(line) => Ok(line),
        Err(LineFault::ReadFault) => Err(InputFault::ReadFault),
        Err(LineFault::TooLarge) => Err(InputFault::TooLarge(number)),
        Err(LineFault::NoMemory) => Err(InputFault::NoMemory),
    }
}
