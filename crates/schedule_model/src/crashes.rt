//! What a crash line does beside its command. The function has no code, and its contract is the laws of such lines.
ghost use Rattle.schedule_model.specs.Laws.{ArmedStaysUp, UnarmedStays, CaughtIsQuiet, CrashHasStep};

/// A clone whose device is armed is live or asks once the command of its crash line is done; where no call of its device was caught
/// the clone crashes then, so the line `crashed` follows the reply. Where the device isn't armed nothing changes. Where the reply is
/// `crashed` alone nothing was sent. By each choice a crash line makes a step of a world in which its command makes one.
pub fn crash_lines()
    ensures up { ArmedStaysUp }
    ensures unarmed { UnarmedStays }
    ensures quiet { CaughtIsQuiet }
    ensures some { CrashHasStep }
{}
