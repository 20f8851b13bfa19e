//! Crash lines of the model, and what the crash left.
ghost use Rattle.crash_laws.specs.CrashLaws.{CaughtCrashes, CaughtOpenings, DoneCrashes, CaughtFollows, DoneFollows};

/// A crash line leads by some choice to a world for which what the crash left stands: where a call of its command was caught, with the
/// front of the durable steps that stands; where one of an opening was, with what was kept; and where none was, with all steps. A running
/// world in which the clone is down stands for that world.
pub fn crash_lines_stand()
    ensures caught { CaughtCrashes }
    ensures opening { CaughtOpenings }
    ensures done { DoneCrashes }
    ensures caught_follows { CaughtFollows }
    ensures done_follows { DoneFollows }
{}
