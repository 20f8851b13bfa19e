//! The laws of a run of the shell. A function has no code, and its contract is the law.
ghost use Rattle.shell_run.specs.ShellCompleteness.{EndsWithoutFault, ShellIsComplete, ShellReadsFew};

use mld_io::{Banks, Sink, Source};

/// Where the words name a folder, and neither source nor sink nor banks had a fault, a run over lines that aren't too large ends by 0,
/// with the source at its end, all lines done and their whole text written, or by 5; and by 0, 5 or 7 where the source doesn't tell its
/// bytes. It is what the clauses of `shell` say together.
pub fn all_lines_are_done<S: Source, K: Sink, B: Banks>()
    ensures complete { ShellIsComplete (record {
      left = S.left;
      reads = S.faults;
      held = K.held;
      writes = K.faults;
      log = B.log;
      meter = B.meter;
    }) }
    ensures statuses { EndsWithoutFault (record {
      left = S.left;
      reads = S.faults;
      held = K.held;
      writes = K.faults;
      log = B.log;
      meter = B.meter;
    }) }
{}

/// Whatever its end, a run reads at most 16,777,217 bytes of a source that tells its bytes: as many as an input may have, and one. It
/// follows from the clauses of `shell`.
pub fn few_bytes_are_read<S: Source, K: Sink, B: Banks>()
    ensures { ShellReadsFew (record {
      left = S.left;
      reads = S.faults;
      held = K.held;
      writes = K.faults;
      log = B.log;
      meter = B.meter;
    }) }
{}
