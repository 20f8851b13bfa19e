//! The run of the schedule of a seed: its lines are in memory, nobody gets its replies, and counts of its world are written at its end.
ghost use Rattle.std.specs.Prelude.{◌≡◌, ◌≢◌, ◌≤◌, ◌+◌, ℕ, List, Option, Some, None, IsTrue, IfOk, IfErr, IfSome, OnOk, OnErr, take, vec_len};
ghost use Rattle.std.specs.Io.KnownBytes.{Appends};
ghost use Rattle.mld_io.specs.Lines.{lines_of};
ghost use Rattle.mld_model.specs.World.{clone_count};
ghost use Rattle.net_world.specs.CrashedWorlds.{AreUnarmed};
ghost use Rattle.schedule_generator.specs.Generated.{generated, text_of};
ghost use Rattle.schedule_text.specs.schedule_model.Runs.{Outcome, Verdict};
ghost use Rattle.mld_replay.specs.BankFaults.{ReturnsBanks};
ghost use Rattle.mld_replay.specs.Counts.{counts_text};
ghost use Rattle.mld_replay.specs.Filled.{RefusesFilledBanks};
ghost use Rattle.mld_replay.specs.GeneratedRuns.{EndsGenerated, IsFaultWithin, IsCountFault, ReportsCounts};
ghost use Rattle.mld_replay.specs.Ran.{replay_status, tells, ReplayEnds, says_of, Agrees, CountsWrites};
ghost use Rattle.mld_replay.specs.ReplayWords.{command_limit};

use crate::counts::counts_text;
use crate::edges::{NoSink, TextSource};
use crate::run::{Ran, RunFault, end_run, run_replay};
use mld_io::{CrashBanks, Sink, write_all};
use net_world::CloneSummary;
use schedule_generator::{generate, text_of};
use std::alloc::{AllocError, Global};
use std::thread::Threads;

/// Runs the schedule of a seed, which has so many commands, and writes its counts once its last line is done.
pub fn run_generated<R: Threads + Sync, K: Sink, B: CrashBanks>(
    rt: &R,
    alloc: Global,
    seed: u64,
    count: u32,
    sink: &mut K,
    banks: Vec<B>,
) -> Ran<B>
    requires banks { (vec_len banks ≡ clone_count) × AreUnarmed B.meter banks.items }
    requires few { count ≤ command_limit }
    ensures status { result.status ≡ replay_status result.fault }
    ensures ends { EndsGenerated (says_of B.log banks.items result) result.fault (generated seed count)
        (K.held sink.old) (K.held sink.new) }
    ensures filled { RefusesFilledBanks B.log banks.items result.banks.items result.fault (sink.new ≡ sink.old) }
    ensures untouched { (clone : ℕ) → result.fault ≡ Some (RunFault.NotEmpty clone) → sink.new ≡ sink.old }
    ensures back { ReturnsBanks B.meter banks.items result.banks.items result.fault }
    ensures silent { ¬ IsTrue (tells result.fault) → result.world ≡ None }
    ensures counts { CountsWrites (K.faults sink.old) (K.faults sink.new) result.fault }
    ensures exact { (outcome : Outcome) → Verdict (generated seed count) outcome → Agrees result.fault outcome }
{
    match schedule_text(alloc, seed, count) {
        Ok(text) => {
            let ran = run_text(rt, alloc, text, banks);
            report(alloc, u64::from(count) + 1, sink, ran)
        }
        Err(AllocError) => end_run(Some(RunFault::NoMemory), banks, None),
    }
}

/// The text of the schedule of a seed, which has so many commands.
fn schedule_text(alloc: Global, seed: u64, count: u32) -> Result<Vec<u8>, AllocError>
    ensures { IfOk result (λ text. text.items ≡ text_of (generated seed count)) }
{
    let lines = generate(alloc, seed, count)?;
    text_of(alloc, &lines)
}

/// Runs over the lines of a text. Nobody gets their replies.
fn run_text<R: Threads + Sync, B: CrashBanks>(
    rt: &R,
    alloc: Global,
    text: Vec<u8>,
    banks: Vec<B>,
) -> Ran<B>
    requires { (vec_len banks ≡ clone_count) × AreUnarmed B.meter banks.items }
    ensures status { result.status ≡ replay_status result.fault }
    ensures within { IfSome result.fault IsFaultWithin }
    ensures ends { (left : Option (List ℕ))
        × ReplayEnds (says_of B.log banks.items result) result.fault text.items left None None }
    ensures filled { RefusesFilledBanks B.log banks.items result.banks.items result.fault (Unit {0}) }
    ensures back { ReturnsBanks B.meter banks.items result.banks.items result.fault }
    ensures silent { ¬ IsTrue (tells result.fault) → result.world ≡ None }
    ensures exact { (outcome : Outcome) → Verdict (lines_of text.items) outcome → Agrees result.fault outcome }
{
    let mut source = TextSource::new(text);
    let mut sink = NoSink;
    run_replay(rt, alloc, &mut source, &mut sink, banks)
}

/// A run of so many lines, whose counts are written where it ended well. Where they aren't, it ended by that.
fn report<K: Sink, B>(alloc: Global, lines: u64, sink: &mut K, ran: Ran<B>) -> Ran<B>
    ensures status { ran.status ≡ replay_status ran.fault → result.status ≡ replay_status result.fault }
    ensures reports { ReportsCounts ran result lines (sink.new ≡ sink.old)
        (K.held sink.old) (K.held sink.new) (K.faults sink.old) (K.faults sink.new) }
{
    let written = match (ran.fault, &ran.world) {
        (None, Some(summary)) => write_counts(alloc, lines, sink, &summary.clones),
        _ => return ran,
    };
    match written {
        Ok(()) => ran,
        Err(fault) => {
            let Ran { banks, .. } = ran;
            end_run(Some(fault), banks, None)
        }
    }
}

/// Writes the counts of a schedule of so many lines, by what is told of its clones.
fn write_counts<K: Sink>(
    alloc: Global,
    lines: u64,
    sink: &mut K,
    clones: &[CloneSummary],
) -> Result<(), RunFault>
    ensures ok { OnOk result (Appends (K.held sink.old) (K.held sink.new) (counts_text lines clones.now)) }
    ensures err { OnErr result ((size : ℕ)
        × Appends (K.held sink.old) (K.held sink.new) (take size (counts_text lines clones.now))) }
    ensures fault { IfErr result (IsCountFault (K.faults sink.old) (K.faults sink.new)) }
    ensures quiet { OnOk result (K.faults sink.new ≡ K.faults sink.old) }
{
    let text = counts_text(alloc, lines, clones)?;
    write_all(sink, &text)?;
    Ok(())
}
