//! The run: all that the program does, over the words, the source and the sink that it is handed.
ghost use Rattle.std.specs.Prelude.{◌≡◌, ◌≢◌, ◌↔◌, ◌≤◌, ◌<◌, ◌+◌, ℕ, List, [], None, vec_len, IsTrue, IfErr, OnOk, IsErrOf};
ghost use Rattle.std.specs.Result.{result_err};
ghost use Rattle.mld_io.specs.Lines.{lines_of};
ghost use Rattle.input_lines.specs.Taken.{WhereTold};
ghost use Rattle.input_lines.specs.Untouched.{AreUntouched};
ghost use Rattle.mld_model.specs.World.{clone_count};
ghost use Rattle.schedule_generator.specs.Generated.{generated};
ghost use Rattle.schedule_text.specs.schedule_model.Runs.{Waiting, Outcome, Verdict};
ghost use Rattle.schedule_text.specs.schedule_model.WorldStep.{step_limit};
ghost use Rattle.net_world.specs.CrashedWorlds.{AreUnarmed};
ghost use Rattle.mld_replay.specs.BankFaults.{BringsBack, ReturnsBanks};
ghost use Rattle.mld_replay.specs.Filled.{RefusesFilledBanks};
ghost use Rattle.mld_replay.specs.GeneratedRuns.{AreGivenLines, EndsGenerated};
ghost use Rattle.mld_replay.specs.Ran.{replay_status, tells, IsReplay, ReplayEnds, says_of, Agrees, LeavesAlone, CountsFaults};
ghost use Rattle.mld_replay.specs.ReplayWords.{texts_of, IsGenerate, AreUnknown};
ghost use Rattle.mld_replay.specs.Replaying.{EndsByFault, says_by, IsReplayFault, IsLineFault};
ghost use Rattle.mld_replay.specs.Stages.{StageStands, IsStandingStage, steps_of_stage, banks_of_stage, ActsFrom, EndsFrom, IsBadFrom, OnlyWaits};
ghost use Rattle.mld_replay.specs.Stops.{fault_at_line, FaultLeaves, FaultLeavesAtLine};

use crate::blanks::{blanks_of, find_filled};
use crate::endings::{End, end_of};
use crate::generated::run_generated;
use crate::stages::{Stage, act, finish};
use crate::stops::LineStop;
use crate::words::{Words, read_words};
use input_lines::{INPUT_LIMIT, InputFault, LINE_LIMIT, next_line};
use mld_io::{Banks, CrashBanks, Lines, Sink, Source, WriteFault, write_all};
use net_world::Summary;
use std::alloc::{AllocError, Global};
use std::fmt;
use std::thread::Threads;
use thiserror::Error;

/// Why a run ended before its input did.
#[derive(Clone, Copy, Debug, PartialEq, Eq, Error)]
pub enum RunFault {
    /// The words are none that the program knows.
    Usage,
    /// The source failed.
    ReadFault,
    /// The sink failed.
    WriteFault,
    /// The line of this number is outside the grammar.
    BadLine(u64),
    /// No memory was found.
    NoMemory,
    /// The device of the clone of this number failed.
    Device(u8),
    /// The line of this number is too large.
    TooLarge(u64),
    /// The banks of this number are not empty.
    NotEmpty(u8),
}

/// How a run ended.
#[derive(Drop)]
pub struct Ran<B> {
    /// The status of the program.
    pub status: u8,
    /// Why it isn't 0.
    pub fault: Option<RunFault>,
    /// The banks, in their order; at status 5 there may be none.
    pub banks: Vec<B>,
    /// What there is to tell of the world that it ended with: at the statuses 0, 2, 4 and 7, where the clones were founded.
    pub world: Option<Summary>,
}

/// Does all that the program does: by the word `replay` it reads a schedule from the source and writes the replies; by `gen SEED N` it
/// runs the schedule of a seed, which has N commands (at most 10,000), reads nothing, and writes counts of it at its end. Each clone lives
/// on banks of its own, of which there are as many as clones, and none is armed to crash; they come back in their order.
///
/// # Statuses
/// 0: the source was read to its end, or the counts written. 1: the words are none of these; nothing is read or written. 2: the source
/// failed; the lines whose LF was read are done. 3: the sink failed. 4: a line is outside the grammar, or the input ended
/// before a `domain` line. 5: no memory. 6: the device of the clone that is named failed. 7: a line is too large. 8: banks are not
/// empty; nothing is read or written, and they stay as they were. Each line is answered before the next is read. A failure of a device
/// ends the run by 6, or by 5 with no banks given back; a crash that a line asked for is none.
pub fn run<R: Threads + Sync, S: Source, K: Sink, B: CrashBanks>(
    rt: &R,
    alloc: Global,
    words: &Vec<String>,
    source: &mut S,
    sink: &mut K,
    banks: Vec<B>,
) -> Ran<B>
    requires { (vec_len banks ≡ clone_count) × AreUnarmed B.meter banks.items }
    ensures status { result.status ≡ replay_status result.fault }
    ensures usage { (result.fault ≡ Some RunFault.Usage) ↔ AreUnknown (texts_of words.now.items) }
    // At 1 and 8 nothing is read or written, and at 1 no bank is called.
    ensures untouched { LeavesAlone result.fault
        (AreUntouched source.old source.new sink.old sink.new) (result.banks ≡ banks) }
    // How the run ended, by its fault. The text that was written is that of a run of the model over the first lines, or a front of it.
    //
    // 0: the source is read to its end, and none of its lines is too large. The world that they lead to has the meaning of what each
    // clone knows; clones of it that know the same have the same pairs, each answer of a dot holds in it, and no two hold one leaf.
    // 4 and 7: the line of that number is the first that is bad or too large, and at 4 none up to it is too large. The text is that of the
    // lines before it. 2: the source failed within a line, or before it told its end, and the lines done are those whose LF was read.
    // 3: the line whose reply could not be written was done, and the text is that of the lines before it and a front of that reply. At 0,
    // 2, 4 and 7 the world that the lines done lead to is told of, and at these and 3 the banks keep it.
    //
    // 6: the text is that of the lines before the one under way, which is a command of the clone that is told and needs its device; or clones
    // were being founded, and it was in a step of that clone. Whatever a crash leaves of the banks then has all that these lines made durable,
    // and of the line under way, or of founding, a front of the durable steps; where no line was begun, it is what it might have left before
    // the run. 5: the banks are so too, or as at 3, or none come back.
    //
    // Of the source just these lines were read: at 4 those up to the bad one, at 3 and 6 those up to the one under way. At 2 those done were,
    // and a part of one more, which isn't too large so far; at 7 those done, and the next up to the byte that makes it too large. 5: one of these.
    ensures ends { IsReplay (texts_of words.now.items) → WhereTold (S.left source.old) (λ bytes.
        ReplayEnds (says_of B.log banks.items result) result.fault bytes
        (S.left source.new) (K.held sink.old) (K.held sink.new)) }
    // 8 tells of the first banks with a side that has bytes. Where there are such, the run ends by 8 with their number, by 6 with it or a
    // lower one, or by 1 or 5; no line is read, and the log of each bank stays.
    ensures filled { RefusesFilledBanks B.log banks.items result.banks.items result.fault
        (AreUntouched source.old source.new sink.old sink.new) }
    // Unless memory ran out all banks come back, in order, and at 5 all or none. At 6 those of that clone had one real fault, and no
    // others had any; at any other status none that comes back had one.
    ensures back { ReturnsBanks B.meter banks.items result.banks.items result.fault }
    // At the other statuses nothing is told of the world.
    ensures silent { ¬ IsTrue (tells result.fault) → result.world ≡ None }
    // 2 comes just where the source's count of faults rose, and 3 where the sink's did; but where memory for the summary or the banks
    // was wanting after a failed read or write, the run ended by 5.
    ensures counts { CountsFaults result.fault
        (S.faults source.old) (S.faults source.new) (K.faults sink.old) (K.faults sink.new) }
    // Whatever a verdict on the lines is, by whichever choices at its crash lines, the run ends so, unless it ended by 2, 3, 5, 6, 7 or 8:
    // at its end, or by 4 at that line. The lines are those of the source, or those of the seed.
    ensures exact { (lines : List (List ℕ)) → AreGivenLines (texts_of words.now.items) (S.left source.old) lines
        → (outcome : Outcome) → Verdict lines outcome → Agrees result.fault outcome }
    // By `gen` the source is untouched, whatever the end. 0: the lines of the seed are done, and their counts written; world and banks are
    // those of that world. 3: a front of the counts was written, and the banks keep that world. 5: so too; or nothing was, and the banks
    // are as at 5 of a replay of these lines. 6: so too, as at 6. 2, 4 and 7 never come.
    ensures generated { (seed count : ℕ) → IsGenerate (texts_of words.now.items) seed count
        → (source.new ≡ source.old) × EndsGenerated (says_of B.log banks.items result) result.fault
        (generated seed count) (K.held sink.old) (K.held sink.new) }
{
    match read_words(words) {
        Words::Replay => run_replay(rt, alloc, source, sink, banks),
        Words::Generate(seed, count) => run_generated(rt, alloc, seed, count, sink, banks),
        Words::Unknown => end_run(Some(RunFault::Usage), banks, None),
    }
}

/// Does all that the program does by the word `replay`.
pub fn run_replay<R: Threads + Sync, S: Source, K: Sink, B: CrashBanks>(
    rt: &R,
    alloc: Global,
    source: &mut S,
    sink: &mut K,
    banks: Vec<B>,
) -> Ran<B>
    requires { (vec_len banks ≡ clone_count) × AreUnarmed B.meter banks.items }
    ensures status { result.status ≡ replay_status result.fault }
    ensures known { result.fault ≢ Some RunFault.Usage }
    ensures untouched { LeavesAlone result.fault
        (AreUntouched source.old source.new sink.old sink.new) (result.banks ≡ banks) }
    ensures ends { WhereTold (S.left source.old) (λ bytes.
        ReplayEnds (says_of B.log banks.items result) result.fault bytes
        (S.left source.new) (K.held sink.old) (K.held sink.new)) }
    ensures filled { RefusesFilledBanks B.log banks.items result.banks.items result.fault
        (AreUntouched source.old source.new sink.old sink.new) }
    ensures back { ReturnsBanks B.meter banks.items result.banks.items result.fault }
    ensures silent { ¬ IsTrue (tells result.fault) → result.world ≡ None }
    ensures counts { CountsFaults result.fault
        (S.faults source.old) (S.faults source.new) (K.faults sink.old) (K.faults sink.new) }
    ensures exact { WhereTold (S.left source.old) (λ bytes.
        (outcome : Outcome) → Verdict (lines_of bytes) outcome → Agrees result.fault outcome) }
{
    let mut banks = banks;
    if let Err(fault) = find_filled(&mut banks) {
        return end_run(Some(fault), banks, None);
    }
    match blanks_of(rt, alloc, banks) {
        Ok(blanks) => {
            let mut stage = Stage::Waiting(blanks);
            let fault = replay(rt, alloc, source, sink, &mut stage).err();
            end_at_stage(alloc, fault, stage)
        }
        Err((fault, banks)) => end_run(Some(fault), banks, None),
    }
}

/// Ends a run at the stage that it came to: it gives back the banks, and tells of its world where it has to. Where there is no memory
/// for that, it ends by want of memory.
fn end_at_stage<B: CrashBanks>(alloc: Global, fault: Option<RunFault>, stage: Stage<B>) -> Ran<B>
    ensures status { result.status ≡ replay_status result.fault }
    ensures ends { EndsByFault B.log fault stage result }
{
    match end_of(alloc, tells(fault), stage) {
        Ok(End { world, banks }) => end_run(fault, banks, world),
        Err(AllocError) => end_run(Some(RunFault::NoMemory), Vec::new(alloc), None),
    }
}

/// Ends a run by this fault, or well: it gives back these banks, and tells this of its world.
pub fn end_run<B>(fault: Option<RunFault>, banks: Vec<B>, world: Option<Summary>) -> Ran<B>
    ensures fault { result.fault ≡ fault }
    ensures status { result.status ≡ replay_status fault }
    ensures banks { result.banks ≡ banks }
    ensures world { result.world ≡ world }
{
    Ran {
        status: status_of(fault),
        fault,
        banks,
        world,
    }
}

/// A run that ends so tells of its world.
fn tells(fault: Option<RunFault>) -> bool
    ensures { result ≡ tells fault }
{
    match fault {
        None | Some(RunFault::ReadFault | RunFault::BadLine(_) | RunFault::TooLarge(_)) => true,
        Some(_) => false,
    }
}

/// The status of the program for the way in which a run ended.
fn status_of(fault: Option<RunFault>) -> u8
    ensures { result ≡ replay_status fault }
{
    match fault {
        None => 0,
        Some(RunFault::Usage) => 1,
        Some(RunFault::ReadFault) => 2,
        Some(RunFault::WriteFault) => 3,
        Some(RunFault::BadLine(_)) => 4,
        Some(RunFault::NoMemory) => 5,
        Some(RunFault::Device(_)) => 6,
        Some(RunFault::TooLarge(_)) => 7,
        Some(RunFault::NotEmpty(_)) => 8,
    }
}

/// Replays the schedule of the source, and leaves the stage that it leads to. Where memory runs out, what is left is not to be used.
fn replay<R: Threads + Sync, S: Source, K: Sink, B: CrashBanks>(
    rt: &R,
    alloc: Global,
    source: &mut S,
    sink: &mut K,
    stage: &mut Stage<B>,
) -> Result<(), RunFault>
    requires waits { StageStands B.log stage.old Waiting }
    requires unarmed { AreUnarmed B.meter (banks_of_stage stage.old) }
    ensures begun { IfErr result IsReplayFault }
    ensures ends { WhereTold (S.left source.old) (λ bytes.
        ReplayEnds (says_by B.log stage.new) (result_err result) bytes
        (S.left source.new) (K.held sink.old) (K.held sink.new)) }
    ensures back { BringsBack B.meter (banks_of_stage stage.old) (banks_of_stage stage.new) (result_err result) }
    ensures counts { CountsFaults (result_err result)
        (S.faults source.old) (S.faults source.new) (K.faults sink.old) (K.faults sink.new) }
{
    let mut lines = Lines::new(alloc, LINE_LIMIT, INPUT_LIMIT)?;
    let mut reply = Vec::new(alloc);
    let mut done = 0;
    while let Some(line) = next_line(&mut lines, source, done + 1)? {
        done += 1;
        do_line(rt, alloc, stage, line.as_slice(), done, &mut reply)?;
        write_all(sink, reply.as_slice())?;
    }
    end_lines(rt, alloc, stage, done + 1)
}

/// Does line `number`, and makes the text of its reply in place of what `reply` had.
fn do_line<R: Threads + Sync, B: CrashBanks>(
    rt: &R,
    alloc: Global,
    stage: &mut Stage<B>,
    line: &[u8],
    number: u64,
    reply: &mut Vec<u8>,
) -> Result<(), RunFault>
    requires few { steps_of_stage stage.old < step_limit }
    requires standing { IsStandingStage B.log stage.old }
    requires unarmed { AreUnarmed B.meter (banks_of_stage stage.old) }
    ensures ok { OnOk result (ActsFrom B.log stage.old line.now reply.new.items stage.new) }
    ensures steps { OnOk result (steps_of_stage stage.new ≤ steps_of_stage stage.old + 1) }
    ensures bad { (at : ℕ) → IsErrOf result (RunFault.BadLine at) → (at ≡ number) × IsBadFrom B.log stage.old line.now }
    ensures kept { (at : ℕ) → IsErrOf result (RunFault.BadLine at) → stage.new ≡ stage.old }
    ensures back { BringsBack B.meter (banks_of_stage stage.old) (banks_of_stage stage.new) (result_err result) }
    ensures left { IfErr result (FaultLeavesAtLine B.log stage.old (banks_of_stage stage.new) line.now) }
    ensures other { IfErr result IsLineFault }
{
    match act(rt, alloc, stage, line, reply) {
        Ok(()) => Ok(()),
        Err(stop) => Err(fault_at_line(stop, number)),
    }
}

/// Ends the lines, where line `number` would be the next.
fn end_lines<R: Threads + Sync, B: CrashBanks>(
    rt: &R,
    alloc: Global,
    stage: &mut Stage<B>,
    number: u64,
) -> Result<(), RunFault>
    requires { IsStandingStage B.log stage.old }
    ensures ok { OnOk result (EndsFrom B.log stage.old stage.new) }
    ensures bad { (at : ℕ) → IsErrOf result (RunFault.BadLine at) → (at ≡ number) × OnlyWaits B.log stage.old }
    ensures kept { (at : ℕ) → IsErrOf result (RunFault.BadLine at) → stage.new ≡ stage.old }
    ensures back { BringsBack B.meter (banks_of_stage stage.old) (banks_of_stage stage.new) (result_err result) }
    ensures left { IfErr result (FaultLeaves B.log stage.old (banks_of_stage stage.new) []) }
    ensures other { IfErr result IsLineFault }
{
    match finish(rt, alloc, stage) {
        Ok(()) => Ok(()),
        Err(stop) => Err(fault_at_line(stop, number)),
    }
}

/// Why the run ends at line `number`.
fn fault_at_line(stop: LineStop, number: u64) -> RunFault
    ensures { result ≡ fault_at_line stop number }
{
    match stop {
        LineStop::BadLine => RunFault::BadLine(number),
        LineStop::Device(clone) => RunFault::Device(clone),
        LineStop::NoMemory => RunFault::NoMemory,
    }
}

// What the program writes to standard error.
impl fmt::Display for RunFault {
    ghost use Rattle.std.specs.Prelude.{Some};
    ghost use Rattle.mld_replay.specs.FaultTexts.{fault_text};

    ghost output = { λ fault. Some (fault_text fault) };

    fn fmt<W: fmt::Write>(&self, f: &mut fmt::Formatter<W>) -> fmt::Result {
        match self {
            RunFault::Usage => write!(f, "mld: usage"),
            RunFault::ReadFault => write!(f, "mld: read fault"),
            RunFault::WriteFault => write!(f, "mld: write fault"),
            RunFault::BadLine(line) => write!(f, "mld: line {line}: bad line"),
            RunFault::NoMemory => write!(f, "mld: no memory"),
            RunFault::Device(clone) => write!(f, "mld: clone {clone}: device fault"),
            RunFault::NotEmpty(clone) => write!(f, "mld: bank {clone}: not empty"),
            RunFault::TooLarge(line) => write!(f, "mld: line {line}: too large"),
        }
    }
}

impl From<AllocError> for RunFault {
    ghost use Rattle.std.specs.Prelude.{◌≡◌};
    ghost use Rattle.mld_replay.specs.declared.run.RunFault.TheVariants.{NoMemory};

    ghost from_gives = { λ _ e. e ≡ NoMemory };

    fn from(_error: AllocError) -> RunFault {
        RunFault::NoMemory
    }
}

// Why a run ends where there is no next line.
impl From<InputFault> for RunFault {
    ghost use Rattle.std.specs.Prelude.{◌≡◌};
    ghost use Rattle.mld_replay.specs.Replaying.{run_fault_of_input};

    ghost from_gives = { λ fault ends. ends ≡ run_fault_of_input fault };

    fn from(fault: InputFault) -> RunFault {
        match fault {
            InputFault::ReadFault => RunFault::ReadFault,
            InputFault::TooLarge(line) => RunFault::TooLarge(line),
            InputFault::NoMemory => RunFault::NoMemory,
        }
    }
}

// Why it ends where what it writes isn't written whole.
impl From<WriteFault> for RunFault {
    ghost use Rattle.std.specs.Prelude.{◌≡◌};
    ghost use Rattle.mld_replay.specs.Replaying.{run_fault_of_write};

    ghost from_gives = { λ fault ends. ends ≡ run_fault_of_write fault };

    fn from(fault: WriteFault) -> RunFault {
        match fault {
            WriteFault::Failed => RunFault::WriteFault,
            WriteFault::NoMemory => RunFault::NoMemory,
        }
    }
}
