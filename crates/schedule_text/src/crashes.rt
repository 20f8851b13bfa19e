//! Lines that crash a device.
ghost use Rattle.std.specs.Prelude.{◌≡◌, ◌≢◌, ℕ, List, IsTrue, IfOk, MatchOption};
ghost use Rattle.text_rules.specs.Domain.{is_domain};
ghost use Rattle.mld_io.specs.declared.banks.Leave.{Leave};
ghost use Rattle.schedule_model.specs.Schedule.{SpellsPlain, leave_word};
ghost use Rattle.schedule_model.specs.Step.{IsTaskInForm};
ghost use Rattle.schedule_model.specs.Tasks.{command_of};
ghost use Rattle.schedule_model.specs.declared.Command.{Command};
ghost use Rattle.schedule_model.specs.declared.CrashTask.{CrashTask};
ghost use Rattle.schedule_text.specs.ReadLines.{Finds, IsArming, IsCrashRest, IsFoundInForm};

use crate::commands::plain_command;
use crate::numbers::read_call;
use crate::words::split_at_space;
use mld_io::Leave;
use schedule_model::{Command, CrashTask};
use std::alloc::{AllocError, Global};

/// What follows `crash` and a space, in the domain of this name: the number of a call, what the crash leaves, and a command that may
/// call the device of its clone, with a space between each two.
pub fn read_crash_command(
    alloc: Global,
    rest: &[u8],
    domain: &str,
) -> Result<Option<Command>, AllocError>
    requires { IsTrue (is_domain domain.now) }
    ensures found { IfOk result (Finds (IsCrashRest domain.now rest.now)) }
    ensures in_form { IfOk result IsFoundInForm }
{
    let Some((call, leave, text)) = read_arming(rest) else {
        return Ok(None);
    };
    let Some(task) = read_task(alloc, text, domain)? else {
        return Ok(None);
    };
    Ok(Some(Command::Crash(call, leave, task)))
}

/// The number of a call, what the crash leaves, and the text behind both.
fn read_arming(rest: &[u8]) -> Option<(u32, Leave, &[u8])>
    ensures { MatchOption result ((call : ℕ) (leave : Leave) (text : List ℕ) → ¬ IsArming rest.now call leave text)
        (λ parts. IsArming rest.now parts.0 parts.1 parts.2.now) }
{
    let (call, behind) = split_at_space(rest)?;
    let call = read_call(call)?;
    let (word, text) = split_at_space(behind)?;
    let leave = read_leave(word)?;
    Some((call, leave, text))
}

/// What a crash leaves of the writes that aren't synced, by its word: `lose`, `keep` or `torn`.
fn read_leave(word: &[u8]) -> Option<Leave>
    ensures { MatchOption result ((leave : Leave) → word.now ≢ leave_word leave)
        (λ leave. word.now ≡ leave_word leave) }
{
    if word == b"lose".as_slice() {
        return Some(Leave::Lose);
    }
    if word == b"keep".as_slice() {
        return Some(Leave::Keep);
    }
    if word == b"torn".as_slice() {
        return Some(Leave::Torn);
    }
    None
}

/// The command of a crash line, where the text spells one in the domain of this name.
fn read_task(alloc: Global, text: &[u8], domain: &str) -> Result<Option<CrashTask>, AllocError>
    requires { IsTrue (is_domain domain.now) }
    ensures found { IfOk result
        (λ found. MatchOption found ((task : CrashTask) → ¬ SpellsPlain domain.now text.now (command_of task))
        (λ task. SpellsPlain domain.now text.now (command_of task))) }
    ensures in_form { IfOk result (λ found. MatchOption found (Unit {0}) IsTaskInForm) }
{
    match plain_command(alloc, text, domain)? {
        Some(command) => Ok(task_of(command)),
        None => Ok(None),
    }
}

/// The command as that of a crash line, where it may be one.
fn task_of(command: Command) -> Option<CrashTask>
    ensures { MatchOption result ((task : CrashTask) → command_of task ≢ command) (λ task. command_of task ≡ command) }
{
    match command {
        Command::Add(number, triple) => Some(CrashTask::Add(number, triple)),
        Command::Remove(number, triple) => Some(CrashTask::Remove(number, triple)),
        Command::Update(number, plan) => Some(CrashTask::Update(number, plan)),
        Command::Deliver(message, number) => Some(CrashTask::Deliver(message, number)),
        Command::Compact(number) => Some(CrashTask::Compact(number)),
        Command::Truncate(number, keep) => Some(CrashTask::Truncate(number, keep)),
        Command::Open(number) => Some(CrashTask::Open(number)),
        Command::Show(_) => None,
        Command::Query(_, _) => None,
        Command::Compare(_, _) => None,
        Command::Join(_) => None,
        Command::Ask(_) => None,
        Command::Stop(_) => None,
        Command::Crash(_, _, _) => None,
    }
}
