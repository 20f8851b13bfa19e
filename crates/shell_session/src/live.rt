//! Commands on a live clone that stays live.
ghost use Rattle.std.specs.Prelude.{◌≡◌, ◌++◌, None, IfOk, IfErr, OnOk, OnErr, IsErrOf};
ghost use Rattle.jrql_ast.specs.InForm.{IsPlanInForm, IsQueryInForm};
ghost use Rattle.crash_laws.specs.journal_store.Closing.{StaysTold};
ghost use Rattle.mld_ops.specs.Ready.{last_dot};
ghost use Rattle.jrql_ast.specs.Templates.{insertion_of, deletion_of};
ghost use Rattle.shell_session.specs.ShellReply.{shell_text};
ghost use Rattle.shell_session.specs.ShellStep.{LiveStep, IsDueLive, AnswersUpdate, AppendsUpdate, CompactsAs, IsDueCompaction, TruncatesAs, IsDueTruncation};
ghost use Rattle.shell_session.specs.SessionLines.{Meters, IsUsable, KeepsLive};
ghost use Rattle.shell_session.specs.LiveCalls.{CloneAnswers, CloneGoesOn, CloneLeavesFrontOfDue, TellsQuery};
ghost use Rattle.shell_session.specs.SessionReplies.{shell_value};

use crate::commands::ShellCommand;
use crate::faults::SessionFault;
use crate::replies::{ShellReply, push_shell_reply};
use crash_laws::clone_core::{Done, KeepFault, MldClone, UpdateFault};
use jrql_ast::UpdatePlan;
use mld_io::Banks;
use mld_ops::Entry;
use rdf_terms::Triple;
use schedule_replies::{Reply, reply_to_query};
use schedule_text::schedule_model::jrql_patterns::ReadQuery;
use std::alloc::Global;
use std::thread::Threads;
use tree_clock::{Dot, Range};

/// Does a command on a live clone that stays live, and adds the text of its reply to the output once its durable steps stand on the
/// banks.
///
/// # Errors
///
/// `Device` where the device failed, and `NoMemory`. The durable steps that were done stand, and the output is as it was.
pub fn do_live<R: Threads + Sync, B: Banks>(
    rt: &R,
    alloc: Global,
    clone: &mut MldClone<B>,
    command: &ShellCommand,
    out: &mut Vec<u8>,
) -> Result<(), SessionFault>
    requires opened { clone.old.closed ≡ None }
    requires usable { IsUsable command.now }
    requires stays { KeepsLive command.now }
    ensures done { OnOk result (CloneAnswers B.log B.meter (LiveStep clone.old.generation clone.old.local command.now)
        clone.old out.old.items clone.new out.new.items) }
    ensures stopped { OnErr result (CloneLeavesFrontOfDue B.log B.meter
        (IsDueLive clone.old.generation clone.old.local command.now) clone.old clone.new.banks) }
    ensures told { StaysTold (B.log clone.old.banks) (B.log clone.new.banks) }
    ensures fault { Meters (B.meter clone.old.banks) (B.meter clone.new.banks) (IsErrOf result SessionFault.Device) }
    ensures out { OnErr result (out.new.items ≡ out.old.items) }
{
    match command {
        ShellCommand::Open => tell(out, &ShellReply::Says(Reply::Live)),
        ShellCommand::Create(_, _, _) => tell(out, &ShellReply::Says(Reply::Live)),
        ShellCommand::Add(triple) => add(alloc, clone, triple, out),
        ShellCommand::Remove(triple) => remove(alloc, clone, triple, out),
        ShellCommand::Update(plan) => update(alloc, clone, plan, out),
        ShellCommand::Query(read) => query(rt, alloc, clone, read, out),
        ShellCommand::Show => tell(out, &ShellReply::Says(Reply::Shows(clone.pairs()))),
        ShellCommand::Compact => compact(alloc, clone, out),
        ShellCommand::Truncate(keep) => truncate(alloc, clone, *keep, out),
        ShellCommand::Stop => unreachable!(),
        ShellCommand::Skipped => unreachable!(),
    }
}

/// Adds the text of a reply to the output.
fn tell(out: &mut Vec<u8>, reply: &ShellReply<'_>) -> Result<(), SessionFault>
    ensures ok { OnOk result (out.new.items ≡ out.old.items ++ shell_text (shell_value reply.now)) }
    ensures err { IfErr result (λ fault. fault ≡ SessionFault.NoMemory) }
    ensures out { OnErr result (out.new.items ≡ out.old.items) }
{
    push_shell_reply(out, reply)?;
    Ok(())
}

/// Inserts a triple.
fn add<B: Banks>(
    alloc: Global,
    clone: &mut MldClone<B>,
    triple: &Triple,
    out: &mut Vec<u8>,
) -> Result<(), SessionFault>
    requires { clone.old.closed ≡ None }
    ensures done { OnOk result (CloneAnswers B.log B.meter (AnswersUpdate clone.old.local (insertion_of triple.now))
        clone.old out.old.items clone.new out.new.items) }
    ensures stopped { OnErr result (CloneLeavesFrontOfDue B.log B.meter
        (AppendsUpdate clone.old.local (insertion_of triple.now)) clone.old clone.new.banks) }
    ensures told { StaysTold (B.log clone.old.banks) (B.log clone.new.banks) }
    ensures fault { Meters (B.meter clone.old.banks) (B.meter clone.new.banks) (IsErrOf result SessionFault.Device) }
    ensures out { OnErr result (out.new.items ≡ out.old.items) }
{
    let plan = UpdatePlan::insertion(alloc, triple.share()?)?;
    update(alloc, clone, &plan, out)
}

/// Deletes the pairs of a triple.
fn remove<B: Banks>(
    alloc: Global,
    clone: &mut MldClone<B>,
    triple: &Triple,
    out: &mut Vec<u8>,
) -> Result<(), SessionFault>
    requires { clone.old.closed ≡ None }
    ensures done { OnOk result (CloneAnswers B.log B.meter (AnswersUpdate clone.old.local (deletion_of triple.now))
        clone.old out.old.items clone.new out.new.items) }
    ensures stopped { OnErr result (CloneLeavesFrontOfDue B.log B.meter
        (AppendsUpdate clone.old.local (deletion_of triple.now)) clone.old clone.new.banks) }
    ensures told { StaysTold (B.log clone.old.banks) (B.log clone.new.banks) }
    ensures fault { Meters (B.meter clone.old.banks) (B.meter clone.new.banks) (IsErrOf result SessionFault.Device) }
    ensures out { OnErr result (out.new.items ≡ out.old.items) }
{
    let plan = UpdatePlan::deletion(alloc, triple.share()?)?;
    update(alloc, clone, &plan, out)
}

/// Deletes and inserts what a plan says.
fn update<B: Banks>(
    alloc: Global,
    clone: &mut MldClone<B>,
    plan: &UpdatePlan,
    out: &mut Vec<u8>,
) -> Result<(), SessionFault>
    requires opened { clone.old.closed ≡ None }
    requires form { IsPlanInForm plan.now }
    ensures done { OnOk result (CloneAnswers B.log B.meter (AnswersUpdate clone.old.local plan.now)
        clone.old out.old.items clone.new out.new.items) }
    ensures stopped { OnErr result
        (CloneLeavesFrontOfDue B.log B.meter (AppendsUpdate clone.old.local plan.now) clone.old clone.new.banks) }
    ensures told { StaysTold (B.log clone.old.banks) (B.log clone.new.banks) }
    ensures fault { Meters (B.meter clone.old.banks) (B.meter clone.new.banks) (IsErrOf result SessionFault.Device) }
    ensures out { OnErr result (out.new.items ≡ out.old.items) }
{
    let reply = updated(alloc, clone, plan)?;
    tell(out, &reply)
}

/// The reply to an update, once the operation that it makes stands on the banks.
fn updated<B: Banks>(
    alloc: Global,
    clone: &mut MldClone<B>,
    plan: &UpdatePlan,
) -> Result<ShellReply<'static>, SessionFault>
    requires opened { clone.old.closed ≡ None }
    requires form { IsPlanInForm plan.now }
    ensures done { IfOk result (λ reply. CloneGoesOn B.log B.meter (AnswersUpdate clone.old.local plan.now)
        clone.old clone.new (shell_value reply)) }
    ensures stopped { OnErr result
        (CloneLeavesFrontOfDue B.log B.meter (AppendsUpdate clone.old.local plan.now) clone.old clone.new.banks) }
    ensures told { StaysTold (B.log clone.old.banks) (B.log clone.new.banks) }
    ensures fault { Meters (B.meter clone.old.banks) (B.meter clone.new.banks) (IsErrOf result SessionFault.Device) }
{
    match clone.update(alloc, plan) {
        Ok(Done::Nothing) => Ok(ShellReply::Says(Reply::NoOperation)),
        Ok(Done::Made(entry)) => Ok(ShellReply::Did(dot_of(&entry))),
        Err(UpdateFault::TooMany) => Ok(ShellReply::Says(Reply::TooMany)),
        Err(UpdateFault::Single { s, p }) => Ok(ShellReply::Says(Reply::Single(s, p))),
        Err(UpdateFault::TicksSpent) => Ok(ShellReply::TicksSpent),
        Err(UpdateFault::NoMemory) => Err(SessionFault::NoMemory),
        Err(UpdateFault::Device) => Err(SessionFault::Device),
        Err(UpdateFault::Closed { .. }) => unreachable!(),
    }
}

/// The last dot of an entry.
fn dot_of(entry: &Entry) -> Dot
    ensures { result ≡ last_dot entry.now.range }
{
    let Range { path, last, .. } = entry.range();
    Dot { path, tick: last }
}

/// The answer to a query.
fn query<R: Threads + Sync, B: Banks>(
    rt: &R,
    alloc: Global,
    clone: &MldClone<B>,
    read: &ReadQuery,
    out: &mut Vec<u8>,
) -> Result<(), SessionFault>
    requires opened { clone.now.closed ≡ None }
    requires form { IsQueryInForm read.now.query }
    ensures done { OnOk result (TellsQuery clone.now.local read.now out.old.items out.new.items) }
    ensures err { IfErr result (λ fault. fault ≡ SessionFault.NoMemory) }
    ensures out { OnErr result (out.new.items ≡ out.old.items) }
{
    let reply = reply_to_query(rt, alloc, clone, read)?;
    tell(out, &ShellReply::Says(reply))
}

/// Compacts the journal.
fn compact<B: Banks>(
    alloc: Global,
    clone: &mut MldClone<B>,
    out: &mut Vec<u8>,
) -> Result<(), SessionFault>
    requires { clone.old.closed ≡ None }
    ensures done { OnOk result (CloneAnswers B.log B.meter (CompactsAs clone.old.generation clone.old.local)
        clone.old out.old.items clone.new out.new.items) }
    ensures stopped { OnErr result
        (CloneLeavesFrontOfDue B.log B.meter (IsDueCompaction clone.old.generation clone.old.local)
        clone.old clone.new.banks) }
    ensures told { StaysTold (B.log clone.old.banks) (B.log clone.new.banks) }
    ensures fault { Meters (B.meter clone.old.banks) (B.meter clone.new.banks) (IsErrOf result SessionFault.Device) }
    ensures out { OnErr result (out.new.items ≡ out.old.items) }
{
    let reply = compacted(alloc, clone)?;
    tell(out, &reply)
}

/// The reply to that, once what the banks keep is swapped.
fn compacted<B: Banks>(
    alloc: Global,
    clone: &mut MldClone<B>,
) -> Result<ShellReply<'static>, SessionFault>
    requires { clone.old.closed ≡ None }
    ensures done { IfOk result (λ reply. CloneGoesOn B.log B.meter (CompactsAs clone.old.generation clone.old.local)
        clone.old clone.new (shell_value reply)) }
    ensures stopped { OnErr result
        (CloneLeavesFrontOfDue B.log B.meter (IsDueCompaction clone.old.generation clone.old.local)
        clone.old clone.new.banks) }
    ensures told { StaysTold (B.log clone.old.banks) (B.log clone.new.banks) }
    ensures fault { Meters (B.meter clone.old.banks) (B.meter clone.new.banks) (IsErrOf result SessionFault.Device) }
{
    match clone.compact(alloc) {
        Ok(count) => Ok(ShellReply::Says(Reply::Kept(count))),
        Err(KeepFault::GenerationsSpent) => Ok(ShellReply::GenerationsSpent),
        Err(KeepFault::NoMemory) => Err(SessionFault::NoMemory),
        Err(KeepFault::Device) => Err(SessionFault::Device),
        Err(KeepFault::Closed { .. }) => unreachable!(),
    }
}

/// Truncates the journal to so many entries.
fn truncate<B: Banks>(
    alloc: Global,
    clone: &mut MldClone<B>,
    keep: u64,
    out: &mut Vec<u8>,
) -> Result<(), SessionFault>
    requires { clone.old.closed ≡ None }
    ensures done { OnOk result (CloneAnswers B.log B.meter (TruncatesAs keep clone.old.generation clone.old.local)
        clone.old out.old.items clone.new out.new.items) }
    ensures stopped { OnErr result (CloneLeavesFrontOfDue B.log B.meter
        (IsDueTruncation keep clone.old.generation clone.old.local) clone.old clone.new.banks) }
    ensures told { StaysTold (B.log clone.old.banks) (B.log clone.new.banks) }
    ensures fault { Meters (B.meter clone.old.banks) (B.meter clone.new.banks) (IsErrOf result SessionFault.Device) }
    ensures out { OnErr result (out.new.items ≡ out.old.items) }
{
    let reply = truncated(alloc, clone, keep)?;
    tell(out, &reply)
}

/// The reply to that, once what the banks keep is swapped.
fn truncated<B: Banks>(
    alloc: Global,
    clone: &mut MldClone<B>,
    keep: u64,
) -> Result<ShellReply<'static>, SessionFault>
    requires { clone.old.closed ≡ None }
    ensures done { IfOk result
        (λ reply. CloneGoesOn B.log B.meter (TruncatesAs keep clone.old.generation clone.old.local)
        clone.old clone.new (shell_value reply)) }
    ensures stopped { OnErr result (CloneLeavesFrontOfDue B.log B.meter
        (IsDueTruncation keep clone.old.generation clone.old.local) clone.old clone.new.banks) }
    ensures told { StaysTold (B.log clone.old.banks) (B.log clone.new.banks) }
    ensures fault { Meters (B.meter clone.old.banks) (B.meter clone.new.banks) (IsErrOf result SessionFault.Device) }
{
    match clone.truncate(alloc, keep) {
        Ok(count) => Ok(ShellReply::Says(Reply::Kept(count))),
        Err(KeepFault::GenerationsSpent) => Ok(ShellReply::GenerationsSpent),
        Err(KeepFault::NoMemory) => Err(SessionFault::NoMemory),
        Err(KeepFault::Device) => Err(SessionFault::Device),
        Err(KeepFault::Closed { .. }) => unreachable!(),
    }
}
