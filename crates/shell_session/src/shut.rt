//! Commands while no clone is live: banks are opened, or a clone is made on them.
ghost use Rattle.std.specs.Prelude.{◌≡◌, IsTrue, IfOk, IfErr, OnErr};
ghost use Rattle.text_rules.specs.Domain.{is_domain};
ghost use Rattle.crash_laws.specs.journal_store.Closing.{StaysTold};
ghost use Rattle.shell_session.specs.declared.commands.ShellCommand.TheVariants as commands;
ghost use Rattle.shell_session.specs.Shells.{Nothing, Shell, Shut};
ghost use Rattle.shell_session.specs.Sessions.{MayDoLine, SessionStands};
ghost use Rattle.shell_session.specs.SessionLines.{DoesShellCommand, StopsShellCommand, banks_after, FailsOnDevice, Meters, IsUsable};
ghost use Rattle.shell_session.specs.ShutCalls.{TellsDamage, GivesBackUnmounted};
ghost use Rattle.shell_session.specs.declared.sessions.Session.TheVariants as sessions;

use crate::commands::ShellCommand;
use crate::faults::SessionFault;
use crate::replies::ShellReply;
use crate::sessions::{Session, answer};
use crash_laws::clone_core::{MldClone, Mounted};
use crash_laws::journal_store::{Blank, MakeFault, MountFault};
use mld_io::Banks;
use rdf_terms::Iri;
use schedule_replies::Reply;
use std::alloc::Global;
use std::thread::Threads;
use text_rules::Text;
use uuid::Uuid;

/// Does a command while no clone is live on the banks.
pub fn do_shut<R: Threads + Sync, B: Banks>(
    rt: &R,
    alloc: Global,
    banks: B,
    command: ShellCommand,
    out: &mut Vec<u8>,
) -> Result<Session<B>, (SessionFault, B)>
    requires { IsUsable command }
    ensures done { IfOk result (λ next. (shell : Shell) → SessionStands B.log (sessions.Shut banks) shell
        → DoesShellCommand B.log shell command banks out.old.items next out.new.items) }
    ensures standing { IfOk result MayDoLine }
    ensures stopped { IfErr result (λ refused. (shell : Shell) → SessionStands B.log (sessions.Shut banks) shell
        → StopsShellCommand B.log shell command banks refused.1) }
    ensures told { StaysTold (B.log banks) (B.log (banks_after result)) }
    ensures fault { Meters (B.meter banks) (B.meter (banks_after result)) (FailsOnDevice result) }
    ensures out { OnErr result (out.new.items ≡ out.old.items) }
{
    match command {
        ShellCommand::Open => open(rt, alloc, banks, out),
        ShellCommand::Create(id, domain, properties) => {
            create(rt, alloc, banks, id, domain, properties, out)
        }
        _ => answer(Session::Shut(banks), &ShellReply::Closed, out),
    }
}

/// The clone that banks keep runs again.
fn open<R: Threads + Sync, B: Banks>(
    rt: &R,
    alloc: Global,
    banks: B,
    out: &mut Vec<u8>,
) -> Result<Session<B>, (SessionFault, B)>
    ensures done { IfOk result (λ next. (shell : Shell) → SessionStands B.log (sessions.Shut banks) shell
        → DoesShellCommand B.log shell commands.Open banks out.old.items next out.new.items) }
    ensures standing { IfOk result MayDoLine }
    ensures stopped { IfErr result (λ refused. (shell : Shell) → SessionStands B.log (sessions.Shut banks) shell
        → StopsShellCommand B.log shell commands.Open banks refused.1) }
    ensures told { StaysTold (B.log banks) (B.log (banks_after result)) }
    ensures fault { Meters (B.meter banks) (B.meter (banks_after result)) (FailsOnDevice result) }
    ensures out { OnErr result (out.new.items ≡ out.old.items) }
{
    match MldClone::mount(rt, alloc, banks) {
        Mounted::Live(clone) => answer(Session::Live(clone), &ShellReply::Says(Reply::Opened), out),
        Mounted::Empty(blank) => answer(Session::Shut(blank.into_banks()), &ShellReply::Empty, out),
        Mounted::Refused(fault, banks) => refuse(fault, banks, out),
    }
}

/// The first clone of a domain is made on banks that keep nothing. A clone that is found stays.
fn create<R: Threads + Sync, B: Banks>(
    rt: &R,
    alloc: Global,
    banks: B,
    id: Uuid,
    domain: Text,
    properties: Vec<Iri>,
    out: &mut Vec<u8>,
) -> Result<Session<B>, (SessionFault, B)>
    requires { IsTrue (is_domain domain) }
    ensures done { IfOk result (λ next. (shell : Shell) → SessionStands B.log (sessions.Shut banks) shell
        → DoesShellCommand B.log shell (commands.Create id domain properties) banks out.old.items next out.new.items) }
    ensures standing { IfOk result MayDoLine }
    ensures stopped { IfErr result (λ refused. (shell : Shell) → SessionStands B.log (sessions.Shut banks) shell
        → StopsShellCommand B.log shell (commands.Create id domain properties) banks refused.1) }
    ensures told { StaysTold (B.log banks) (B.log (banks_after result)) }
    ensures fault { Meters (B.meter banks) (B.meter (banks_after result)) (FailsOnDevice result) }
    ensures out { OnErr result (out.new.items ≡ out.old.items) }
{
    match MldClone::mount(rt, alloc, banks) {
        Mounted::Live(clone) => answer(Session::Shut(clone.stop()), &ShellReply::NotEmpty, out),
        Mounted::Empty(blank) => found(alloc, blank, id, domain, properties, out),
        Mounted::Refused(fault, banks) => refuse(fault, banks, out),
    }
}

/// The first clone of a domain is made on banks that keep nothing.
fn found<B: Banks>(
    alloc: Global,
    blank: Blank<B>,
    id: Uuid,
    domain: Text,
    properties: Vec<Iri>,
    out: &mut Vec<u8>,
) -> Result<Session<B>, (SessionFault, B)>
    requires { IsTrue (is_domain domain) }
    ensures done { IfOk result (λ next. SessionStands B.log (sessions.Shut blank) (Shut Nothing)
        → DoesShellCommand B.log (Shut Nothing) (commands.Create id domain properties)
        blank out.old.items next out.new.items) }
    ensures standing { IfOk result MayDoLine }
    ensures stopped { IfErr result (λ refused. SessionStands B.log (sessions.Shut blank) (Shut Nothing)
        → StopsShellCommand B.log (Shut Nothing) (commands.Create id domain properties) blank refused.1) }
    ensures told { StaysTold (B.log blank) (B.log (banks_after result)) }
    ensures fault { Meters (B.meter blank) (B.meter (banks_after result)) (FailsOnDevice result) }
    ensures out { OnErr result (out.new.items ≡ out.old.items) }
{
    match MldClone::genesis(alloc, blank, id, domain, properties) {
        Ok(clone) => {
            clone.tell_banks_keep();
            answer(Session::Live(clone), &ShellReply::Created, out)
        }
        Err((MakeFault::Device, banks)) => Err((SessionFault::Device, banks)),
        Err((MakeFault::NoMemory, banks)) => Err((SessionFault::NoMemory, banks)),
    }
}

/// Banks that were not mounted. Where they are damaged, that is the reply.
fn refuse<B: Banks>(
    fault: MountFault,
    banks: B,
    out: &mut Vec<u8>,
) -> Result<Session<B>, (SessionFault, B)>
    ensures damaged { IfOk result (λ next. TellsDamage fault banks out.old.items next out.new.items) }
    ensures err { IfErr result (GivesBackUnmounted fault banks) }
    ensures device { fault ≡ MountFault.Device → FailsOnDevice result }
    ensures out { OnErr result (out.new.items ≡ out.old.items) }
{
    match fault {
        MountFault::Damaged { side, place } => answer(
            Session::Shut(banks),
            &ShellReply::Damaged(side, place),
            out,
        ),
        MountFault::Device => Err((SessionFault::Device, banks)),
        MountFault::NoMemory => Err((SessionFault::NoMemory, banks)),
    }
}
