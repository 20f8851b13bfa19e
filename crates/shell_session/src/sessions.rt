//! A session of the shell: the banks of one clone, and the clone where it is live.
ghost use Rattle.std.specs.Prelude.{◌≡◌, ◌↔◌, ◌++◌, None, Some, Option, MatchOption, option_map, IsTrue, IfOk, IfErr, OnErr};
ghost use Rattle.text_rules.specs.Domain.{is_domain};
ghost use Rattle.crash_laws.specs.journal_store.Closing.{StaysTold};
ghost use Rattle.shell_session.specs.declared.commands.ShellCommand.TheVariants as commands;
ghost use Rattle.shell_session.specs.Shells.{Shell};
ghost use Rattle.shell_session.specs.ShellReply.{shell_text};
ghost use Rattle.shell_session.specs.SessionReplies.{shell_value};
ghost use Rattle.shell_session.specs.Sessions.{session_banks, domain_in, MayDoLine, SessionStands};
ghost use Rattle.shell_session.specs.SessionLines.{DoesLine, DoesShellCommand, StopsLine, StopsShellCommand, banks_after, FailsOnDevice, Meters, IsUsable, IsLiveCommand, KeepsLive};
ghost use Rattle.shell_session.specs.declared.sessions.Session.TheVariants as sessions;

use crate::commands::ShellCommand;
use crate::faults::SessionFault;
use crate::lines::read_shell;
use crate::live::do_live;
use crate::replies::{ShellReply, push_shell_reply};
use crate::shut::do_shut;
use crash_laws::clone_core::MldClone;
use mld_io::Banks;
use schedule_replies::Reply;
use schedule_text::LineRefusal;
use std::alloc::{AllocError, Global};
use std::thread::Threads;

/// The banks of one clone, and the clone where it is live.
#[derive(Drop)]
pub enum Session<B: Banks> {
    /// No clone is live on these banks.
    Shut(B),
    /// The clone is live on its banks.
    Live(MldClone<B>),
}

impl<B: Banks> Session<B> {
    /// A session over banks, on which no clone is live. It calls no device.
    pub fn new(banks: B) -> Session<B>
        ensures { result ≡ sessions.Shut banks }
    {
        Session::Shut(banks)
    }

    /// Does one line, without its LF, and adds the text of its reply to the output once its durable steps stand on the banks.
    ///
    /// # Errors
    ///
    /// `Device` where the device failed, and `NoMemory`. A live clone stops, and the banks are given back; the output is as it was.
    pub fn line<R: Threads + Sync>(
        self,
        rt: &R,
        alloc: Global,
        line: &[u8],
        out: &mut Vec<u8>,
    ) -> Result<Session<B>, (SessionFault, B)>
        requires { MayDoLine self }
        ensures done { IfOk result (λ next. (shell : Shell) → SessionStands B.log self shell
            → DoesLine B.log shell line.now (session_banks self) out.old.items next out.new.items) }
        ensures standing { IfOk result MayDoLine }
        ensures stopped { IfErr result (λ refused. (shell : Shell) → SessionStands B.log self shell
            → StopsLine B.log shell line.now (session_banks self) refused.1) }
        ensures told { StaysTold (B.log (session_banks self)) (B.log (banks_after result)) }
        ensures fault { Meters (B.meter (session_banks self)) (B.meter (banks_after result)) (FailsOnDevice result) }
        ensures out { OnErr result (out.new.items ≡ out.old.items) }
    {
        match read_shell(alloc, line, self.domain()) {
            Ok(None) => Ok(self),
            Ok(Some(command)) => do_command(rt, alloc, self, command, out),
            Err(LineRefusal::BadLine) => answer(self, &ShellReply::BadLine, out),
            Err(LineRefusal::NoMemory) => Err((SessionFault::NoMemory, self.into_banks())),
        }
    }

    /// The banks. A live clone stops. It takes no memory and calls no device.
    pub fn into_banks(self) -> B
        ensures { result ≡ session_banks self }
    {
        match self {
            Session::Shut(banks) => banks,
            Session::Live(clone) => clone.stop(),
        }
    }

    /// The domain of the live clone, if one is live.
    fn domain(&self) -> Option<&str>
        ensures domain { option_map (λ name. name.now) result ≡ domain_in self.now }
        ensures name { MatchOption result (Unit {0}) (λ name. IsTrue (is_domain name.now)) }
    {
        match self {
            Session::Shut(_) => None,
            Session::Live(clone) => Some(clone.domain()),
        }
    }
}

/// Does a command.
fn do_command<R: Threads + Sync, B: Banks>(
    rt: &R,
    alloc: Global,
    session: Session<B>,
    command: ShellCommand,
    out: &mut Vec<u8>,
) -> Result<Session<B>, (SessionFault, B)>
    requires standing { MayDoLine session }
    requires usable { IsUsable command }
    requires live { IsLiveCommand session command }
    ensures done { IfOk result (λ next. (shell : Shell) → SessionStands B.log session shell
        → DoesShellCommand B.log shell command (session_banks session) out.old.items next out.new.items) }
    ensures standing { IfOk result MayDoLine }
    ensures stopped { IfErr result (λ refused. (shell : Shell) → SessionStands B.log session shell
        → StopsShellCommand B.log shell command (session_banks session) refused.1) }
    ensures told { StaysTold (B.log (session_banks session)) (B.log (banks_after result)) }
    ensures fault { Meters (B.meter (session_banks session)) (B.meter (banks_after result)) (FailsOnDevice result) }
    ensures out { OnErr result (out.new.items ≡ out.old.items) }
{
    match session {
        Session::Shut(banks) => do_shut(rt, alloc, banks, command, out),
        Session::Live(clone) => {
            if is_stop(&command) {
                return stop(clone, out);
            }
            stay_live(rt, alloc, clone, &command, out)
        }
    }
}

/// Whether the command stops a live clone.
fn is_stop(command: &ShellCommand) -> bool
    ensures { IsTrue result ↔ (command.now ≡ commands.Stop) }
{
    matches!(command, ShellCommand::Stop)
}

/// Stops a live clone.
fn stop<B: Banks>(clone: MldClone<B>, out: &mut Vec<u8>) -> Result<Session<B>, (SessionFault, B)>
    requires { clone.closed ≡ None }
    ensures done { IfOk result (λ next. (shell : Shell) → SessionStands B.log (sessions.Live clone) shell
        → DoesShellCommand B.log shell commands.Stop clone.banks out.old.items next out.new.items) }
    ensures standing { IfOk result MayDoLine }
    ensures stopped { IfErr result (λ refused. (shell : Shell) → SessionStands B.log (sessions.Live clone) shell
        → StopsShellCommand B.log shell commands.Stop clone.banks refused.1) }
    ensures told { StaysTold (B.log clone.banks) (B.log (banks_after result)) }
    ensures fault { Meters (B.meter clone.banks) (B.meter (banks_after result)) (FailsOnDevice result) }
    ensures out { OnErr result (out.new.items ≡ out.old.items) }
{
    let banks = clone.stop();
    answer(Session::Shut(banks), &ShellReply::Says(Reply::Stopped), out)
}

/// Does a command on a live clone, which stays live.
fn stay_live<R: Threads + Sync, B: Banks>(
    rt: &R,
    alloc: Global,
    mut clone: MldClone<B>,
    command: &ShellCommand,
    out: &mut Vec<u8>,
) -> Result<Session<B>, (SessionFault, B)>
    requires opened { clone.closed ≡ None }
    requires usable { IsUsable command.now }
    requires stays { KeepsLive command.now }
    ensures done { IfOk result (λ next. (shell : Shell) → SessionStands B.log (sessions.Live clone) shell
        → DoesShellCommand B.log shell command.now clone.banks out.old.items next out.new.items) }
    ensures standing { IfOk result MayDoLine }
    ensures stopped { IfErr result (λ refused. (shell : Shell) → SessionStands B.log (sessions.Live clone) shell
        → StopsShellCommand B.log shell command.now clone.banks refused.1) }
    ensures told { StaysTold (B.log clone.banks) (B.log (banks_after result)) }
    ensures fault { Meters (B.meter clone.banks) (B.meter (banks_after result)) (FailsOnDevice result) }
    ensures out { OnErr result (out.new.items ≡ out.old.items) }
{
    match do_live(rt, alloc, &mut clone, command, out) {
        Ok(()) => {
            clone.tell_banks_keep();
            Ok(Session::Live(clone))
        }
        Err(fault) => Err((fault, clone.stop())),
    }
}

/// Adds the text of a reply to the output, and hands the session on. Where memory is wanting, its banks are given back.
pub fn answer<B: Banks>(
    session: Session<B>,
    reply: &ShellReply<'_>,
    out: &mut Vec<u8>,
) -> Result<Session<B>, (SessionFault, B)>
    ensures same { IfOk result (λ next. next ≡ session) }
    ensures text { IfOk result (λ next. out.new.items ≡ out.old.items ++ shell_text (shell_value reply.now)) }
    ensures err { IfErr result (λ refused. (refused.0 ≡ SessionFault.NoMemory) × (refused.1 ≡ session_banks session)) }
    ensures out { OnErr result (out.new.items ≡ out.old.items) }
{
    match push_shell_reply(out, reply) {
        Ok(()) => Ok(session),
        Err(AllocError) => Err((SessionFault::NoMemory, session.into_banks())),
    }
}
