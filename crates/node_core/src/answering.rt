//! Requests that a live clone answers.
ghost use Rattle.std.specs.Prelude.{◌≡◌, [], None, Some, OnOk, OnErr, IsErrOf};
ghost use Rattle.node_model.specs.journal_store.Closing.{StaysTold};
ghost use Rattle.node_model.specs.shell_session.ReadShell.{IsShellInForm};
ghost use Rattle.node_model.specs.shell_session.SessionLines.{Meters};
ghost use Rattle.node_model.specs.shell_session.LiveCalls.{CloneLeavesFrontOfDue};
ghost use Rattle.node_model.specs.RequestLines.{IsNodeCommand, IsRequestInForm};
ghost use Rattle.node_model.specs.declared.requests.Request.TheVariants as requests;
ghost use Rattle.node_model.specs.declared.connections.Connection.{Connection};
ghost use Rattle.node_model.specs.Exchanges.{telling_peers_each};
ghost use Rattle.node_model.specs.Requests.{TakesRequest};
ghost use Rattle.node_core.specs.LoanCalls.{GoesBy, Replies, IsNoCommand, is_update, AppendsBehind, told_by};
ghost use Rattle.node_core.specs.NodeDeeds.{IsDueByCommand, IsDueByRequest};
ghost use Rattle.node_core.specs.NodeStates.{living};

use crate::faults::NodeFault;
use crate::telling::{greet_client, say_reply};
use mld_io::Banks;
use node_model::clone_core::MldClone;
use node_model::shell_session::{ShellCommand, do_live};
use node_model::{Exchange, Request, read_request};
use std::alloc::{AllocError, Global};
use std::thread::Threads;

/// Answers a request of the connection at hand on a live clone.
pub(crate) fn answer_loan<R: Threads + Sync, B: Banks>(
    rt: &R,
    alloc: Global,
    clone: &mut MldClone<B>,
    line: &[u8],
    exchange: &mut Exchange,
) -> Result<(), NodeFault>
    requires opened { clone.old.closed ≡ None }
    requires at_hand { (one : Connection) × (exchange.old.at_hand ≡ Some one) }
    ensures done { OnOk result ((one : Connection) → exchange.old.at_hand ≡ Some one
        → GoesBy B.log B.meter
        (λ steps next. TakesRequest (living clone.old) one line.now exchange.old steps next exchange.new)
        clone.old clone.new) }
    ensures stopped { OnErr result
        (CloneLeavesFrontOfDue B.log B.meter (IsDueByRequest (living clone.old) line.now) clone.old clone.new.banks) }
    ensures told { StaysTold (B.log clone.old.banks) (B.log clone.new.banks) }
    ensures fault { Meters (B.meter clone.old.banks) (B.meter clone.new.banks) (IsErrOf result NodeFault.Device) }
{
    let request = read_request(alloc, line, clone.domain())?;
    let number = greet_client(exchange);
    do_request(rt, alloc, clone, &request, number, exchange)
}

/// Does what was asked, and replies on the connection of this number.
fn do_request<R: Threads + Sync, B: Banks>(
    rt: &R,
    alloc: Global,
    clone: &mut MldClone<B>,
    request: &Request,
    number: u32,
    exchange: &mut Exchange,
) -> Result<(), NodeFault>
    requires opened { clone.old.closed ≡ None }
    requires form { IsRequestInForm request.now }
    ensures done { OnOk result (GoesBy B.log B.meter
        (λ steps next. Replies (living clone.old) request.now number exchange.old steps next exchange.new)
        clone.old clone.new) }
    ensures stopped { OnErr result
        (CloneLeavesFrontOfDue B.log B.meter (IsDueByCommand (living clone.old) request.now) clone.old clone.new.banks) }
    ensures told { StaysTold (B.log clone.old.banks) (B.log clone.new.banks) }
    ensures fault { Meters (B.meter clone.old.banks) (B.meter clone.new.banks) (IsErrOf result NodeFault.Device) }
{
    match request {
        Request::Command(command) => do_command(rt, alloc, clone, command, number, exchange),
        _ => {
            only_reply(alloc, clone, request, number, exchange)?;
            Ok(())
        }
    }
}

/// Does a command, and replies on the connection of this number once what it made went to each peer.
fn do_command<R: Threads + Sync, B: Banks>(
    rt: &R,
    alloc: Global,
    clone: &mut MldClone<B>,
    command: &ShellCommand,
    number: u32,
    exchange: &mut Exchange,
) -> Result<(), NodeFault>
    requires opened { clone.old.closed ≡ None }
    requires does { IsNodeCommand command.now }
    requires form { IsShellInForm command.now }
    ensures done { OnOk result (GoesBy B.log B.meter
        (λ steps next. Replies (living clone.old) (requests.Command command.now) number exchange.old
        steps next exchange.new) clone.old clone.new) }
    ensures stopped { OnErr result (CloneLeavesFrontOfDue B.log B.meter
        (IsDueByCommand (living clone.old) (requests.Command command.now)) clone.old clone.new.banks) }
    ensures told { StaysTold (B.log clone.old.banks) (B.log clone.new.banks) }
    ensures fault { Meters (B.meter clone.old.banks) (B.meter clone.new.banks) (IsErrOf result NodeFault.Device) }
{
    let kept = clone.journal().len();
    let mut text = Vec::new(alloc);
    do_live(rt, alloc, clone, command, &mut text)?;
    tell_made(clone, command, kept, exchange)?;
    say_reply(alloc, exchange, number, text.as_slice())?;
    Ok(())
}

/// Sends each peer what a command put behind so many entries of the journal.
fn tell_made<B: Banks>(
    clone: &MldClone<B>,
    command: &ShellCommand,
    kept: usize,
    exchange: &mut Exchange,
) -> Result<(), AllocError>
    requires { AppendsBehind command.now kept clone.now.local.entries }
    ensures { OnOk result (exchange.new ≡ telling_peers_each (told_by command.now kept clone.now.local.entries) exchange.old) }
{
    if is_update(command) {
        return exchange.tell_peers_each(&clone.journal()[kept..]);
    }
    Ok(())
}

/// Whether the command is an update, which may make an operation.
fn is_update(command: &ShellCommand) -> bool
    ensures { result ≡ is_update command.now }
{
    match command {
        ShellCommand::Add(_) => true,
        ShellCommand::Remove(_) => true,
        ShellCommand::Update(_) => true,
        _ => false,
    }
}

/// Replies to what asks for no command.
fn only_reply<B: Banks>(
    alloc: Global,
    clone: &MldClone<B>,
    request: &Request,
    number: u32,
    exchange: &mut Exchange,
) -> Result<(), AllocError>
    requires { IsNoCommand request.now }
    ensures { OnOk result (Replies (living clone.now) request.now number exchange.old [] (living clone.now) exchange.new) }
{
    match request {
        Request::Command(_) => unreachable!(),
        Request::Ask => {
            exchange.tell_peers(&clone.want(alloc)?)?;
            say_reply(alloc, exchange, number, b"sent\n")
        }
        Request::Halt => {
            exchange.halt();
            say_reply(alloc, exchange, number, b"stopped\n")
        }
        Request::Bad => say_reply(alloc, exchange, number, b"bad line\n"),
    }
}
