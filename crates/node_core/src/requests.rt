//! Requests of clients.
ghost use Rattle.std.specs.Prelude.{◌≡◌, [], None, Some, IfOk, IfErr, OnOk};
ghost use Rattle.node_model.specs.journal_store.Closing.{StaysTold};
ghost use Rattle.node_model.specs.shell_session.SessionLines.{Meters};
ghost use Rattle.node_model.specs.declared.connections.Connection.{Connection};
ghost use Rattle.mld_model.specs.Local.{LocalAsker};
ghost use Rattle.node_model.specs.Keepers.{Asks};
ghost use Rattle.node_model.specs.Requests.{TakesRequest};
ghost use Rattle.node_core.specs.NodeStates.{IsOpen, state_banks, state_banks_after, StateFailsOnDevice};
ghost use Rattle.node_core.specs.NodeDeeds.{AnswersOn, StopsRequest};
ghost use Rattle.node_core.specs.LoanCalls.{Replies};
ghost use Rattle.node_core.specs.declared.states.NodeState.TheVariants as states;

use crate::answering::answer_loan;
use crate::faults::NodeFault;
use crate::states::NodeState;
use crate::telling::{greet_client, say_reply};
use mld_io::Banks;
use node_model::clone_core::{Asker, MldClone};
use node_model::{Exchange, Request, read_request};
use std::alloc::{AllocError, Global};
use std::thread::Threads;

/// Answers a request of the connection at hand, which is a client's then: what it made goes to each peer, and then the reply goes out,
/// once the durable steps stand on the banks. `halt` ends the node; while asking, any other line of the grammar has to wait.
///
/// # Errors
///
/// `Device` where the device failed, and `NoMemory`. A live clone stops, and the banks are given back: the durable steps that were done
/// stand on them. The exchange is of no use then.
pub fn answer_request<R: Threads + Sync, B: Banks>(
    rt: &R,
    alloc: Global,
    state: NodeState<B>,
    line: &[u8],
    exchange: &mut Exchange,
) -> Result<NodeState<B>, (NodeFault, B)>
    requires opened { IsOpen state }
    requires at_hand { (one : Connection) × (exchange.old.at_hand ≡ Some one) }
    ensures done { IfOk result (λ next. (one : Connection) → exchange.old.at_hand ≡ Some one
        → AnswersOn B.log one line.now state exchange.old next exchange.new) }
    ensures opened { IfOk result IsOpen }
    ensures stopped { IfErr result (λ refused. StopsRequest B.log line.now state refused.1) }
    ensures told { StaysTold (B.log (state_banks state)) (B.log (state_banks_after result)) }
    ensures fault { Meters (B.meter (state_banks state)) (B.meter (state_banks_after result)) (StateFailsOnDevice result) }
{
    match state {
        NodeState::Live(clone) => answer_live(rt, alloc, clone, line, exchange),
        NodeState::Asking(asker) => answer_asking(alloc, asker, line, exchange),
    }
}

/// Answers one on a live clone.
fn answer_live<R: Threads + Sync, B: Banks>(
    rt: &R,
    alloc: Global,
    mut clone: MldClone<B>,
    line: &[u8],
    exchange: &mut Exchange,
) -> Result<NodeState<B>, (NodeFault, B)>
    requires opened { clone.closed ≡ None }
    requires at_hand { (one : Connection) × (exchange.old.at_hand ≡ Some one) }
    ensures done { IfOk result (λ next. (one : Connection) → exchange.old.at_hand ≡ Some one
        → AnswersOn B.log one line.now (states.Live clone) exchange.old next exchange.new) }
    ensures opened { IfOk result IsOpen }
    ensures stopped { IfErr result (λ refused. StopsRequest B.log line.now (states.Live clone) refused.1) }
    ensures told { StaysTold (B.log clone.banks) (B.log (state_banks_after result)) }
    ensures fault { Meters (B.meter clone.banks) (B.meter (state_banks_after result)) (StateFailsOnDevice result) }
{
    match answer_loan(rt, alloc, &mut clone, line, exchange) {
        Ok(()) => {
            clone.tell_banks_keep();
            Ok(NodeState::Live(clone))
        }
        Err(fault) => Err((fault, clone.stop())),
    }
}

/// Answers one while asking.
fn answer_asking<B: Banks>(
    alloc: Global,
    asker: Asker<B>,
    line: &[u8],
    exchange: &mut Exchange,
) -> Result<NodeState<B>, (NodeFault, B)>
    requires { (one : Connection) × (exchange.old.at_hand ≡ Some one) }
    ensures done { IfOk result (λ next. (one : Connection) → exchange.old.at_hand ≡ Some one
        → AnswersOn B.log one line.now (states.Asking asker) exchange.old next exchange.new) }
    ensures opened { IfOk result IsOpen }
    ensures stopped { IfErr result (λ refused. StopsRequest B.log line.now (states.Asking asker) refused.1) }
    ensures told { StaysTold (B.log asker.banks) (B.log (state_banks_after result)) }
    ensures fault { Meters (B.meter asker.banks) (B.meter (state_banks_after result)) (StateFailsOnDevice result) }
{
    match reply_asking(alloc, &asker, line, exchange) {
        Ok(()) => Ok(NodeState::Asking(asker)),
        Err(AllocError) => Err((NodeFault::NoMemory, asker.stop())),
    }
}

/// Replies to one while asking.
fn reply_asking<B: Banks>(
    alloc: Global,
    asker: &Asker<B>,
    line: &[u8],
    exchange: &mut Exchange,
) -> Result<(), AllocError>
    requires { (one : Connection) × (exchange.old.at_hand ≡ Some one) }
    ensures { OnOk result ((one : Connection) → exchange.old.at_hand ≡ Some one
        → TakesRequest (Asks asker.now.asker) one line.now exchange.old [] (Asks asker.now.asker) exchange.new) }
{
    let request = read_request(alloc, line, asker.domain())?;
    let number = greet_client(exchange);
    wait(alloc, &request, number, exchange)
}

/// Replies on the connection of this number while asking.
fn wait(
    alloc: Global,
    request: &Request,
    number: u32,
    exchange: &mut Exchange,
) -> Result<(), AllocError>
    ensures { OnOk result
        ((asker : LocalAsker) → Replies (Asks asker) request.now number exchange.old [] (Asks asker) exchange.new) }
{
    match request {
        Request::Command(_) => say_reply(alloc, exchange, number, b"asking\n"),
        Request::Ask => say_reply(alloc, exchange, number, b"asking\n"),
        Request::Halt => {
            exchange.halt();
            say_reply(alloc, exchange, number, b"stopped\n")
        }
        Request::Bad => say_reply(alloc, exchange, number, b"bad line\n"),
    }
}
