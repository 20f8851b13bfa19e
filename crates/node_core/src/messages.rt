//! Messages of peers.
ghost use Rattle.std.specs.Prelude.{◌≡◌, ◌↔◌, None, IfOk, IfErr, OnOk, OnErr, IsErrOf};
ghost use Rattle.node_model.specs.journal_store.Closing.{StaysTold};
ghost use Rattle.mld_ops.specs.Messages.{message_value, IsGoodMessage};
ghost use Rattle.node_model.specs.shell_session.SessionLines.{Meters};
ghost use Rattle.node_model.specs.shell_session.LiveCalls.{CloneLeavesFrontOfDue};
ghost use Rattle.node_model.specs.NodeMessages.{LiveReceives};
ghost use Rattle.node_core.specs.NodeStates.{IsOpen, state_banks, living, state_banks_after, StateFailsOnDevice};
ghost use Rattle.node_core.specs.NodeDeeds.{ReceivesOn, StopsMessage, IsDueByMessage};
ghost use Rattle.node_core.specs.LoanCalls.{GoesBy, MayBeSent, HasSent, MayAnswer, HasAnswered};
ghost use Rattle.node_core.specs.declared.states.NodeState.TheVariants as states;

use crate::adopting::receive_asking;
use crate::faults::NodeFault;
use crate::states::NodeState;
use crate::telling::tell_want;
use mld_io::Banks;
use mld_ops::Message;
use node_model::clone_core::MldClone;
use node_model::clone_parts::{Got, ReceiveFault};
use node_model::{DEEP_LEAF, Exchange, FOREIGN_TICK};
use std::alloc::{AllocError, Global};
use std::thread::Threads;

/// Receives a message of the peer at hand. A live clone sends what it takes to each other peer, asks for what it lacks where it holds an
/// entry back, and answers one who asks; one who asks for a leaf lives at the one that is given.
///
/// # Errors
///
/// `Device` where the device failed, and `NoMemory`. A live clone stops, and the banks are given back: the durable steps that were done
/// stand on them. The exchange is of no use then.
pub fn receive_message<R: Threads + Sync, B: Banks>(
    rt: &R,
    alloc: Global,
    state: NodeState<B>,
    message: &Message,
    exchange: &mut Exchange,
) -> Result<NodeState<B>, (NodeFault, B)>
    requires opened { IsOpen state }
    requires good { IsGoodMessage (message_value message.now) }
    ensures done { IfOk result (λ next. ReceivesOn B.log message.now state exchange.old next exchange.new) }
    ensures opened { IfOk result IsOpen }
    ensures stopped { IfErr result (λ refused. StopsMessage B.log message.now state refused.1) }
    ensures told { StaysTold (B.log (state_banks state)) (B.log (state_banks_after result)) }
    ensures fault { Meters (B.meter (state_banks state)) (B.meter (state_banks_after result)) (StateFailsOnDevice result) }
{
    match state {
        NodeState::Live(clone) => receive_live(rt, alloc, clone, message, exchange),
        NodeState::Asking(asker) => receive_asking(rt, alloc, asker, message, exchange),
    }
}

/// Receives one on a live clone.
fn receive_live<R: Threads + Sync, B: Banks>(
    rt: &R,
    alloc: Global,
    mut clone: MldClone<B>,
    message: &Message,
    exchange: &mut Exchange,
) -> Result<NodeState<B>, (NodeFault, B)>
    requires opened { clone.closed ≡ None }
    requires good { IsGoodMessage (message_value message.now) }
    ensures done { IfOk result (λ next. ReceivesOn B.log message.now (states.Live clone) exchange.old next exchange.new) }
    ensures opened { IfOk result IsOpen }
    ensures stopped { IfErr result (λ refused. StopsMessage B.log message.now (states.Live clone) refused.1) }
    ensures told { StaysTold (B.log clone.banks) (B.log (state_banks_after result)) }
    ensures fault { Meters (B.meter clone.banks) (B.meter (state_banks_after result)) (StateFailsOnDevice result) }
{
    match receive_loan(rt, alloc, &mut clone, message, exchange) {
        Ok(()) => {
            clone.tell_banks_keep();
            Ok(NodeState::Live(clone))
        }
        Err(fault) => Err((fault, clone.stop())),
    }
}

/// Receives one on the loan of a live clone.
fn receive_loan<R: Threads + Sync, B: Banks>(
    rt: &R,
    alloc: Global,
    clone: &mut MldClone<B>,
    message: &Message,
    exchange: &mut Exchange,
) -> Result<(), NodeFault>
    requires opened { clone.old.closed ≡ None }
    requires good { IsGoodMessage (message_value message.now) }
    ensures done { OnOk result (GoesBy B.log B.meter
        (λ steps next. LiveReceives clone.old.generation clone.old.local message.now exchange.old
        steps next exchange.new) clone.old clone.new) }
    ensures stopped { OnErr result
        (CloneLeavesFrontOfDue B.log B.meter (IsDueByMessage (living clone.old) message.now) clone.old clone.new.banks) }
    ensures told { StaysTold (B.log clone.old.banks) (B.log clone.new.banks) }
    ensures fault { Meters (B.meter clone.old.banks) (B.meter clone.new.banks) (IsErrOf result NodeFault.Device) }
{
    let kept = clone.journal().len();
    let answered = clone.receive(rt, alloc, message);
    send_for(alloc, clone, kept, &answered, exchange)
}

/// Sends what is to be sent once a message was received so, where the journal had so many entries before.
fn send_for<B: Banks>(
    alloc: Global,
    clone: &MldClone<B>,
    kept: usize,
    answered: &Result<Got, ReceiveFault>,
    exchange: &mut Exchange,
) -> Result<(), NodeFault>
    requires { MayBeSent answered.now kept clone.now.local.entries }
    ensures done { OnOk result (HasSent answered.now kept clone.now.local exchange.old exchange.new) }
    ensures device { IsErrOf result NodeFault.Device ↔ IsErrOf answered.now ReceiveFault.Device }
{
    match answered {
        Ok(got) => {
            send_answer(alloc, clone, kept, got, exchange)?;
            Ok(())
        }
        Err(ReceiveFault::HeldFull) => {
            tell_want(alloc, clone, exchange)?;
            Ok(())
        }
        Err(ReceiveFault::ForeignTick { .. }) => {
            exchange.refuse(FOREIGN_TICK)?;
            Ok(())
        }
        Err(ReceiveFault::Deep) => {
            exchange.refuse(DEEP_LEAF)?;
            Ok(())
        }
        Err(ReceiveFault::GenerationsSpent) => Ok(()),
        Err(ReceiveFault::Closed { .. }) => unreachable!(),
        Err(ReceiveFault::Device) => Err(NodeFault::Device),
        Err(ReceiveFault::NoMemory) => Err(NodeFault::NoMemory),
    }
}

/// Sends what is to be sent for an answer.
fn send_answer<B: Banks>(
    alloc: Global,
    clone: &MldClone<B>,
    kept: usize,
    got: &Got,
    exchange: &mut Exchange,
) -> Result<(), AllocError>
    requires { MayAnswer got.now kept clone.now.local.entries }
    ensures { OnOk result (HasAnswered got.now kept clone.now.local exchange.old exchange.new) }
{
    match got {
        Got::Took(_) => exchange.tell_peers_each(&clone.journal()[kept..]),
        Got::Merged(_) => exchange.tell_peers_each(clone.journal()),
        Got::Held => tell_want(alloc, clone, exchange),
        Got::Answer(messages) => exchange.tell_each(messages.as_slice()),
        Got::Known => Ok(()),
        Got::Nothing => Ok(()),
        Got::Ignored => Ok(()),
    }
}
