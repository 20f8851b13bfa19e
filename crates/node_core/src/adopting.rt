//! Messages that come to one who asks for a leaf.
ghost use Rattle.std.specs.Prelude.{◌≡◌, None, Some, IfOk, IfErr};
ghost use Rattle.mld_io.specs.Disk.{Log};
ghost use Rattle.node_model.specs.journal_store.Closing.{StaysTold};
ghost use Rattle.mld_ops.specs.Messages.{CarriesWant, message_value, IsGoodMessage};
ghost use Rattle.node_model.specs.clone_core.Banked.{KeepsClone};
ghost use Rattle.node_model.specs.shell_session.SessionLines.{Meters};
ghost use Rattle.node_model.specs.Exchanges.{telling};
ghost use Rattle.node_core.specs.NodeStates.{IsOpen, state_banks_after, StateFailsOnDevice};
ghost use Rattle.node_core.specs.NodeDeeds.{ReceivesOn, StopsMessage};
ghost use Rattle.node_core.specs.declared.states.NodeState.TheVariants as states;

use crate::faults::NodeFault;
use crate::states::NodeState;
use crate::telling::tell_want;
use mld_io::Banks;
use mld_ops::Message;
use node_model::Exchange;
use node_model::clone_core::{Adopted, Asker, MldClone};
use node_model::journal_store::MakeFault;
use std::alloc::{AllocError, Global};
use std::thread::Threads;

/// Receives a message while asking.
pub(crate) fn receive_asking<R: Threads + Sync, B: Banks>(
    rt: &R,
    alloc: Global,
    asker: Asker<B>,
    message: &Message,
    exchange: &mut Exchange,
) -> Result<NodeState<B>, (NodeFault, B)>
    requires { IsGoodMessage (message_value message.now) }
    ensures done { IfOk result (λ next. ReceivesOn B.log message.now (states.Asking asker) exchange.old next exchange.new) }
    ensures opened { IfOk result IsOpen }
    ensures stopped { IfErr result (λ refused. StopsMessage B.log message.now (states.Asking asker) refused.1) }
    ensures told { StaysTold (B.log asker.banks) (B.log (state_banks_after result)) }
    ensures fault { Meters (B.meter asker.banks) (B.meter (state_banks_after result)) (StateFailsOnDevice result) }
{
    match asker.receive(rt, alloc, message) {
        Adopted::Joined(clone) => begin(alloc, clone, exchange),
        Adopted::Ignored(asker) => Ok(NodeState::Asking(asker)),
        Adopted::Refused(MakeFault::Device, banks) => Err((NodeFault::Device, banks)),
        Adopted::Refused(MakeFault::NoMemory, banks) => Err((NodeFault::NoMemory, banks)),
    }
}

/// A clone that was just made asks the connection at hand, which gave the leaf, for what it lacks.
fn begin<B: Banks>(
    alloc: Global,
    clone: MldClone<B>,
    exchange: &mut Exchange,
) -> Result<NodeState<B>, (NodeFault, B)>
    requires { clone.closed ≡ None }
    ensures same { IfOk result (λ next. next ≡ states.Live clone) }
    ensures told { IfOk result (λ next. exchange.new ≡ telling (CarriesWant clone.local.ticks) exchange.old) }
    ensures kept { (log : Log) → B.log clone.banks ≡ Some log → KeepsClone clone.local clone.generation log }
    ensures err { IfErr result (λ refused. (refused.0 ≡ NodeFault.NoMemory) × (refused.1 ≡ clone.banks)) }
{
    clone.tell_banks_keep();
    match tell_want(alloc, &clone, exchange) {
        Ok(()) => Ok(NodeState::Live(clone)),
        Err(AllocError) => Err((NodeFault::NoMemory, clone.stop())),
    }
}
