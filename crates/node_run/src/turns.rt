//! The turns of a node: each is an event of its wire, with all that it sends for that.
ghost use Rattle.std.specs.Prelude.{◌≡◌, ℕ, List, false, IfOk, IfErr, OnOk, OnErr, Option, Some, option_map};
ghost use Rattle.mld_io.specs.Faults.{HasSinkCause};
ghost use Rattle.mld_io.specs.Disk.{Log};
ghost use Rattle.node_core.specs.journal_store.Closing.{StaysTold};
ghost use Rattle.node_core.specs.shell_session.SessionLines.{Meters};
ghost use Rattle.node_core.specs.shell_session.Shells.{FoundOnBanks};
ghost use Rattle.node_core.specs.NodeStates.{IsOpen};
ghost use Rattle.node_core.specs.NodeStates as states;
ghost use Rattle.node_core.specs.Nodes.{node_banks};
ghost use Rattle.node_core.specs.node_model.Events.{log_with};
ghost use Rattle.node_run.specs.Words.{AreWords};
ghost use Rattle.node_run.specs.declared.node.NodeWords.{NodeWords};
ghost use Rattle.node_run.specs.ServiceStatuses.{service_status, damaged_of, IsOfTurns, CountsWire};
ghost use Rattle.node_run.specs.ServiceTurns.{KeepsTurns, HasServed};
ghost use Rattle.node_run.specs.ServiceEnds.{ServiceEnds};
ghost use Rattle.node_run.specs.NodeBegun.{BeginsOn};
ghost use Rattle.node_run.specs.ServiceUnderWay.{Sends, SendsFront, DoesTurn, StopsTurn, node_banks_after, FailsOnBanks, HasTurnCause};

use crate::stops::{NodeRan, NodeStop, end_run, event_stop, wire_stop};
use mld_io::{Banks, Event, IoFault, Wire};
use node_core::node_model::{Sent, node_steps_lead};
use node_core::{Node, NodeState};
use std::alloc::Global;
use std::thread::Threads;

/// Takes events from the wire, one after another, until the node has ended, or so many were taken.
pub fn take_turns<R: Threads + Sync, W: Wire, B: Banks>(
    rt: &R,
    alloc: Global,
    wire: &mut W,
    state: NodeState<B>,
    turns: u64,
) -> NodeRan<B>
    requires opened { IsOpen state }
    requires taken { W.taken wire.old ≡ 0 }
    ensures status { result.status ≡ service_status result.fault }
    ensures damaged { result.damaged ≡ damaged_of result.fault }
    ensures kind { IsOfTurns result.fault }
    ensures turns { result.turns ≡ W.taken wire.new }
    ensures bounded { KeepsTurns result.fault result.turns turns }
    ensures served { HasServed result.fault result.turns (W.log wire.old) (W.log wire.new) }
    ensures ends { (texts : List (List ℕ)) (words : NodeWords) (found : FoundOnBanks) (old : Option Log) (first : Log)
        → old ≡ Some first → AreWords texts words → words.turns ≡ turns
        → BeginsOn B.log words found old state
        → ServiceEnds result.fault found (record {
          texts = texts;
          turns = result.turns;
          before = W.log wire.old;
          after = W.log wire.new;
          old = old;
          now = B.log result.banks;
        }) }
    ensures meter { Meters (B.meter (states.state_banks state)) (B.meter result.banks)
        (result.fault ≡ Some NodeStop.Device) }
    ensures wire { CountsWire (W.faults wire.old) (W.faults wire.new) result.fault }
{
    node_steps_lead();
    let mut node = Node::new(alloc, state);
    let mut taken = 0;
    loop {
        if node.halted() {
            return end_run(None, taken, node.stop());
        }
        if taken == turns {
            return end_run(Some(NodeStop::OutOfTurns), taken, node.stop());
        }
        let event = match wire.next() {
            Ok(event) => event,
            Err(fault) => return end_run(Some(wire_stop(fault)), taken, node.stop()),
        };
        taken += 1;
        node = match take_event(rt, alloc, wire, node, &event) {
            Ok(node) => node,
            Err((stop, banks)) => return end_run(Some(stop), taken, banks),
        };
    }
}

/// Does an event, and then sends what is to be sent for it.
fn take_event<R: Threads + Sync, W: Wire, B: Banks>(
    rt: &R,
    alloc: Global,
    wire: &mut W,
    node: Node<B>,
    event: &Event,
) -> Result<Node<B>, (NodeStop, B)>
    requires opened { IsOpen node.state }
    requires going { node.halted ≡ false }
    ensures done { IfOk result (λ next. DoesTurn B.log node event.now (W.log wire.old) next (W.log wire.new)) }
    ensures opened { IfOk result (λ next. IsOpen next.state) }
    ensures stopped { IfErr result
        (λ refused. StopsTurn refused.0 B.log node event.now (W.log wire.old) refused.1 (W.log wire.new)) }
    ensures told { StaysTold (B.log (node_banks node)) (B.log (node_banks_after result)) }
    ensures taken { W.taken wire.new ≡ W.taken wire.old }
    ensures meter { Meters (B.meter (node_banks node)) (B.meter (node_banks_after result)) (FailsOnBanks result) }
    ensures wire { HasTurnCause (W.faults wire.old) (W.faults wire.new) result }
{
    let (node, sent) = match node.on_event(rt, alloc, event) {
        Ok(done) => done,
        Err((fault, banks)) => return Err((event_stop(fault), banks)),
    };
    if let Err(fault) = send_all(wire, sent.as_slice()) {
        return Err((wire_stop(fault), node.stop()));
    }
    Ok(node)
}

/// Sends what is to be sent, in order.
fn send_all<W: Wire>(wire: &mut W, sent: &[Sent]) -> Result<(), IoFault>
    ensures ok { OnOk result (Sends sent.now (W.log wire.old) (W.log wire.new)) }
    ensures err { OnErr result (SendsFront sent.now (W.log wire.old) (W.log wire.new)) }
    ensures taken { W.taken wire.new ≡ W.taken wire.old }
    ensures cause { HasSinkCause (W.faults wire.old) (W.faults wire.new) result }
{
    for one in sent {
        send_one(wire, one)?;
    }
    Ok(())
}

/// Sends bytes on a connection, which is shut behind them where that is said.
fn send_one<W: Wire>(wire: &mut W, one: &Sent) -> Result<(), IoFault>
    ensures ok { OnOk result (W.log wire.new ≡ option_map (log_with one.now) (W.log wire.old)) }
    ensures err { OnErr result (W.log wire.new ≡ W.log wire.old) }
    ensures taken { W.taken wire.new ≡ W.taken wire.old }
    ensures cause { HasSinkCause (W.faults wire.old) (W.faults wire.new) result }
{
    wire.send(one.conn, one.piece.as_slice())?;
    if one.shut {
        wire.shut(one.conn);
    }
    Ok(())
}
