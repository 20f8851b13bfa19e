//! What a node does with a piece of a connection.
ghost use Rattle.std.specs.Prelude.{◌≡◌, None, IfOk, IfErr, OnOk};
ghost use Rattle.node_model.specs.journal_store.Closing.{StaysTold};
ghost use Rattle.node_model.specs.shell_session.SessionLines.{Meters};
ghost use Rattle.node_model.specs.Connections.{AreNumbered, connection_of};
ghost use Rattle.node_core.specs.NodeStates.{IsOpen, state_banks};
ghost use Rattle.node_model.specs.FrameSteps.{refusal_code, faulting};
ghost use Rattle.node_core.specs.Nodes.{IsGood, MayGoOn, banks_left, IsDeviceFault};
ghost use Rattle.node_model.specs.Events.{put_back};
ghost use Rattle.node_core.specs.NodeEvents.{StopsFrames, StopsPiece};
ghost use Rattle.node_core.specs.Steps.{MayEnd, ExchangeEnds, MayPutBack, TakesFed, TakesPieceOn};

use crate::faults::NodeFault;
use crate::frames::take_frames;
use crate::states::NodeState;
use mld_io::Banks;
use node_model::{BAD_FRAME, Connection, Exchange, LONG_FRAME, Sent, place_connection};
use std::alloc::{AllocError, Global};
use std::thread::Threads;
use wire_frames::{Fed, FrameFault};

/// What a node has behind an event.
#[derive(Drop)]
pub struct Taken<B: Banks> {
    pub state: NodeState<B>,
    pub rest: Rest,
}

/// What is to be sent behind an event, the connections, and whether the node has ended.
#[derive(Drop)]
pub struct Rest {
    pub sent: Vec<Sent>,
    pub connections: Vec<Connection>,
    pub halted: bool,
}

/// Takes a piece that came on a connection, which doesn't stand among the others now.
///
/// # Errors
///
/// `Device` where the device failed, and `NoMemory`. The banks are given back.
pub(crate) fn take_piece<R: Threads + Sync, B: Banks>(
    rt: &R,
    alloc: Global,
    state: NodeState<B>,
    mut one: Connection,
    others: Vec<Connection>,
    piece: &[u8],
) -> Result<Taken<B>, (NodeFault, B)>
    requires opened { IsOpen state }
    requires good { IsGood one }
    requires others { MayGoOn others.items }
    requires apart { connection_of one.number others.items ≡ None }
    ensures done { IfOk result (TakesPieceOn B.log state one others.items piece.now) }
    ensures well { IfOk result (λ taken. MayGoOn taken.rest.connections.items) }
    ensures opened { IfOk result (λ taken. IsOpen taken.state) }
    ensures stopped { IfErr result (λ refused. StopsPiece B.log one others.items piece.now state refused.1) }
    ensures told { StaysTold (B.log (state_banks state)) (B.log (banks_left (λ taken. state_banks taken.state) result)) }
    ensures fault { Meters (B.meter (state_banks state)) (B.meter (banks_left (λ taken. state_banks taken.state) result))
        (IsDeviceFault result) }
{
    match one.frames.feed(piece) {
        Ok(fed) => take_fed(rt, alloc, state, Exchange::new(alloc, one, others), fed),
        Err(AllocError) => Err((NodeFault::NoMemory, state.into_banks())),
    }
}

/// Takes frames that came on the connection at hand, and the fault behind them.
fn take_fed<R: Threads + Sync, B: Banks>(
    rt: &R,
    alloc: Global,
    state: NodeState<B>,
    mut exchange: Exchange,
    fed: Fed,
) -> Result<Taken<B>, (NodeFault, B)>
    requires opened { IsOpen state }
    requires goes_on { MayEnd fed.fault exchange }
    ensures done { IfOk result (TakesFed B.log state exchange fed) }
    ensures well { IfOk result (λ taken. MayGoOn taken.rest.connections.items) }
    ensures opened { IfOk result (λ taken. IsOpen taken.state) }
    ensures stopped { IfErr result (λ refused. StopsFrames B.log fed.frames.items state exchange refused.1) }
    ensures told { StaysTold (B.log (state_banks state)) (B.log (banks_left (λ taken. state_banks taken.state) result)) }
    ensures fault { Meters (B.meter (state_banks state)) (B.meter (banks_left (λ taken. state_banks taken.state) result))
        (IsDeviceFault result) }
{
    let Fed { frames, fault } = fed;
    match take_frames(rt, alloc, state, frames, &mut exchange) {
        Ok(state) => finish(state, exchange, fault),
        Err(refused) => Err(refused),
    }
}

/// Ends an exchange behind its frames, by the fault that stands there, if there is one.
fn finish<B: Banks>(
    state: NodeState<B>,
    exchange: Exchange,
    fault: Option<FrameFault>,
) -> Result<Taken<B>, (NodeFault, B)>
    ensures ends { IfOk result (λ taken. ExchangeEnds fault exchange taken.rest) }
    ensures well { MayEnd fault exchange → IfOk result (λ taken. MayGoOn taken.rest.connections.items) }
    ensures same { IfOk result (λ taken. taken.state ≡ state) }
    ensures err { IfErr result (λ refused. refused ≡ (NodeFault.NoMemory, state_banks state)) }
{
    match end(exchange, fault) {
        Ok(rest) => Ok(Taken { state, rest }),
        Err(AllocError) => Err((NodeFault::NoMemory, state.into_banks())),
    }
}

/// Ends an exchange by the fault behind its frames, if there is one. The connection at hand goes back to its place, where it is still
/// there.
fn end(mut exchange: Exchange, fault: Option<FrameFault>) -> Result<Rest, AllocError>
    ensures ends { IfOk result (ExchangeEnds fault exchange) }
    ensures well { MayEnd fault exchange → IfOk result (λ rest. MayGoOn rest.connections.items) }
{
    fail(&mut exchange, fault)?;
    let halted = exchange.is_halted();
    let (sent, at_hand, mut connections) = exchange.into_parts();
    put_back(&mut connections, at_hand)?;
    Ok(Rest {
        sent,
        connections,
        halted,
    })
}

/// Puts the connection at hand back in its place, where it is still there.
fn put_back(
    connections: &mut Vec<Connection>,
    at_hand: Option<Connection>,
) -> Result<(), AllocError>
    ensures placed { OnOk result (connections.new.items ≡ put_back at_hand connections.old.items) }
    ensures numbered { OnOk result (MayPutBack at_hand connections.old.items → AreNumbered connections.new.items) }
{
    match at_hand {
        Some(one) => place_connection(connections, one),
        None => Ok(()),
    }
}

/// Refuses the connection at hand for a fault of its frames; where the node is to end, it is dropped with the fault.
fn fail(exchange: &mut Exchange, fault: Option<FrameFault>) -> Result<(), AllocError>
    ensures { OnOk result (exchange.new ≡ faulting fault exchange.old) }
{
    let Some(fault) = fault else {
        return Ok(());
    };
    if exchange.is_halted() {
        exchange.forget();
        return Ok(());
    }
    exchange.refuse(code_of(&fault))
}

/// The code by which a fault of frames is refused.
fn code_of(fault: &FrameFault) -> u8
    ensures { result ≡ refusal_code fault.now }
{
    match fault {
        FrameFault::BadFrame { .. } => BAD_FRAME,
        FrameFault::TooLong { .. } => LONG_FRAME,
    }
}
