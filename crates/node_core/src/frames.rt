//! What a node does with a frame.
ghost use Rattle.std.specs.Prelude.{◌≡◌, ℕ, false, Some, IfOk, IfErr, OnOk, IsTrue};
ghost use Rattle.node_model.specs.journal_store.Closing.{StaysTold};
ghost use Rattle.node_model.specs.shell_session.SessionLines.{Meters};
ghost use Rattle.wire_frames.specs.declared.kinds.Frame.TheVariants as kinds;
ghost use Rattle.wire_frames.specs.Frames.{FramesValue};
ghost use Rattle.node_model.specs.Connections.{is_peer, as_peer};
ghost use Rattle.node_model.specs.Exchanges.{holding, refusing, telling};
ghost use Rattle.node_model.specs.RefusalCodes.{misplaced_code};
ghost use Rattle.node_core.specs.NodeStates.{IsOpen, state_banks, keeper_of, state_banks_after, StateFailsOnDevice};
ghost use Rattle.node_model.specs.Keepers.{question_of};
ghost use Rattle.node_core.specs.Nodes.{IsGoodRole};
ghost use Rattle.node_core.specs.NodeEvents.{StopsFrame, StopsFrames};
ghost use Rattle.node_core.specs.Steps.{TakesFrame, TakesFrames, MayAddPart, ExchangeGoesOn, is_fresh};

use crate::faults::NodeFault;
use crate::greeting::refusal;
use crate::messages::receive_message;
use crate::requests::answer_request;
use crate::states::NodeState;
use mld_io::{Banks, Piece};
use node_model::{BAD_FRAME, Connection, Exchange, MISPLACED, Role};
use std::alloc::{AllocError, Global};
use std::thread::Threads;
use text_rules::Text;
use uuid::Uuid;
use wire_frames::{Assembled, Assembly, AssemblyFault, Frame};

/// Takes frames that came on the connection at hand, one after another. Those behind one by which it was refused, or by which the node is
/// to end, are dropped.
///
/// # Errors
///
/// `Device` where the device failed, and `NoMemory`. The banks are given back.
pub(crate) fn take_frames<R: Threads + Sync, B: Banks>(
    rt: &R,
    alloc: Global,
    state: NodeState<B>,
    frames: Vec<Frame>,
    exchange: &mut Exchange,
) -> Result<NodeState<B>, (NodeFault, B)>
    requires opened { IsOpen state }
    requires goes_on { (number : ℕ) × (reader : FramesValue) × ExchangeGoesOn number reader exchange.old }
    ensures done { IfOk result (λ next. TakesFrames B.log frames.items state exchange.old next exchange.new) }
    ensures opened { IfOk result IsOpen }
    ensures stopped { IfErr result (λ refused. StopsFrames B.log frames.items state exchange.old refused.1) }
    ensures told { StaysTold (B.log (state_banks state)) (B.log (state_banks_after result)) }
    ensures fault { Meters (B.meter (state_banks state)) (B.meter (state_banks_after result)) (StateFailsOnDevice result) }
{
    let mut state = state;
    for frame in frames {
        if exchange.is_halted() {
            return Ok(state);
        }
        let Some(one) = exchange.take_at_hand() else {
            return Ok(state);
        };
        state = match take_frame(rt, alloc, state, one, frame, exchange) {
            Ok(next) => next,
            Err(refused) => return Err(refused),
        };
    }
    Ok(state)
}

/// Takes a frame that came on a connection, which is at hand then, if it isn't refused.
fn take_frame<R: Threads + Sync, B: Banks>(
    rt: &R,
    alloc: Global,
    state: NodeState<B>,
    one: Connection,
    frame: Frame,
    exchange: &mut Exchange,
) -> Result<NodeState<B>, (NodeFault, B)>
    requires opened { IsOpen state }
    requires good { IsGoodRole one.role }
    ensures done { IfOk result (λ next. TakesFrame B.log one frame state (holding one exchange.old) next exchange.new) }
    ensures opened { IfOk result IsOpen }
    ensures stopped { IfErr result (λ refused. StopsFrame B.log one.role frame state refused.1) }
    ensures told { StaysTold (B.log (state_banks state)) (B.log (state_banks_after result)) }
    ensures fault { Meters (B.meter (state_banks state)) (B.meter (state_banks_after result)) (StateFailsOnDevice result) }
{
    match frame {
        Frame::Hello(format, id, domain) => {
            greet(alloc, state, one, format, &id, &domain, exchange)
        }
        Frame::Part(number, index, count, piece) => {
            take_part(rt, alloc, state, one, number, index, count, piece, exchange)
        }
        Frame::Request(line) => take_request(rt, alloc, state, one, line.as_slice(), exchange),
        Frame::Reply(_, _) => misplace(state, one, exchange),
        Frame::Refuse(_) => misplace(state, one, exchange),
    }
}

/// Takes a Hello. It is the first frame of a connection; its sender is refused, or is a peer and is asked for what is lacked.
fn greet<B: Banks>(
    alloc: Global,
    state: NodeState<B>,
    one: Connection,
    format: u8,
    id: &Uuid,
    domain: &Text,
    exchange: &mut Exchange,
) -> Result<NodeState<B>, (NodeFault, B)>
    ensures done { IfOk result (λ next. TakesFrame B.log one (kinds.Hello format id.now domain.now) state
        (holding one exchange.old) next exchange.new) }
    ensures same { IfOk result (λ next. next ≡ state) }
    ensures err { IfErr result (λ refused. refused ≡ (NodeFault.NoMemory, state_banks state)) }
{
    if !is_fresh(&one.role) {
        return misplace(state, one, exchange);
    }
    if let Some(code) = refusal(&state, format, id, domain) {
        exchange.hold(one);
        return refuse(state, code, exchange);
    }
    exchange.hold(peer(alloc, one));
    ask(alloc, state, exchange)
}

/// Takes a request, of a connection that is no peer's.
fn take_request<R: Threads + Sync, B: Banks>(
    rt: &R,
    alloc: Global,
    state: NodeState<B>,
    one: Connection,
    line: &[u8],
    exchange: &mut Exchange,
) -> Result<NodeState<B>, (NodeFault, B)>
    requires opened { IsOpen state }
    ensures done { IfOk result
        (λ next. TakesFrame B.log one (kinds.Request line.now) state (holding one exchange.old) next exchange.new) }
    ensures opened { IfOk result IsOpen }
    ensures stopped { IfErr result (λ refused. StopsFrame B.log one.role (kinds.Request line.now) state refused.1) }
    ensures told { StaysTold (B.log (state_banks state)) (B.log (state_banks_after result)) }
    ensures fault { Meters (B.meter (state_banks state)) (B.meter (state_banks_after result)) (StateFailsOnDevice result) }
{
    if is_peer(&one.role) {
        return misplace(state, one, exchange);
    }
    exchange.hold(one);
    answer_request(rt, alloc, state, line, exchange)
}

/// Takes a part of a message, of a peer. A message that is whole then is received.
fn take_part<R: Threads + Sync, B: Banks>(
    rt: &R,
    alloc: Global,
    state: NodeState<B>,
    mut one: Connection,
    number: u32,
    index: u32,
    count: u32,
    piece: Piece,
    exchange: &mut Exchange,
) -> Result<NodeState<B>, (NodeFault, B)>
    requires opened { IsOpen state }
    requires good { IsGoodRole one.role }
    ensures done { IfOk result (λ next. TakesFrame B.log one (kinds.Part number index count piece) state
        (holding one exchange.old) next exchange.new) }
    ensures opened { IfOk result IsOpen }
    ensures stopped { IfErr result
        (λ refused. StopsFrame B.log one.role (kinds.Part number index count piece) state refused.1) }
    ensures told { StaysTold (B.log (state_banks state)) (B.log (state_banks_after result)) }
    ensures fault { Meters (B.meter (state_banks state)) (B.meter (state_banks_after result)) (StateFailsOnDevice result) }
{
    let added = add_part(&mut one, number, index, count, piece);
    exchange.hold(one);
    match added {
        None => refuse(state, MISPLACED, exchange),
        Some(Ok(Assembled::Waiting(_))) => Ok(state),
        Some(Ok(Assembled::Whole(message))) => {
            receive_message(rt, alloc, state, &message, exchange)
        }
        Some(Err(AssemblyFault::BadPart)) => refuse(state, BAD_FRAME, exchange),
        Some(Err(AssemblyFault::NoMemory)) => Err((NodeFault::NoMemory, state.into_banks())),
    }
}

/// What the assembly of a peer gives for a part.
fn add_part(
    one: &mut Connection,
    number: u32,
    index: u32,
    count: u32,
    piece: Piece,
) -> Option<Result<Assembled, AssemblyFault>>
    requires { IsGoodRole one.old.role }
    ensures { MayAddPart one.old number index count piece result one.new }
{
    match &mut one.role {
        Role::Peer(assembly) => Some(assembly.add(number, index, count, piece)),
        Role::Fresh | Role::Client => None,
    }
}

/// Refuses a connection on which a frame came that may not come on it.
fn misplace<B: Banks>(
    state: NodeState<B>,
    one: Connection,
    exchange: &mut Exchange,
) -> Result<NodeState<B>, (NodeFault, B)>
    ensures sent { OnOk result (exchange.new ≡ refusing misplaced_code (holding one exchange.old)) }
    ensures same { IfOk result (λ next. next ≡ state) }
    ensures err { IfErr result (λ refused. refused ≡ (NodeFault.NoMemory, state_banks state)) }
{
    exchange.hold(one);
    refuse(state, MISPLACED, exchange)
}

/// Refuses the connection at hand by a code.
fn refuse<B: Banks>(
    state: NodeState<B>,
    code: u8,
    exchange: &mut Exchange,
) -> Result<NodeState<B>, (NodeFault, B)>
    ensures sent { OnOk result (exchange.new ≡ refusing code exchange.old) }
    ensures same { IfOk result (λ next. next ≡ state) }
    ensures err { IfErr result (λ refused. refused ≡ (NodeFault.NoMemory, state_banks state)) }
{
    match exchange.refuse(code) {
        Ok(()) => Ok(state),
        Err(AllocError) => Err((NodeFault::NoMemory, state.into_banks())),
    }
}

/// Asks the connection at hand for what is lacked.
fn ask<B: Banks>(
    alloc: Global,
    state: NodeState<B>,
    exchange: &mut Exchange,
) -> Result<NodeState<B>, (NodeFault, B)>
    ensures sent { OnOk result (exchange.new ≡ telling (question_of (keeper_of state)) exchange.old) }
    ensures same { IfOk result (λ next. next ≡ state) }
    ensures err { IfErr result (λ refused. refused ≡ (NodeFault.NoMemory, state_banks state)) }
{
    match tell_question(alloc, &state, exchange) {
        Ok(()) => Ok(state),
        Err(AllocError) => Err((NodeFault::NoMemory, state.into_banks())),
    }
}

/// Sends what is asked for to the connection at hand.
fn tell_question<B: Banks>(
    alloc: Global,
    state: &NodeState<B>,
    exchange: &mut Exchange,
) -> Result<(), AllocError>
    ensures { OnOk result (exchange.new ≡ telling (question_of (keeper_of state.now)) exchange.old) }
{
    let question = state.question(alloc)?;
    exchange.tell(&question)
}

/// The connection as a peer's, of whose messages none came yet.
fn peer(alloc: Global, one: Connection) -> Connection
    ensures { result ≡ as_peer one }
{
    Connection {
        role: Role::Peer(Assembly::new(alloc)),
        ..one
    }
}

/// Whether no frame came on a connection yet.
fn is_fresh(role: &Role) -> bool
    ensures { result ≡ is_fresh role.now }
{
    matches!(role, Role::Fresh)
}

/// Whether a connection is a peer's.
fn is_peer(role: &Role) -> bool
    ensures { result ≡ is_peer role.now }
{
    matches!(role, Role::Peer(_))
}
