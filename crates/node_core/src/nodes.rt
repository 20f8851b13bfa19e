//! The node.
ghost use Rattle.std.specs.Prelude.{◌≡◌, [], None, false, IfOk, IfErr};
ghost use Rattle.node_model.specs.journal_store.Closing.{StaysTold};
ghost use Rattle.node_model.specs.shell_session.SessionLines.{Meters};
ghost use Rattle.node_model.specs.Connections.{opened, without};
ghost use Rattle.mld_io.specs.declared.events.Event.TheVariants as events;
ghost use Rattle.node_core.specs.NodeStates.{FindsNow, IsOpen, keeper_of};
ghost use Rattle.node_core.specs.NodeStates as states;
ghost use Rattle.node_model.specs.Keepers.{keeper_found};
ghost use Rattle.node_core.specs.Nodes.{MayGoOn, node_banks, banks_left, IsDeviceFault};
ghost use Rattle.node_core.specs.NodeEvents.{DoesEvent, StopsEvent};
ghost use Rattle.node_core.specs.Steps.{node_with, taken_node, GreetsOn};

use crate::faults::NodeFault;
use crate::greeting::hello;
use crate::pieces::{Rest, Taken, take_piece};
use crate::states::NodeState;
use mld_io::{Banks, Event};
use node_model::{Connection, Role, Sent, place_connection, take_connection};
use std::alloc::{AllocError, Global};
use std::marker::Model;
use std::thread::Threads;
use wire_frames::Frames;
/// A node: a live clone on its banks, or one who asks for a leaf; its connections, in ascending number; and whether it has ended.
#[derive(Drop)]
pub struct Node<B: Banks> {
    state: NodeState<B>,
    connections: Vec<Connection>,
    halted: bool,
}

impl<B: Banks> Model for Node<B> {
    ghost use Rattle.node_core.specs.Nodes.{BankedNode, MayGoOn};

    ghost Value = { BankedNode B };

    ghost view = { λ node. record { state = node.state; connections = node.connections.items; halted = node.halted } };

    ghost invariant = { λ node. MayGoOn node.connections.items };
}

impl<B: Banks> Node<B> {
    /// A node with no connection. It takes no memory.
    pub fn new(alloc: Global, state: NodeState<B>) -> Node<B>
        ensures { result ≡ record { state = state; connections = []; halted = false } }
    {
        Node {
            state,
            connections: Vec::new(alloc),
            halted: false,
        }
    }

    /// Does an event of the wire, and gives what is to be sent, in order, once its durable steps stand on the banks.
    ///
    /// # Errors
    ///
    /// `Device` where the device failed, and `NoMemory`. The banks are given back.
    pub fn on_event<R: Threads + Sync>(
        self,
        rt: &R,
        alloc: Global,
        event: &Event,
    ) -> Result<(Node<B>, Vec<Sent>), (NodeFault, B)>
        requires opened { IsOpen self.state }
        requires going { self.halted ≡ false }
        ensures done { IfOk result (λ done. DoesEvent B.log self event.now done.0 done.1.items) }
        ensures opened { IfOk result (λ done. IsOpen done.0.state) }
        ensures stopped { IfErr result (λ refused. StopsEvent B.log self event.now refused.1) }
        ensures told { StaysTold (B.log (node_banks self)) (B.log (banks_left (λ done. node_banks done.0) result)) }
        ensures fault { Meters (B.meter (node_banks self)) (B.meter (banks_left (λ done. node_banks done.0) result))
            (IsDeviceFault result) }
    {
        let Node {
            state,
            connections,
            ..
        } = self;
        match do_event(rt, alloc, state, connections, event) {
            Ok(taken) => Ok(going_on(taken)),
            Err(refused) => Err(refused),
        }
    }

    /// Whether it has ended: no event may come then.
    pub fn halted(&self) -> bool
        ensures { result ≡ self.now.halted }
    {
        self.halted
    }

    /// The banks, which keep what the node has where it is open. A live clone stops. It takes no memory and calls no device.
    pub fn stop(self) -> B
        ensures banks { result ≡ node_banks self }
        ensures kept { IsOpen self.state → FindsNow (keeper_found (keeper_of self.state)) (B.log result) }
    {
        self.state.into_banks()
    }
}

/// The node behind an event, and what is to be sent.
fn going_on<B: Banks>(taken: Taken<B>) -> (Node<B>, Vec<Sent>)
    requires { MayGoOn taken.rest.connections.items }
    ensures node { result.0 ≡ taken_node taken }
    ensures sent { result.1 ≡ taken.rest.sent }
{
    let Taken { state, rest } = taken;
    let Rest {
        sent,
        connections,
        halted,
    } = rest;
    (
        Node {
            state,
            connections,
            halted,
        },
        sent,
    )
}

/// Does an event.
fn do_event<R: Threads + Sync, B: Banks>(
    rt: &R,
    alloc: Global,
    state: NodeState<B>,
    connections: Vec<Connection>,
    event: &Event,
) -> Result<Taken<B>, (NodeFault, B)>
    requires opened { IsOpen state }
    requires well { MayGoOn connections.items }
    ensures done { IfOk result (λ taken. DoesEvent B.log (node_with state connections.items) event.now
        (taken_node taken) taken.rest.sent.items) }
    ensures well { IfOk result (λ taken. MayGoOn taken.rest.connections.items) }
    ensures opened { IfOk result (λ taken. IsOpen taken.state) }
    ensures stopped { IfErr result (λ refused. StopsEvent B.log (node_with state connections.items) event.now refused.1) }
    ensures told { StaysTold (B.log (states.state_banks state))
        (B.log (banks_left (λ taken. states.state_banks taken.state) result)) }
    ensures fault { Meters (B.meter (states.state_banks state))
        (B.meter (banks_left (λ taken. states.state_banks taken.state) result)) (IsDeviceFault result) }
{
    match event {
        Event::Opened(number) => open(alloc, state, connections, *number),
        Event::Bytes(number, piece) => {
            read(rt, alloc, state, connections, *number, piece.as_slice())
        }
        Event::Shut(number) => Ok(forget(alloc, state, connections, *number)),
        Event::End => Ok(becomes(alloc, state, connections, true)),
    }
}

/// A connection was opened, and begins anew where it was known: it is told who the node is.
fn open<B: Banks>(
    alloc: Global,
    state: NodeState<B>,
    connections: Vec<Connection>,
    number: u32,
) -> Result<Taken<B>, (NodeFault, B)>
    requires well { MayGoOn connections.items }
    ensures done { IfOk result (λ taken. GreetsOn state connections.items number taken.rest) }
    ensures well { IfOk result (λ taken. MayGoOn taken.rest.connections.items) }
    ensures same { IfOk result (λ taken. taken.state ≡ state) }
    ensures err { IfErr result (λ refused. refused ≡ (NodeFault.NoMemory, states.state_banks state)) }
{
    match opened(alloc, &state, connections, number) {
        Ok(rest) => Ok(Taken { state, rest }),
        Err(AllocError) => Err((NodeFault::NoMemory, state.into_banks())),
    }
}

/// The connections with one more, which begins anew where it was known, and the Hello to it.
fn opened<B: Banks>(
    alloc: Global,
    state: &NodeState<B>,
    mut connections: Vec<Connection>,
    number: u32,
) -> Result<Rest, AllocError>
    requires well { MayGoOn connections.items }
    ensures done { IfOk result (GreetsOn state.now connections.items number) }
    ensures well { IfOk result (λ rest. MayGoOn rest.connections.items) }
{
    let piece = hello(alloc, state)?;
    let mut sent = Vec::new(alloc);
    sent.push(Sent {
        conn: number,
        piece,
        shut: false,
    })?;
    take_connection(&mut connections, number);
    place_connection(&mut connections, fresh(alloc, number))?;
    Ok(Rest {
        sent,
        connections,
        halted: false,
    })
}

/// A connection that was just opened.
fn fresh(alloc: Global, number: u32) -> Connection
    ensures { result ≡ opened number }
{
    Connection {
        number,
        frames: Frames::new(alloc),
        role: Role::Fresh,
        sends: 0,
    }
}

/// A piece came on a connection. Where it isn't known nothing changes.
fn read<R: Threads + Sync, B: Banks>(
    rt: &R,
    alloc: Global,
    state: NodeState<B>,
    mut connections: Vec<Connection>,
    number: u32,
    piece: &[u8],
) -> Result<Taken<B>, (NodeFault, B)>
    requires opened { IsOpen state }
    requires well { MayGoOn connections.items }
    ensures done { IfOk result (λ taken. DoesEvent B.log (node_with state connections.items)
        (events.Bytes number piece.now) (taken_node taken) taken.rest.sent.items) }
    ensures well { IfOk result (λ taken. MayGoOn taken.rest.connections.items) }
    ensures opened { IfOk result (λ taken. IsOpen taken.state) }
    ensures stopped { IfErr result
        (λ refused. StopsEvent B.log (node_with state connections.items) (events.Bytes number piece.now) refused.1) }
    ensures told { StaysTold (B.log (states.state_banks state))
        (B.log (banks_left (λ taken. states.state_banks taken.state) result)) }
    ensures fault { Meters (B.meter (states.state_banks state))
        (B.meter (banks_left (λ taken. states.state_banks taken.state) result)) (IsDeviceFault result) }
{
    match take_connection(&mut connections, number) {
        Some(one) => take_piece(rt, alloc, state, one, connections, piece),
        None => Ok(becomes(alloc, state, connections, false)),
    }
}

/// A connection was shut, and is forgotten.
fn forget<B: Banks>(
    alloc: Global,
    state: NodeState<B>,
    mut connections: Vec<Connection>,
    number: u32,
) -> Taken<B>
    requires { MayGoOn connections.items }
    ensures sent { result.rest.sent.items ≡ [] }
    ensures node { taken_node result
        ≡ record { state = state; connections = without number connections.items; halted = false } }
    ensures well { MayGoOn result.rest.connections.items }
{
    take_connection(&mut connections, number);
    becomes(alloc, state, connections, false)
}

/// Nothing is sent, and the node has this.
fn becomes<B: Banks>(
    alloc: Global,
    state: NodeState<B>,
    connections: Vec<Connection>,
    halted: bool,
) -> Taken<B>
    ensures sent { result.rest.sent.items ≡ [] }
    ensures node { taken_node result ≡ record { state = state; connections = connections.items; halted = halted } }
{
    Taken {
        state,
        rest: Rest {
            sent: Vec::new(alloc),
            connections,
            halted,
        },
    }
}
