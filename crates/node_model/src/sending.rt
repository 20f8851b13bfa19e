//! Messages and refusals as they go out on connections.
ghost use Rattle.std.specs.Prelude.{◌≡◌, ◌++◌, ◌∷◌, [], IfOk, OnOk};
ghost use Rattle.mld_ops.specs.Messages.{MessageValue, message_value};
ghost use Rattle.wire_frames.specs.MessageParts.{next_number};
ghost use Rattle.node_model.specs.Connections.{is_peer};
ghost use Rattle.node_model.specs.Exchanges.{says, refuses};
ghost use Rattle.node_model.specs.Sending.{IsPayload, FitsParts, SendsOn, SendsToPeers, SendsIfPeer, any_peer};

use crate::connections::{Connection, Role, Sent};
use crate::refusals::LONG_MESSAGE;
use mld_io::Piece;
use mld_ops::Message;
use std::alloc::{AllocError, Global};
use wire_frames::{Frame, PartFault, cut_in_parts, message_payload, write_frame};

/// The bytes of a message, or none where it is too long to go in parts.
pub(crate) fn payload_of(alloc: Global, message: &Message) -> Result<Option<Piece>, AllocError>
    ensures payload { IfOk result (IsPayload (message_value message.now)) }
    ensures fits { IfOk result FitsParts }
{
    match message_payload(alloc, message) {
        Ok(bytes) => Ok(Some(Piece::from_vec(bytes))),
        Err(PartFault::MessageTooLong) => Ok(None),
        Err(PartFault::NoMemory) => Err(AllocError),
    }
}

/// Sends a message of these bytes on a connection, and gives the connection back for the next one. A message that is too long refuses it.
pub(crate) fn send_on(
    alloc: Global,
    sent: &mut Vec<Sent>,
    payload: &Option<Piece>,
    mut one: Connection,
) -> Result<Option<Connection>, AllocError>
    requires { FitsParts payload.now }
    ensures { (message : MessageValue) → IsPayload message payload.now
        → IfOk result (λ left. SendsOn message one sent.old.items sent.new.items left) }
{
    let Some(bytes) = payload else {
        refuse_on(alloc, sent, one.number, LONG_MESSAGE)?;
        return Ok(None);
    };
    let mut frames = Vec::new(alloc);
    cut_in_parts(&mut frames, one.sends, bytes.as_slice())?;
    say_on(sent, one.number, frames)?;
    one.sends = next_number(one.sends);
    Ok(Some(one))
}

/// Sends these bytes on the connection of a number.
pub(crate) fn say_on(sent: &mut Vec<Sent>, conn: u32, bytes: Vec<u8>) -> Result<(), AllocError>
    ensures { OnOk result (sent.new.items ≡ sent.old.items ++ says conn bytes.items ∷ []) }
{
    sent.push(Sent {
        conn,
        piece: Piece::from_vec(bytes),
        shut: false,
    })?;
    Ok(())
}

/// Refuses the connection of a number by a code: it is told that, and is shut.
pub(crate) fn refuse_on(
    alloc: Global,
    sent: &mut Vec<Sent>,
    conn: u32,
    code: u8,
) -> Result<(), AllocError>
    ensures { OnOk result (sent.new.items ≡ sent.old.items ++ refuses conn code ∷ []) }
{
    let mut bytes = Vec::new(alloc);
    write_frame(&mut bytes, &Frame::Refuse(code))?;
    sent.push(Sent {
        conn,
        piece: Piece::from_vec(bytes),
        shut: true,
    })?;
    Ok(())
}

/// Sends a message of these bytes on each peer of a list, and leaves those connections that it doesn't refuse.
pub(crate) fn send_to_peers(
    alloc: Global,
    sent: &mut Vec<Sent>,
    payload: &Option<Piece>,
    list: Vec<Connection>,
) -> Result<Vec<Connection>, AllocError>
    requires { FitsParts payload.now }
    ensures { (message : MessageValue) → IsPayload message payload.now
        → IfOk result (λ left. SendsToPeers message list.items sent.old.items sent.new.items left.items) }
{
    let mut left = Vec::with_capacity(alloc, list.len())?;
    for one in list {
        send_if_peer(alloc, sent, payload, one, &mut left)?;
    }
    Ok(left)
}

/// Sends a message of these bytes on a connection that is a peer's, and puts it behind those that are left, unless it is refused.
fn send_if_peer(
    alloc: Global,
    sent: &mut Vec<Sent>,
    payload: &Option<Piece>,
    one: Connection,
    left: &mut Vec<Connection>,
) -> Result<(), AllocError>
    requires { FitsParts payload.now }
    ensures { (message : MessageValue) → IsPayload message payload.now
        → OnOk result (SendsIfPeer message one sent.old.items left.old.items sent.new.items left.new.items) }
{
    if !is_peer(&one.role) {
        left.push(one)?;
        return Ok(());
    }
    if let Some(one) = send_on(alloc, sent, payload, one)? {
        left.push(one)?;
    }
    Ok(())
}

/// Whether one of a list is a peer.
pub(crate) fn has_peer(list: &[Connection]) -> bool
    ensures { result ≡ any_peer list.now }
{
    for one in list {
        if is_peer(&one.role) {
            return true;
        }
    }
    false
}

/// Whether a connection is a peer's.
fn is_peer(role: &Role) -> bool
    ensures { result ≡ is_peer role.now }
{
    match role {
        Role::Peer(_) => true,
        Role::Fresh | Role::Client => false,
    }
}

/// The number of the message behind the one of this number.
fn next_number(number: u32) -> u32
    ensures { result ≡ next_number number }
{
    if number == u32::MAX { 0 } else { number + 1 }
}
