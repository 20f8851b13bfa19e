//! The parts of an exchange, and what goes on with them.
ghost use Rattle.std.specs.Prelude.{◌≡◌, map, OnOk};
ghost use Rattle.mld_ops.specs.Messages.{CarriesEntry, message_value};
ghost use Rattle.node_model.specs.Exchanges.{refusing, telling, telling_each, telling_peers, telling_peers_each};
ghost use Rattle.node_model.specs.Sending.{exchange_of};

use crate::connections::{Connection, Sent};
use crate::sending::{has_peer, payload_of, refuse_on, send_on, send_to_peers};
use mld_ops::{Entry, Message};
use std::alloc::{AllocError, Global};
use std::mem;

/// What was sent so far, the connection at hand, the others, and whether the node is to end.
#[derive(Drop)]
pub struct ExchangeParts {
    pub alloc: Global,
    pub sent: Vec<Sent>,
    pub at_hand: Option<Connection>,
    pub others: Vec<Connection>,
    pub halted: bool,
}

/// Refuses the connection at hand by a code, where it is still there.
pub(crate) fn refuse_at_hand(parts: &mut ExchangeParts, code: u8) -> Result<(), AllocError>
    ensures { OnOk result (exchange_of parts.new ≡ refusing code (exchange_of parts.old)) }
{
    let Some(one) = parts.at_hand.take() else {
        return Ok(());
    };
    refuse_on(parts.alloc, &mut parts.sent, one.number, code)
}

/// Sends a message to the connection at hand, where it is still there.
pub(crate) fn tell_at_hand(parts: &mut ExchangeParts, message: &Message) -> Result<(), AllocError>
    ensures { OnOk result (exchange_of parts.new ≡ telling (message_value message.now) (exchange_of parts.old)) }
{
    let Some(one) = parts.at_hand.take() else {
        return Ok(());
    };
    let payload = payload_of(parts.alloc, message)?;
    parts.at_hand = send_on(parts.alloc, &mut parts.sent, &payload, one)?;
    Ok(())
}

/// Sends messages to the connection at hand, one after another.
pub(crate) fn tell_each_at_hand(
    parts: &mut ExchangeParts,
    messages: &[Message],
) -> Result<(), AllocError>
    ensures { OnOk result
        (exchange_of parts.new ≡ telling_each (map message_value messages.now) (exchange_of parts.old)) }
{
    for message in messages {
        tell_at_hand(parts, message)?;
    }
    Ok(())
}

/// Sends a message to each peer but the one at hand, for which it is encoded once.
pub(crate) fn tell_others(parts: &mut ExchangeParts, message: &Message) -> Result<(), AllocError>
    ensures { OnOk result (exchange_of parts.new ≡ telling_peers (message_value message.now) (exchange_of parts.old)) }
{
    if !has_peer(&parts.others) {
        return Ok(());
    }
    let payload = payload_of(parts.alloc, message)?;
    let others = mem::replace(&mut parts.others, Vec::new(parts.alloc));
    parts.others = send_to_peers(parts.alloc, &mut parts.sent, &payload, others)?;
    Ok(())
}

/// Sends an entry to each peer but the one at hand.
fn tell_others_entry(parts: &mut ExchangeParts, entry: &Entry) -> Result<(), AllocError>
    ensures { OnOk result (exchange_of parts.new ≡ telling_peers (CarriesEntry entry.now) (exchange_of parts.old)) }
{
    if !has_peer(&parts.others) {
        return Ok(());
    }
    let message = Message::Range(entry.copy_in(parts.alloc)?);
    tell_others(parts, &message)
}

/// Sends entries to each peer but the one at hand, one after another.
pub(crate) fn tell_others_each(
    parts: &mut ExchangeParts,
    entries: &[Entry],
) -> Result<(), AllocError>
    ensures { OnOk result
        (exchange_of parts.new ≡ telling_peers_each (map CarriesEntry entries.now) (exchange_of parts.old)) }
{
    for entry in entries {
        tell_others_entry(parts, entry)?;
    }
    Ok(())
}
