//! What goes out over the connections of a node.
ghost use Rattle.std.specs.Prelude.{◌≡◌, ◌≤◌, Some, length, OnOk};
ghost use Rattle.mld_ops.specs.Messages.{CarriesWant};
ghost use Rattle.wire_frames.specs.Frames.{frames_bytes};
ghost use Rattle.wire_frames.specs.MessageParts.{reply_parts};
ghost use Rattle.node_model.specs.declared.connections.Connection.{Connection as ConnectionValue};
ghost use Rattle.node_model.specs.Connections.{as_client};
ghost use Rattle.node_model.specs.Exchanges.{saying, telling};
ghost use Rattle.node_core.specs.LoanCalls.{GreetsClient};

use mld_io::Banks;
use node_model::clone_core::MldClone;
use node_model::{Connection, Exchange, Role};
use std::alloc::{AllocError, Global};
use wire_frames::reply_frames;

/// Makes the connection at hand a client's, and tells its number.
pub(crate) fn greet_client(exchange: &mut Exchange) -> u32
    requires { (one : ConnectionValue) × (exchange.old.at_hand ≡ Some one) }
    ensures { (one : ConnectionValue) → exchange.old.at_hand ≡ Some one → GreetsClient one exchange.old result exchange.new }
{
    let Some(one) = exchange.take_at_hand() else {
        unreachable!()
    };
    let number = one.number;
    exchange.hold(client(one));
    number
}

/// The connection as a client's.
fn client(one: Connection) -> Connection
    ensures { result ≡ as_client one }
{
    Connection {
        role: Role::Client,
        ..one
    }
}

/// Sends the text of a reply on the connection of this number.
pub(crate) fn say_reply(
    alloc: Global,
    exchange: &mut Exchange,
    number: u32,
    text: &[u8],
) -> Result<(), AllocError>
    requires { 1 ≤ length text.now }
    ensures { OnOk result (exchange.new ≡ saying number (frames_bytes (reply_parts text.now)) exchange.old) }
{
    let mut frames = Vec::new(alloc);
    reply_frames(&mut frames, text)?;
    exchange.say(number, frames)
}

/// Asks the connection at hand for what the clone lacks.
pub(crate) fn tell_want<B: Banks>(
    alloc: Global,
    clone: &MldClone<B>,
    exchange: &mut Exchange,
) -> Result<(), AllocError>
    ensures { OnOk result (exchange.new ≡ telling (CarriesWant clone.now.local.ticks) exchange.old) }
{
    let want = clone.want(alloc)?;
    exchange.tell(&want)
}
