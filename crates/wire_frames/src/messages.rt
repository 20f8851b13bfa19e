//! Messages in parts.
ghost use Rattle.std.specs.Prelude.{◌≡◌, ◌++◌, ◌≤◌, length, IfOk, OnOk, OnErr, IsErrOf};
ghost use Rattle.mld_ops.specs.Messages.{message_value};
ghost use Rattle.op_codec.specs.MessageBytes.{message_bytes};
ghost use Rattle.rdf_terms.specs.Kept.{KeepsStart};
ghost use Rattle.wire_frames.specs.Frames.{message_limit, frames_bytes};
ghost use Rattle.wire_frames.specs.MessageParts.{IsTooLongMessage, message_parts, part_frames};

use crate::faults::PartFault;
use crate::kinds::PART_SIZE;
use crate::writing::append_part;
use mld_ops::Message;
use op_codec::{is_short_message, write_message};
use std::alloc::{AllocError, Global};

/// The most bytes of a message in parts.
const MESSAGE_LIMIT: usize = 1_073_741_824;

/// The bytes of a message that isn't too long to go in parts.
pub fn message_payload(alloc: Global, message: &Message) -> Result<Vec<u8>, PartFault>
    ensures bytes { IfOk result (λ bytes. bytes.items ≡ message_bytes (message_value message.now)) }
    ensures fits { OnOk result (length (message_bytes (message_value message.now)) ≤ message_limit) }
    ensures too_long { IsErrOf result PartFault.MessageTooLong → IsTooLongMessage (message_value message.now) }
{
    if !is_short_message(message) {
        return Err(PartFault::MessageTooLong);
    }
    let mut bytes = Vec::new(alloc);
    write_message(&mut bytes, message)?;
    if bytes.len() > MESSAGE_LIMIT {
        return Err(PartFault::MessageTooLong);
    }
    Ok(bytes)
}

/// Appends the parts of the message of this number that has these bytes.
fn append_parts(out: &mut Vec<u8>, number: u32, bytes: &[u8]) -> Result<(), AllocError>
    requires { length bytes.now ≤ message_limit }
    ensures ok { OnOk result (out.new.items ≡ out.old.items ++ frames_bytes (part_frames number bytes.now)) }
    ensures err { OnErr result (KeepsStart out.old.items out.new.items) }
{
    let count = ((bytes.len() + (PART_SIZE - 1)) / PART_SIZE) as u32;
    let mut rest = bytes;
    for index in 0..count {
        let (piece, behind) = rest.split_at(rest.len().min(PART_SIZE));
        append_part(out, number, index, count, piece)?;
        rest = behind;
    }
    Ok(())
}

/// Writes the parts of the message of this number that has these bytes, as `message_payload` gives
/// them, behind what is there. Where memory runs out the buffer is as before.
pub fn cut_in_parts(out: &mut Vec<u8>, number: u32, bytes: &[u8]) -> Result<(), AllocError>
    requires { length bytes.now ≤ message_limit }
    ensures ok { OnOk result (out.new.items ≡ out.old.items ++ frames_bytes (part_frames number bytes.now)) }
    ensures err { OnErr result (out.new.items ≡ out.old.items) }
{
    let start = out.len();
    let written = append_parts(out, number, bytes);
    if written.is_err() {
        out.truncate(start);
    }
    written
}

/// Writes a message in parts, as the one of this number, behind what is there. Where it is refused
/// the buffer is as before.
pub fn parts(out: &mut Vec<u8>, number: u32, message: &Message) -> Result<(), PartFault>
    ensures ok { OnOk result (out.new.items ≡ out.old.items ++ message_parts number (message_value message.now)) }
    ensures fits { OnOk result (length (message_bytes (message_value message.now)) ≤ message_limit) }
    ensures too_long { IsErrOf result PartFault.MessageTooLong → IsTooLongMessage (message_value message.now) }
    ensures err { OnErr result (out.new.items ≡ out.old.items) }
{
    let bytes = message_payload(*out.allocator(), message)?;
    cut_in_parts(out, number, &bytes)?;
    Ok(())
}
