//! Replies in frames.
ghost use Rattle.std.specs.Prelude.{◌≡◌, ◌++◌, ◌≤◌, length, OnOk, OnErr};
ghost use Rattle.rdf_terms.specs.Kept.{KeepsStart};
ghost use Rattle.wire_frames.specs.Frames.{frames_bytes};
ghost use Rattle.wire_frames.specs.MessageParts.{reply_parts};

use crate::kinds::PART_SIZE;
use crate::writing::append_reply;
use std::alloc::AllocError;

/// Appends the frames of a reply's text.
fn append_replies(out: &mut Vec<u8>, text: &[u8]) -> Result<(), AllocError>
    requires { 1 ≤ length text.now }
    ensures ok { OnOk result (out.new.items ≡ out.old.items ++ frames_bytes (reply_parts text.now)) }
    ensures err { OnErr result (KeepsStart out.old.items out.new.items) }
{
    let mut rest = text;
    while rest.len() > PART_SIZE {
        let (piece, behind) = rest.split_at(PART_SIZE);
        append_reply(out, piece, true)?;
        rest = behind;
    }
    append_reply(out, rest, false)
}

/// Writes a reply's text, which has a byte, in frames behind what is there. Where memory runs out
/// the buffer is as before.
pub fn reply_frames(out: &mut Vec<u8>, text: &[u8]) -> Result<(), AllocError>
    requires { 1 ≤ length text.now }
    ensures ok { OnOk result (out.new.items ≡ out.old.items ++ frames_bytes (reply_parts text.now)) }
    ensures err { OnErr result (out.new.items ≡ out.old.items) }
{
    let start = out.len();
    let written = append_replies(out, text);
    if written.is_err() {
        out.truncate(start);
    }
    written
}
