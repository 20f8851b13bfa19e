//! Frames as bytes.
ghost use Rattle.std.specs.Prelude.{◌≡◌, ◌++◌, ◌<◌, ◌^◌, length, OnOk, OnErr};
ghost use Rattle.rdf_terms.specs.Kept.{KeepsStart};
ghost use Rattle.wire_frames.specs.Frames.{IsFrame, IsHello, IsPart, frame_bytes};
ghost use Rattle.wire_frames.specs.declared.kinds.Frame.TheVariants as frames;

use crate::kinds::{Frame, HELLO_KIND, LAST_KIND, MORE_KIND, PART_KIND, REFUSE_KIND, REQUEST_KIND};
use mld_bytes::{put_bytes, put_u8, put_u32};
use op_codec::append_id;
use std::alloc::AllocError;
use text_rules::Text;
use uuid::Uuid;

/// How many bytes of a part's payload come before its piece.
const PART_HEAD: usize = 12;

/// How many bytes of a Hello's payload come before its domain.
const HELLO_HEAD: usize = 21;

/// Appends a Hello.
fn append_hello(out: &mut Vec<u8>, format: u8, id: &Uuid, domain: &Text) -> Result<(), AllocError>
    requires { IsHello format id.now domain.now }
    ensures ok { OnOk result (out.new.items ≡ out.old.items ++ frame_bytes (frames.Hello format id.now domain.now)) }
    ensures err { OnErr result (KeepsStart out.old.items out.new.items) }
{
    put_u8(out, HELLO_KIND)?;
    put_u32(out, (HELLO_HEAD + domain.len()) as u32)?;
    put_u8(out, format)?;
    append_id(out, id)?;
    put_bytes(out, domain.as_str().as_bytes())
}

/// Appends a part.
pub(crate) fn append_part(
    out: &mut Vec<u8>,
    number: u32,
    index: u32,
    count: u32,
    piece: &[u8],
) -> Result<(), AllocError>
    requires { IsPart number index count piece.now }
    ensures ok { OnOk result (out.new.items ≡ out.old.items ++ frame_bytes (frames.Part number index count piece.now)) }
    ensures err { OnErr result (KeepsStart out.old.items out.new.items) }
{
    put_u8(out, PART_KIND)?;
    put_u32(out, (PART_HEAD + piece.len()) as u32)?;
    put_u32(out, number)?;
    put_u32(out, index)?;
    put_u32(out, count)?;
    out.extend_from_slice(piece)
}

/// Appends a part of a reply.
pub(crate) fn append_reply(out: &mut Vec<u8>, piece: &[u8], more: bool) -> Result<(), AllocError>
    requires { length piece.now < 2 ^ 32 }
    ensures ok { OnOk result (out.new.items ≡ out.old.items ++ frame_bytes (frames.Reply piece.now more)) }
    ensures err { OnErr result (KeepsStart out.old.items out.new.items) }
{
    put_u8(out, if more { MORE_KIND } else { LAST_KIND })?;
    put_bytes(out, piece)
}

/// Appends a frame.
#[tactic(auto, unfolding(crate::specs::Frames::frame_bytes))]
fn append_frame(out: &mut Vec<u8>, frame: &Frame) -> Result<(), AllocError>
    requires { IsFrame frame.now }
    ensures ok { OnOk result (out.new.items ≡ out.old.items ++ frame_bytes frame.now) }
    ensures err { OnErr result (KeepsStart out.old.items out.new.items) }
{
    match frame {
        Frame::Hello(format, id, domain) => append_hello(out, *format, id, domain),
        Frame::Part(number, index, count, piece) => {
            append_part(out, *number, *index, *count, piece.as_slice())
        }
        Frame::Request(piece) => {
            put_u8(out, REQUEST_KIND)?;
            put_bytes(out, piece.as_slice())
        }
        Frame::Reply(piece, more) => append_reply(out, piece.as_slice(), *more),
        Frame::Refuse(code) => {
            put_u8(out, REFUSE_KIND)?;
            put_bytes(out, &[*code])
        }
    }
}

/// Writes a frame behind what is there. Where memory runs out the buffer is as before.
pub fn write_frame(out: &mut Vec<u8>, frame: &Frame) -> Result<(), AllocError>
    requires { IsFrame frame.now }
    ensures ok { OnOk result (out.new.items ≡ out.old.items ++ frame_bytes frame.now) }
    ensures err { OnErr result (out.new.items ≡ out.old.items) }
{
    let start = out.len();
    let written = append_frame(out, frame);
    if written.is_err() {
        out.truncate(start);
    }
    written
}
