//! Frames as they are written.
ghost use Rattle.std.specs.Prelude.{IfOk};
ghost use Rattle.wire_frames.specs.Frames.{IsFrame};

use crate::frame_vectors::{ASKED, GREETING, node_id};
use crate::made::boxed;
use mld_io::Piece;
use mld_ops::Message;
use std::alloc::{AllocError, Global};
use std::test::Fail;
use text_rules::{Text, is_domain};
use wire_frames::{Frame, PartFault, are_kept, parts, reply_frames, write_frame};

/// The Hello of the node.
fn hello(alloc: Global) -> Result<Box<Frame>, Fail>
    ensures { IfOk result (λ frame. IsFrame frame.value) }
{
    let domain = Text::new(alloc, "d")?;
    if !is_domain(domain.as_str()) {
        return Err("no domain".into());
    }
    let id = node_id();
    are_kept(&id, &domain);
    Ok(boxed(alloc, Frame::Hello(1, id, domain))?)
}

/// Writes the Hello of the node.
fn write_hello(alloc: Global, out: &mut Vec<u8>) -> Result<(), Fail> {
    let hello = hello(alloc)?;
    write_frame(out, &hello)?;
    Ok(())
}

/// Writes the node's question for a leaf.
fn write_question(out: &mut Vec<u8>) -> Result<(), PartFault> {
    parts(out, 0, &Message::JoinAsk(node_id()))
}

/// Whether the Hello of the node and its question for a leaf are written as the vector.
fn is_greeting(alloc: Global) -> Result<bool, Fail> {
    let mut out = boxed(alloc, Vec::new(alloc))?;
    write_hello(alloc, &mut out)?;
    write_question(&mut out)?;
    Ok(out.as_slice() == GREETING)
}

/// The request `show`.
fn request(alloc: Global) -> Result<Box<Frame>, AllocError>
    ensures { IfOk result (λ frame. IsFrame frame.value) }
{
    let piece = Piece::copy_in(alloc, b"show")?;
    boxed(alloc, Frame::Request(piece))
}

/// Writes the request.
fn write_request(alloc: Global, out: &mut Vec<u8>) -> Result<(), AllocError> {
    let request = request(alloc)?;
    write_frame(out, &request)
}

/// Whether a request and the reply to it are written as the vector.
fn is_asked(alloc: Global) -> Result<bool, AllocError> {
    let mut out = boxed(alloc, Vec::new(alloc))?;
    write_request(alloc, &mut out)?;
    reply_frames(&mut out, b"has 0\n")?;
    Ok(out.as_slice() == ASKED)
}

#[test]
fn vectors_are_written(rt: HostRuntime) -> Result<(), Fail> {
    assert!(rt; is_greeting(rt.alloc())?);
    assert!(rt; is_asked(rt.alloc())?);
    Ok(())
}

/// Writes the frames of a reply of so many bytes 7.
fn write_reply(alloc: Global, out: &mut Vec<u8>, size: usize) -> Result<(), AllocError> {
    let text = Vec::from_elem(alloc, 7, size.max(1))?;
    reply_frames(out, &text)
}

/// Whether these bytes are a frame of this header and of so many bytes 7, and then these.
fn is_frame_before(bytes: &[u8], header: &[u8], size: usize, behind: &[u8]) -> bool {
    let (front, rest) = bytes.split_at(bytes.len().min(header.len()));
    let (piece, last) = rest.split_at(rest.len().min(size));
    front == header && piece.len() == size && piece.iter().all(|&byte| byte == 7) && last == behind
}

/// Whether a reply of so many bytes 7 goes in a full frame of this header, and then these bytes.
fn is_reply(alloc: Global, size: usize, header: &[u8], behind: &[u8]) -> Result<bool, AllocError> {
    let mut out = boxed(alloc, Vec::new(alloc))?;
    write_reply(alloc, &mut out, size)?;
    Ok(is_frame_before(&out, header, 1_048_576, behind))
}

/// How many bytes a reply has, the header of its first frame, and what comes behind that frame.
const LONG: &[(usize, &[u8], &[u8])] = &[
    (1_048_576, b"\x05\x00\x10\x00\x00", b""),
    (
        1_048_577,
        b"\x04\x00\x10\x00\x00",
        b"\x05\x00\x00\x00\x01\x07",
    ),
];

#[test]
fn a_long_reply_goes_in_frames(rt: HostRuntime) -> Result<(), Fail> {
    for (size, header, behind) in LONG {
        assert!(rt; is_reply(rt.alloc(), *size, header, behind)?, "{size}");
    }
    Ok(())
}
