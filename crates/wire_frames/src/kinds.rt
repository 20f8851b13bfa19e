//! Frames, and what a reader of frames gives.
ghost use Rattle.std.specs.Prelude.{IsTrue};
ghost use Rattle.std.specs.Str.{IsUtf8};
ghost use Rattle.text_rules.specs.Domain.{is_domain};
ghost use Rattle.op_codec.specs.Stored.{IsId};
ghost use Rattle.wire_frames.specs.Frames.{IsHello, hello_format};

use crate::faults::FrameFault;
use mld_io::Piece;
use text_rules::Text;
use uuid::Uuid;

/// The kind of a Hello.
pub(crate) const HELLO_KIND: u8 = 1;

/// The kind of a Part.
pub(crate) const PART_KIND: u8 = 2;

/// The kind of a Request.
pub(crate) const REQUEST_KIND: u8 = 3;

/// The kind of a Reply that more follows.
pub(crate) const MORE_KIND: u8 = 4;

/// The kind of the last Reply to a request.
pub(crate) const LAST_KIND: u8 = 5;

/// The kind of a Refuse.
pub(crate) const REFUSE_KIND: u8 = 6;

/// The most bytes of a payload.
pub(crate) const PAYLOAD_LIMIT: usize = 1_048_588;

/// The most bytes of a part of a message, and of a part of a reply.
pub(crate) const PART_SIZE: usize = 1_048_576;

/// A frame.
#[derive(Debug, Drop)]
pub enum Frame {
    /// What a peer says first: the format of its frames, its id and the name of its domain.
    Hello(u8, Uuid, Text),
    /// A part of a message: the message's number, the part's index, how many parts there are, and
    /// 1 to 1,048,576 bytes.
    Part(u32, u32, u32, Piece),
    /// A request: at most 1,048,588 bytes.
    Request(Piece),
    /// A part of a reply, at most 1,048,576 bytes, and whether more follows.
    Reply(Piece, bool),
    /// A refusal, with its code.
    Refuse(u8),
}

/// The frames that a piece of a stream ended, up to the first fault.
#[derive(Debug, Drop)]
pub struct Fed {
    /// The frames, in order.
    pub frames: Vec<Frame>,
    /// The fault behind them, if there is one.
    pub fault: Option<FrameFault>,
}

/// An id has 16 bytes, a text is UTF-8, and a Hello of an id and a domain's name fits a frame. It does nothing.
pub fn are_kept(id: &Uuid, text: &Text)
    ensures id { IsId id.now }
    ensures text { IsUtf8 text.now }
    ensures hello { IsTrue (is_domain text.now) → IsHello hello_format id.now text.now }
{
    let _bytes = id.into_bytes();
    let _text = text.as_str();
}
