//! Vectors of frames.
use uuid::Uuid;

/// A node's id.
pub fn node_id() -> Uuid {
    Uuid::from_u128(0x4000_8000_0000_0000_0007)
}

/// The Hello of that node, in the domain `d`, and its question for a leaf as the first message.
pub const GREETING: &[u8] = b"\x01\x00\x00\x00\x16\x01\
    \x00\x00\x00\x00\x00\x00\x40\x00\x80\x00\x00\x00\x00\x00\x00\x07\x00\x00\x00\x01d\
    \x02\x00\x00\x00\x1d\x00\x00\x00\x00\x00\x00\x00\x00\x00\x00\x00\x01\
    \x04\x00\x00\x00\x00\x00\x00\x40\x00\x80\x00\x00\x00\x00\x00\x00\x07";

/// Where its second frame begins.
pub const SECOND: usize = 27;

/// Where the piece of its second frame begins, which is the message.
pub const MESSAGE: usize = 44;

/// A request, and the reply to it.
pub const ASKED: &[u8] = b"\x03\x00\x00\x00\x04show\x05\x00\x00\x00\x06has 0\n";
