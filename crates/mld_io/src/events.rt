//! What comes over a wire.
ghost use Rattle.std.specs.Prelude.{◌≡◌, IfOk};
ghost use Rattle.mld_io.specs.Wires.{is_event};

use crate::pieces::Piece;
use std::alloc::{AllocError, Global};

/// The most bytes of a piece that a wire gives.
const PIECE_LIMIT: usize = 65_536;

/// Something that a wire gives. A connection has a number, and a piece 1 to 65,536 bytes.
#[derive(Debug, Drop)]
pub enum Event {
    /// A connection was opened.
    Opened(u32),
    /// Bytes came on a connection.
    Bytes(u32, Piece),
    /// A connection was shut by its other end, or broke.
    Shut(u32),
    /// No event comes any more.
    End,
}

/// Something that was done over a wire.
#[derive(Debug, Drop)]
pub enum WireCall {
    /// An event was taken.
    Took(Event),
    /// Bytes were sent on a connection.
    Sent(u32, Piece),
    /// A connection was shut from this end.
    Closed(u32),
}

/// A copy of an event.
pub fn copy_event(alloc: Global, event: &Event) -> Result<Event, AllocError>
    ensures { IfOk result (λ e. e ≡ event.now) }
{
    Ok(match event {
        Event::Opened(conn) => Event::Opened(*conn),
        Event::Bytes(conn, piece) => Event::Bytes(*conn, Piece::copy_in(alloc, piece.as_slice())?),
        Event::Shut(conn) => Event::Shut(*conn),
        Event::End => Event::End,
    })
}

/// Whether the piece of an event, where it has one, has 1 to 65,536 bytes.
pub fn is_sized(event: &Event) -> bool
    ensures { result ≡ is_event event.now }
{
    match event {
        Event::Bytes(_, piece) => 1 <= piece.len() && piece.len() <= PIECE_LIMIT,
        Event::Opened(_) | Event::Shut(_) | Event::End => true,
    }
}
