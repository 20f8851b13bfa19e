//! Connections as a node sees them.

use mld_io::Piece;
use wire_frames::{Assembly, Frames};

/// What a connection is to a node.
#[derive(Drop)]
pub enum Role {
    /// No frame came on it yet.
    Fresh,
    /// Its other end asks for updates and answers.
    Client,
    /// Its other end is a clone of the domain, of whose messages these parts came.
    Peer(Assembly),
}

/// A connection: its number; what came of a frame; what it is; and the number of the next message to it, from 0, and 0 again behind
/// 4,294,967,295.
#[derive(Drop)]
pub struct Connection {
    /// The number by which the wire knows it.
    pub number: u32,
    /// What came of the frame that is under way.
    pub frames: Frames,
    /// What it is to the node.
    pub role: Role,
    /// The number of the next message to it.
    pub sends: u32,
}

/// What is to be sent: bytes on a connection, which is shut behind them where that is said.
#[derive(Drop)]
pub struct Sent {
    /// The connection's number.
    pub conn: u32,
    /// Whole frames.
    pub piece: Piece,
    /// Whether the connection is shut behind them.
    pub shut: bool,
}
