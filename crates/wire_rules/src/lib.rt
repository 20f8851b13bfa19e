//! The rules by which a wire over sockets serves its connections, without the sockets: whose turn it is, where the frames of a connection
//! end, what waits to be sent on it, and how time goes by.
#![tactic(auto)]

mod framing;
mod outbox;
mod turns;
mod watch;

pub use framing::{Framing, PIECE_LIMIT};
pub use outbox::{Broken, Outbox};
pub use turns::{Kind, Turns};
pub use watch::{Watch, worked};
