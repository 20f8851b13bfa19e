//! A node over TCP: a wire over sockets, and the run of a node over the words, the sockets and the files of its process.
#![tactic(auto)]

mod choosing;
mod connection;
mod keepalive;
mod limits;
mod peer;
mod processes;
mod sockets;
mod table;
mod wire;

pub use processes::run_process;
pub use wire::TcpWire;
