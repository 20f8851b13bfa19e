//! The edges of the program: where bytes come from, where they go, the lines between, and devices
//! that keep bytes and may crash.
#![tactic(auto)]

mod banks;
mod events;
mod faults;
mod file_banks;
mod line_reader;
mod memory;
mod memory_wire;
mod pieces;
mod read_ahead;
mod sinks;
mod sources;
mod standard;
mod wire_records;
mod wires;

pub use banks::{Banks, CrashBanks, Leave, Side};
pub use events::{Event, WireCall};
pub use faults::{Failed, IoFault, LineFault, WriteFault};
pub use file_banks::FileBanks;
pub use line_reader::{Lines, first_of_lines};
pub use memory::{MemorySink, MemorySource};
pub use memory_wire::MemoryWire;
pub use pieces::Piece;
pub use sinks::{Sink, write_all};
pub use sources::Source;
pub use standard::{StdSink, StdSource};
pub use wires::Wire;
