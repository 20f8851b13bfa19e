//! Frames of a stream of bytes, messages in parts, and messages that come in parts.
#![tactic(auto)]

mod assembling;
mod cutting;
mod faults;
mod kinds;
mod laws;
mod messages;
mod reading;
mod replies;
mod writing;

pub use assembling::{Assembled, Assembly};
pub use faults::{AssemblyFault, FrameFault, PartFault};
pub use kinds::{Fed, Frame, are_kept};
pub use laws::{any_cutting, one_stream, parts_give_back, written_read};
pub use messages::{cut_in_parts, message_payload, parts};
pub use reading::Frames;
pub use replies::reply_frames;
pub use writing::write_frame;
