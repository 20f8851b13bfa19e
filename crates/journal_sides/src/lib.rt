//! What the bytes of a side say: a head, and records behind it, each behind a gate; both ways.
#![tactic(auto)]

mod head_reading;
mod head_writing;
mod heads;
mod laws;
mod record_reading;
mod side_reading;

pub use head_writing::{FORK_BODY, fill_entry_body, side_body};
pub use heads::Head;
pub use laws::one_volume;
pub use side_reading::{Found, is_opened, read_volume};
