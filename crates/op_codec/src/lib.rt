//! Clocks, entries, lists of pairs and messages as bytes: one spelling for each value, and readers that tell the place of a
//! fault.
#![tactic(auto)]

mod clocks;
mod entries;
mod faults;
mod fields;
mod laws;
mod lists;
mod messages;
mod pairs;
mod paths;
mod short;
mod triples;

pub use clocks::{read_clock, write_clock};
pub use entries::{read_entry, write_entry};
pub use faults::CodecFault;
pub use fields::{pass_piece, read_u8, read_u32};
pub use laws::{one_clock, one_entry, one_list_of_pairs, one_message};
pub use messages::{
    append_id, append_snapshot, read_id, read_message, read_snapshot, write_message,
};
pub use pairs::{read_tagged, write_tagged};
pub use paths::{append_path, read_path};
pub use short::{is_short_clock, is_short_entry, is_short_list, is_short_message, is_short_pairs};
