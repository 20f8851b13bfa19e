//! Numbers and pieces of bytes: how they are put at the end of a buffer, and taken from a place of an input. Numbers are
//! big-endian: their highest byte comes first.
#![tactic(auto)]

mod laws;
mod put;
mod take;

pub use laws::{one_number, one_piece};
pub use put::{put_bytes, put_number, put_u8, put_u32, put_u64};
pub use take::{Short, take_bytes, take_number, take_u8, take_u32, take_u64};
