//! Lists of rows in the order of replies: sorted, searched, and changed where rows come and go.
#![tactic(auto)]

mod merging;
mod moves;
mod row_orders;

pub use merging::{unknown_of, with, without};
pub use moves::{Rooms, beyond, moved, rooms_for, unknown_among};
pub use row_orders::{cmp_rows, copy_rows, has_row, share_place, sort_rows};
