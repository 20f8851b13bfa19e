//! What is published, as plain data. No value of these types is made. A clause reads an array as a list, of any length.
use mld_ops::Tagged;

/// What one update, one taken range or one merge does to the pairs of a clone: `drops` go, and `adds` come.
pub struct Change {
    pub drops: [Tagged; 0],
    pub adds: [Tagged; 0],
}

/// What one swap of the copies publishes.
pub enum Mark {
    Changed(Change),
    Ended,
}

/// A list of published changes, finished where the end mark follows them.
pub struct Front {
    pub changes: [Change; 0],
    pub finished: bool,
}
