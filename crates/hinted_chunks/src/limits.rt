//! Limits: the numbers of `specs/ChunkLimits.antt`.

/// As many elements a chunk has at most.
pub const CHUNK_LIMIT: usize = 64;

/// As many elements each half of a chunk has that is split.
pub const HALF: usize = 32;

/// As many chunks a list has at most, those to spare included. So its length fits a `usize`.
pub const CHUNKS_LIMIT: usize = 1_099_511_627_776;
