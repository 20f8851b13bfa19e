//! The limit of a world's clones: `clone_count` of `specs/World.antt`.

/// How many clones a world has, absent ones with them.
pub const CLONE_COUNT: u8 = 32;
