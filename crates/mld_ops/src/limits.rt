//! The limit of what is held back: `held_limit` of `specs/Held.antt`.

/// The most entries that are held back.
pub const HELD_LIMIT: usize = 4_096;
