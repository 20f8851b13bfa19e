//! The limits of paths and ticks, each of which stands here once. Definitions cite them by the words of `specs/Limits.antt`.

/// The letters that a path may have. A path packs them into a `u64`, which has room for no more than 64.
pub const PATH_LIMIT: u8 = 64;

/// The greatest tick that a path may have, which is the greatest number of a tick's type.
pub const TICK_LIMIT: u32 = 4_294_967_295;
