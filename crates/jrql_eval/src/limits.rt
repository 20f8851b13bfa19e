//! Limits.

/// How many solutions a group may have.
pub const SOLUTION_LIMIT: usize = 1_048_576;
