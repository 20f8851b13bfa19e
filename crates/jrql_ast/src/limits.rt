//! Limits.

/// How many variables a group has at most, named and hidden ones together.
pub const VARIABLE_LIMIT: usize = 256;
