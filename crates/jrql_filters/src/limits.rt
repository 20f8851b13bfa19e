//! Limits.

/// How many digits a number that is compared has at most.
pub(crate) const DIGIT_LIMIT: usize = 30;
