//! The limit of `specs/SlotLimit.antt`.

/// As many slots have a number.
pub(crate) const SLOTS_LIMIT: usize = 4_294_967_296;
