//! Lines that are parted at a mark.

/// The first word of a text, and what stands behind the space behind it; nothing where there is no space.
pub fn parted(text: &str) -> (&str, &str) {
    match text.split_once(' ') {
        Some(parts) => parts,
        None => (text, ""),
    }
}

/// What stands before a comment, which begins with `#`, and before the space in front of it.
pub fn uncommented(text: &str) -> &str {
    match text.split_once('#') {
        Some((told, _)) => told.strip_suffix(' ').unwrap_or(told),
        None => text,
    }
}
