//! The limits of an input, each of which stands here once. The words of `specs/TooLarge.antt` are the same numbers.

/// How many bytes a line has at most, without its LF.
pub const LINE_LIMIT: usize = 1_048_576;

/// How many bytes the input has at most, each LF counted.
pub const INPUT_LIMIT: u64 = 16_777_216;
