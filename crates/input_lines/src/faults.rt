//! Why there is no next line of an input.

use thiserror::Error;

/// Why there is no next line of an input.
#[derive(Clone, Copy, Debug, PartialEq, Eq, Error)]
pub enum InputFault {
    /// The source failed.
    #[error("read fault")]
    ReadFault,
    /// The line of this number is too large.
    #[error("line {0}: too large")]
    TooLarge(u64),
    /// No memory was found.
    #[error("no memory")]
    NoMemory,
}
