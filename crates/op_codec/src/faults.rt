//! Why bytes are refused.
ghost use Rattle.std.specs.Prelude.{◌≡◌};
ghost use Rattle.op_codec.specs.declared.faults.CodecFault.TheVariants as faults;

use std::alloc::AllocError;
use thiserror::Error;

/// Why bytes are refused.
#[derive(Clone, Copy, Debug, PartialEq, Eq, Error)]
pub enum CodecFault {
    /// The bytes spell no such value; what is wrong begins at this byte of the input, from 0.
    #[error("not in the grammar (at byte {place})")]
    NotInGrammar {
        /// The byte where it begins.
        place: usize,
    },
    /// Memory ran out.
    #[error("out of memory")]
    NoMemory,
}

impl From<AllocError> for CodecFault {
    ghost from_gives = { λ _ fault. fault ≡ faults.NoMemory };

    fn from(_error: AllocError) -> CodecFault {
        CodecFault::NoMemory
    }
}
