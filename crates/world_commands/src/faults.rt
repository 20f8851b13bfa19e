//! Why a world refuses.
ghost use Rattle.std.specs.Prelude.{◌≡◌};
ghost use Rattle.world_commands.specs.WorldFaults.{fault_of_made};

use crash_laws::journal_store::MakeFault;
use std::alloc::AllocError;
use thiserror::Error;

/// Why a world was not founded, or a command was not done.
#[derive(Clone, Copy, Debug, PartialEq, Eq, Error)]
pub enum WorldFault {
    /// The device of a clone failed.
    #[error("clone {clone}: device fault")]
    Device {
        /// The number of the clone.
        clone: u8,
    },
    /// Memory ran out.
    #[error("out of memory")]
    NoMemory,
}

/// The fault of a clone of a number that could not be made on its banks.
pub fn made_fault(clone: u8, fault: MakeFault) -> WorldFault
    ensures { result ≡ fault_of_made clone fault }
{
    match fault {
        MakeFault::Device => WorldFault::Device { clone },
        MakeFault::NoMemory => WorldFault::NoMemory,
    }
}

impl From<AllocError> for WorldFault {
    ghost use Rattle.world_commands.specs.declared.faults.WorldFault.TheVariants.{NoMemory};

    ghost from_gives = { λ _ fault. fault ≡ NoMemory };

    fn from(_error: AllocError) -> WorldFault {
        WorldFault::NoMemory
    }
}
