//! Why a clone refuses.
use causal_buffer::HeldFault;
use journal_store::Why;
use jrql_eval::EvalFault;
use rdf_terms::Iri;
use std::alloc::AllocError;
use thiserror::Error;

/// Why an update was refused.
#[derive(Debug, PartialEq, Eq, Error, Drop)]
pub enum UpdateFault {
    /// An earlier call closed the clone.
    #[error("the clone is closed")]
    Closed {
        /// Why it did.
        why: Why,
    },
    /// The clone's path has no tick left.
    #[error("no tick is left")]
    TicksSpent,
    /// Its plan has more than 1,048,576 solutions.
    #[error("more than 1,048,576 solutions")]
    TooMany,
    /// A subject would get a second value of a single-valued property: the first one, and its property.
    #[error("a second value of a single-valued property")]
    Single {
        /// The subject.
        s: Iri,
        /// The property.
        p: Iri,
    },
    /// The device failed, which closes the clone.
    #[error("the device failed")]
    Device,
    /// Memory ran out.
    #[error("out of memory")]
    NoMemory,
}

/// Why a message was refused.
#[derive(Clone, Copy, Debug, PartialEq, Eq, Error)]
pub enum ReceiveFault {
    /// An earlier call closed the clone.
    #[error("the clone is closed")]
    Closed {
        /// Why it did.
        why: Why,
    },
    /// The entry is of the clone's own path and goes beyond the ticks that the clone has used, or the snapshot has more of that
    /// path: another one has used its leaf.
    #[error("another one has used the leaf: tick {said} of {own}")]
    ForeignTick {
        /// The last tick of the entry, or the ticks of the snapshot.
        said: u32,
        /// The ticks that the clone has used.
        own: u32,
    },
    /// Too many others are held.
    #[error("too many entries are held")]
    HeldFull,
    /// The leaf that was asked for can't be forked, since its path has as many letters as it may.
    #[error("the leaf is too deep to be forked")]
    Deep,
    /// The snapshot would be merged, and the generation of the journal is the greatest that there is.
    #[error("no generation is left")]
    GenerationsSpent,
    /// The device failed, which closes the clone.
    #[error("the device failed")]
    Device,
    /// Memory ran out.
    #[error("out of memory")]
    NoMemory,
}

/// Why a journal was not compacted or truncated.
#[derive(Clone, Copy, Debug, PartialEq, Eq, Error)]
pub enum KeepFault {
    /// An earlier call closed the clone.
    #[error("the clone is closed")]
    Closed {
        /// Why it did.
        why: Why,
    },
    /// The generation of the journal is the greatest that there is.
    #[error("no generation is left")]
    GenerationsSpent,
    /// The device failed, which closes the clone.
    #[error("the device failed")]
    Device,
    /// Memory ran out.
    #[error("out of memory")]
    NoMemory,
}

/// Why a query wasn't answered.
#[derive(Clone, Copy, Debug, PartialEq, Eq, Error)]
pub enum QueryFault {
    /// An earlier call closed the clone.
    #[error("the clone is closed")]
    Closed {
        /// Why it did.
        why: Why,
    },
    /// The query has more than 1,048,576 solutions.
    #[error("more than 1,048,576 solutions")]
    TooMany,
    /// Memory ran out.
    #[error("out of memory")]
    NoMemory,
}

impl From<AllocError> for UpdateFault {
    ghost use Rattle.std.specs.Prelude.{◌≡◌};
    ghost use Rattle.clone_parts.specs.declared.faults.UpdateFault.TheVariants.{NoMemory};

    ghost from_gives = { λ _ fault. fault ≡ NoMemory };

    fn from(_error: AllocError) -> UpdateFault {
        UpdateFault::NoMemory
    }
}

impl From<AllocError> for ReceiveFault {
    ghost use Rattle.std.specs.Prelude.{◌≡◌};
    ghost use Rattle.clone_parts.specs.declared.faults.ReceiveFault.TheVariants.{NoMemory};

    ghost from_gives = { λ _ fault. fault ≡ NoMemory };

    fn from(_error: AllocError) -> ReceiveFault {
        ReceiveFault::NoMemory
    }
}

impl From<AllocError> for KeepFault {
    ghost use Rattle.std.specs.Prelude.{◌≡◌};
    ghost use Rattle.clone_parts.specs.declared.faults.KeepFault.TheVariants.{NoMemory};

    ghost from_gives = { λ _ fault. fault ≡ NoMemory };

    fn from(_error: AllocError) -> KeepFault {
        KeepFault::NoMemory
    }
}

impl From<Why> for KeepFault {
    ghost use Rattle.clone_parts.specs.CloneFaults.{keep_fault_of};
    ghost use Rattle.std.specs.Prelude.{◌≡◌};

    ghost from_gives = { λ why fault. fault ≡ keep_fault_of why };

    fn from(why: Why) -> KeepFault {
        match why {
            Why::Device => KeepFault::Device,
            Why::NoMemory => KeepFault::NoMemory,
        }
    }
}

impl From<Why> for UpdateFault {
    ghost use Rattle.clone_parts.specs.CloneFaults.{update_fault_of};
    ghost use Rattle.std.specs.Prelude.{◌≡◌};

    ghost from_gives = { λ why fault. fault ≡ update_fault_of why };

    fn from(why: Why) -> UpdateFault {
        match why {
            Why::Device => UpdateFault::Device,
            Why::NoMemory => UpdateFault::NoMemory,
        }
    }
}

impl From<EvalFault> for UpdateFault {
    ghost use Rattle.clone_parts.specs.CloneFaults.{update_fault_of_effect};
    ghost use Rattle.std.specs.Prelude.{◌≡◌};

    ghost from_gives = { λ effect fault. fault ≡ update_fault_of_effect effect };

    fn from(fault: EvalFault) -> UpdateFault {
        match fault {
            EvalFault::TooMany => UpdateFault::TooMany,
            EvalFault::NoMemory => UpdateFault::NoMemory,
        }
    }
}

impl From<Why> for ReceiveFault {
    ghost use Rattle.clone_parts.specs.CloneFaults.{receive_fault_of};
    ghost use Rattle.std.specs.Prelude.{◌≡◌};

    ghost from_gives = { λ why fault. fault ≡ receive_fault_of why };

    fn from(why: Why) -> ReceiveFault {
        match why {
            Why::Device => ReceiveFault::Device,
            Why::NoMemory => ReceiveFault::NoMemory,
        }
    }
}

impl From<HeldFault> for ReceiveFault {
    ghost use Rattle.clone_parts.specs.CloneFaults.{fault_of_held};
    ghost use Rattle.std.specs.Prelude.{◌≡◌};

    ghost from_gives = { λ held fault. fault ≡ fault_of_held held };

    fn from(fault: HeldFault) -> ReceiveFault {
        match fault {
            HeldFault::Full => ReceiveFault::HeldFull,
            HeldFault::NoMemory => ReceiveFault::NoMemory,
        }
    }
}

impl From<EvalFault> for QueryFault {
    ghost use Rattle.std.specs.Prelude.{◌≡◌};
    ghost use Rattle.clone_parts.specs.CloneFaults.{query_fault_of};

    ghost from_gives = { λ fault refused. refused ≡ query_fault_of fault };

    fn from(fault: EvalFault) -> QueryFault {
        match fault {
            EvalFault::TooMany => QueryFault::TooMany,
            EvalFault::NoMemory => QueryFault::NoMemory,
        }
    }
}
