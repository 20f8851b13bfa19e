//! Why a run stops.
use journal_store::{AppendFault, MakeFault, MountFault};
use rdf_terms::TripleFault;
use std::alloc::AllocError;
use thiserror::Error;

/// Why a run stops before all its parts are done.
#[derive(Clone, Copy, Debug, PartialEq, Eq, Error)]
pub enum CostFault {
    /// The words are none that the program knows.
    #[error("usage: measure_journals [mount] [create|model] [forks=N] [entries=N] [again] < SIDE")]
    Usage,
    /// Standard input failed.
    #[error("standard input failed")]
    Input,
    /// Standard output failed.
    #[error("standard output failed")]
    Output,
    /// Memory ran out.
    #[error("out of memory")]
    NoMemory,
    /// The side that was read is closed.
    #[error("the side is closed")]
    Closed,
    /// The banks were not mounted.
    #[error("not mounted: {0}")]
    NotMounted(MountFault),
    /// No journal was made.
    #[error("not made: {0}")]
    NotMade(MakeFault),
    /// Nothing was appended.
    #[error("not appended: {0}")]
    NotAppended(AppendFault),
    /// There is no tick left for an entry.
    #[error("no entry can be made")]
    NoEntry,
}

impl From<AllocError> for CostFault {
    fn from(_fault: AllocError) -> CostFault {
        CostFault::NoMemory
    }
}

impl From<AppendFault> for CostFault {
    fn from(fault: AppendFault) -> CostFault {
        CostFault::NotAppended(fault)
    }
}

impl From<TripleFault> for CostFault {
    fn from(_fault: TripleFault) -> CostFault {
        CostFault::NoEntry
    }
}
