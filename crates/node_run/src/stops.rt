//! How a run of the node ends.
ghost use Rattle.std.specs.Prelude.{◌≡◌};
ghost use Rattle.node_run.specs.ServiceStatuses.{service_status, damaged_of, stop_of_words, stop_of_mount, stop_of_make, stop_of_event, stop_of_wire};

use crate::faults::NodeWordsFault;
use mld_io::{IoFault, Side};
use node_core::NodeFault;
use node_core::journal_store::{MakeFault, MountFault};
use thiserror::Error;

/// Why a run of the node ended before `End` came or a request to halt was answered.
#[derive(Clone, Copy, Debug, PartialEq, Eq, Error)]
pub enum NodeStop {
    /// The words are not those of a node.
    #[error("usage")]
    Usage,
    /// No memory was found.
    #[error("no memory")]
    NoMemory,
    /// The banks failed.
    #[error("device fault")]
    Device,
    /// As many events as the words say were taken.
    #[error("out of turns")]
    OutOfTurns,
    /// The wire failed.
    #[error("wire fault")]
    WireFault,
    /// This side of the banks is damaged, at this place.
    #[error("side {0:?} is damaged (at byte {1})")]
    Damaged(Side, u64),
    /// The banks keep a clone of another id or domain.
    #[error("the banks of another clone")]
    OtherClone,
}

/// How a run of the node ended.
#[derive(Drop)]
pub struct NodeRan<B> {
    /// The status of the program.
    pub status: u8,
    /// Why it isn't 0.
    pub fault: Option<NodeStop>,
    /// The banks; no clone is live on them.
    pub banks: B,
    /// How many events were taken.
    pub turns: u64,
    /// Which side of the banks is damaged, and at which place, where that is why.
    pub damaged: Option<(Side, u64)>,
}

/// A run that ended so behind so many events, with these banks.
pub fn end_run<B>(fault: Option<NodeStop>, turns: u64, banks: B) -> NodeRan<B>
    ensures status { result.status ≡ service_status fault }
    ensures fault { result.fault ≡ fault }
    ensures banks { result.banks ≡ banks }
    ensures turns { result.turns ≡ turns }
    ensures damaged { result.damaged ≡ damaged_of fault }
{
    NodeRan {
        status: status_of(fault),
        fault,
        banks,
        turns,
        damaged: damaged_of(fault),
    }
}

/// The status of the program for the way in which a run ended.
fn status_of(fault: Option<NodeStop>) -> u8
    ensures { result ≡ service_status fault }
{
    match fault {
        None => 0,
        Some(NodeStop::Usage) => 1,
        Some(NodeStop::NoMemory) => 5,
        Some(NodeStop::Device) => 6,
        Some(NodeStop::OutOfTurns) => 8,
        Some(NodeStop::WireFault) => 9,
        Some(NodeStop::Damaged(_, _)) => 10,
        Some(NodeStop::OtherClone) => 11,
    }
}

/// The side that is damaged, and the place.
fn damaged_of(fault: Option<NodeStop>) -> Option<(Side, u64)>
    ensures { result ≡ damaged_of fault }
{
    match fault {
        Some(NodeStop::Damaged(side, place)) => Some((side, place)),
        _ => None,
    }
}

/// Why words were not read.
pub fn words_stop(fault: NodeWordsFault) -> NodeStop
    ensures { result ≡ stop_of_words fault }
{
    match fault {
        NodeWordsFault::Usage => NodeStop::Usage,
        NodeWordsFault::NoMemory => NodeStop::NoMemory,
    }
}

/// Why banks were not mounted.
pub fn mount_stop(fault: MountFault) -> NodeStop
    ensures { result ≡ stop_of_mount fault }
{
    match fault {
        MountFault::Damaged { side, place } => NodeStop::Damaged(side, place),
        MountFault::Device => NodeStop::Device,
        MountFault::NoMemory => NodeStop::NoMemory,
    }
}

/// Why no clone was made.
pub fn make_stop(fault: MakeFault) -> NodeStop
    ensures { result ≡ stop_of_make fault }
{
    match fault {
        MakeFault::Device => NodeStop::Device,
        MakeFault::NoMemory => NodeStop::NoMemory,
    }
}

/// Why an event was not done.
pub fn event_stop(fault: NodeFault) -> NodeStop
    ensures { result ≡ stop_of_event fault }
{
    match fault {
        NodeFault::Device => NodeStop::Device,
        NodeFault::NoMemory => NodeStop::NoMemory,
    }
}

/// Why the wire refused.
pub fn wire_stop(fault: IoFault) -> NodeStop
    ensures { result ≡ stop_of_wire fault }
{
    match fault {
        IoFault::Failed => NodeStop::WireFault,
        IoFault::NoMemory => NodeStop::NoMemory,
    }
}
