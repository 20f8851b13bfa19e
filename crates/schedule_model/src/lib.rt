//! What a schedule is: its lines and commands, the steps that they make of a world, its runs, its verdict, and what is promised
//! of the world that it leads to. Its functions have no code: each carries a law as its contract.
#![tactic(auto)]

mod crashes;
mod durable;
mod soundness;
mod verdicts;

pub use crashes::crash_lines;
pub use durable::durable_steps_lead;
use jrql_ast::UpdatePlan;
pub use jrql_update::jrql_patterns;
use jrql_update::jrql_patterns::ReadQuery;
use mld_io::Leave;
use rdf_terms::Triple;
pub use soundness::{answers_survive, promises_kept, sound_worlds};
pub use verdicts::{one_reading, one_step, one_verdict};

/// A command of a schedule. The numbers of clones are below `CLONE_COUNT`, those of messages begin with 1.
#[derive(Debug, Drop)]
pub enum Command {
    /// `add C TRIPLE`: clone C inserts the triple.
    Add(u8, Triple),
    /// `remove C TRIPLE`: clone C deletes the triple.
    Remove(u8, Triple),
    /// `update C JSON`: clone C deletes and inserts what the plan says.
    Update(u8, UpdatePlan),
    /// `deliver M C`: message M comes to clone C.
    Deliver(u64, u8),
    /// `show C`: the pairs of clone C.
    Show(u8),
    /// `query C JSON`: the answer of clone C to the query.
    Query(u8, ReadQuery),
    /// `compare C C`: the dots that two clones know, side by side.
    Compare(u8, u8),
    /// `join C`: clone C asks for a leaf.
    Join(u8),
    /// `ask C`: clone C asks whoever gets its message for what it lacks.
    Ask(u8),
    /// `compact C`: clone C fuses the neighbours in its journal.
    Compact(u8),
    /// `truncate C M`: clone C keeps the last M ranges of its journal, and the others become a part of its base.
    Truncate(u8, u64),
    /// `stop C`: clone C stops, and forgets what it holds back.
    Stop(u8),
    /// `open C`: clone C, which is down, runs again with what its banks keep.
    Open(u8),
    /// `crash K LEAVE COMMAND`: the command is done while the device of its clone is armed to crash at its call K, the first of which is 0.
    Crash(u32, Leave, CrashTask),
}

/// The command of a crash line: one of those that may call the device of their clone.
#[derive(Debug, Drop)]
pub enum CrashTask {
    /// `add C TRIPLE`.
    Add(u8, Triple),
    /// `remove C TRIPLE`.
    Remove(u8, Triple),
    /// `update C JSON`.
    Update(u8, UpdatePlan),
    /// `deliver M C`.
    Deliver(u64, u8),
    /// `compact C`.
    Compact(u8),
    /// `truncate C M`.
    Truncate(u8, u64),
    /// `open C`.
    Open(u8),
}
