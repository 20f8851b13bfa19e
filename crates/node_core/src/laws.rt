//! The law of a node's events. The function has no code, and its contract is the law.
ghost use Rattle.node_core.specs.EventCompleteness.{EventsAreDone};

use mld_io::Banks;

/// A node whose device had no fault does an event as the model's node does it, or memory was wanting: what the clauses of
/// `Node::on_event` say together.
pub fn events_are_done<B: Banks>()
    ensures { EventsAreDone B.log B.meter }
{}
