//! The entries that another one lacks.
ghost use Rattle.std.specs.Prelude.{IfOk};
ghost use Rattle.clone_parts.specs.Carrying.{CarryUnknown};

use causal_buffer::is_known;
use mld_ops::{Entry, Message};
use std::alloc::{AllocError, Global};
use tree_clock::Clock;

/// Copies of the entries that aren't known by these dots, in order, each in a message.
pub fn unknown_by(
    alloc: Global,
    known: &Clock,
    entries: &[Entry],
) -> Result<Vec<Message>, AllocError>
    ensures { IfOk result (λ messages. CarryUnknown known.now.ticks entries.now messages.items) }
{
    let mut messages = Vec::new(alloc);
    for entry in entries {
        if !is_known(known, entry) {
            messages.push(Message::Range(entry.copy_in(alloc)?))?;
        }
    }
    Ok(messages)
}
