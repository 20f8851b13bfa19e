//! The parts of a world that commands read and change.
ghost use Rattle.std.specs.Prelude.{◌≡◌, ◌+◌, ◌++◌, ◌∷◌, [], length, map, IfOk, OnOk};
ghost use Rattle.mld_ops.specs.Messages.{message_value};

use crate::states::RunningClone;
use mld_io::Banks;
use mld_ops::Message;
use rdf_terms::Iri;
use std::alloc::AllocError;
use text_rules::Text;

/// All that a world has beside the number of its steps.
#[derive(Drop)]
pub struct Parts<B: Banks> {
    /// The name of the domain.
    pub domain: Text,
    /// The single-valued properties.
    pub properties: Vec<Iri>,
    /// The clones, by number, absent ones with them.
    pub clones: Vec<RunningClone<B>>,
    /// Every message ever sent, in order.
    pub messages: Vec<Message>,
}

/// Sends a message, and gives its number; the first one has number 1.
pub fn send(messages: &mut Vec<Message>, message: Message) -> Result<usize, AllocError>
    ensures sent { OnOk result
        (map message_value messages.new.items ≡ map message_value messages.old.items ++ message_value message ∷ []) }
    ensures number { IfOk result (λ number. number ≡ length (map message_value messages.old.items) + 1) }
{
    messages.push(message)?;
    Ok(messages.len())
}
