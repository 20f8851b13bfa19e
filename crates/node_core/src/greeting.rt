//! What a node says first on a connection, and what it makes of a Hello.
ghost use Rattle.std.specs.Prelude.{◌≡◌, IfOk};
ghost use Rattle.node_core.specs.NodeStates.{keeper_of};
ghost use Rattle.node_model.specs.Keepers.{keeper_id, keeper_domain};
ghost use Rattle.node_core.specs.Steps.{IsJudged};
ghost use Rattle.wire_frames.specs.Frames.{hello_format, frame_bytes};
ghost use Rattle.wire_frames.specs.declared.kinds.Frame.TheVariants.{Hello};

use crate::states::NodeState;
use mld_io::{Banks, Piece};
use node_model::{OTHER_DOMAIN, OTHER_FORMAT, OWN_ID};
use std::alloc::{AllocError, Global};
use text_rules::Text;
use uuid::Uuid;
use wire_frames::{Frame, are_kept, write_frame};

/// The format of frames that a Hello tells.
const HELLO_FORMAT: u8 = 1;

/// The frame by which a node tells who it is.
pub(crate) fn hello<B: Banks>(alloc: Global, state: &NodeState<B>) -> Result<Piece, AllocError>
    ensures { IfOk result (λ piece. piece
        ≡ frame_bytes (Hello hello_format (keeper_id (keeper_of state.now)) (keeper_domain (keeper_of state.now)))) }
{
    let id = state.id();
    let domain = Text::new(alloc, state.domain())?;
    are_kept(&id, &domain);
    let mut bytes = Vec::new(alloc);
    write_frame(&mut bytes, &Frame::Hello(HELLO_FORMAT, id, domain))?;
    Ok(Piece::from_vec(bytes))
}

/// The code by which a Hello is refused, if it is: its format has to be the node's, its domain too, and its id not.
pub(crate) fn refusal<B: Banks>(
    state: &NodeState<B>,
    format: u8,
    id: &Uuid,
    domain: &Text,
) -> Option<u8>
    ensures { IsJudged (keeper_of state.now) format id.now domain.now result }
{
    if format != HELLO_FORMAT {
        return Some(OTHER_FORMAT);
    }
    if domain.as_str() != state.domain() {
        return Some(OTHER_DOMAIN);
    }
    if *id == state.id() {
        return Some(OWN_ID);
    }
    None
}
