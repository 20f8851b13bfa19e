//! A node: one clone, or one who asks for a leaf, with connections to peers and clients, which does one event of its wire after another.
#![tactic(auto)]

mod adopting;
mod answering;
mod faults;
mod frames;
mod greeting;
mod laws;
mod messages;
mod nodes;
mod pieces;
mod requests;
mod states;
mod telling;

pub use faults::NodeFault;
pub use laws::events_are_done;
pub use messages::receive_message;
pub use node_model;
pub use node_model::{
    clone_core, clone_parts, journal_sides, journal_store, schedule_model, shell_session,
};
pub use nodes::Node;
pub use requests::answer_request;
pub use states::NodeState;
