//! The model of a node, with what it rests on: what a client may ask for, connections, and what is sent on them.
#![tactic(auto)]

mod connections;
mod exchanges;
mod lists;
mod parts;
mod refusals;
mod request_laws;
mod requests;
mod run_laws;
mod sending;

pub use connections::{Connection, Role, Sent};
pub use exchanges::Exchange;
pub use lists::{place_connection, take_connection};
pub use refusals::{
    BAD_FRAME, DEEP_LEAF, FOREIGN_TICK, LONG_FRAME, MISPLACED, OTHER_DOMAIN, OTHER_FORMAT, OWN_ID,
};
pub use request_laws::one_request;
pub use requests::{Request, read_request};
pub use run_laws::node_steps_lead;
pub use shell_session;
pub use shell_session::{clone_core, clone_parts, journal_sides, journal_store, schedule_model};
