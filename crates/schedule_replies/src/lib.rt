//! The replies of a schedule's steps, and their text.
#![tactic(auto)]

mod pieces;
mod queries;
mod replies;

pub use queries::reply_to_query;
pub use replies::{Reply, push_property_set, push_ready, push_reply, push_then_crashed};
