//! JSON-LD contexts: read from JSON, and what keys and ids stand for under them, both ways.
#![tactic(auto)]

mod by_iri;
mod compacting;
mod context;
mod datatypes;
mod definitions;
mod expanding;
mod faults;
mod laws;
mod prefixes;
mod reading;

pub use context::Context;
pub use datatypes::Datatype;
pub use definitions::TermType;
pub use faults::JsonFault;
pub use laws::{equal_contexts_are_the_same, expanding_gives_back, plain_id_is_the_end};
pub use reading::{is_id_key, is_type_key, member_at, string_at};
pub use text_rules::{begins_as_keyword, is_variable};
