//! Values of JSON-LD subjects that are neither arrays nor subjects, both ways, and the variables and subjects that a text meets.
#![tactic(auto)]

mod datatypes;
mod faults;
mod laws;
mod literals;
mod names;
mod numbering;
mod plain_numbers;
mod value_objects;
mod writing;

pub use faults::{bad_subject, unsupported};
pub use laws::{growing_keeps, meeting_grows, numbering_gives_form};
pub use literals::{boolean_object, number_object, string_object};
pub use names::Names;
pub use numbering::{number_filter, number_slot, number_triples};
pub use value_objects::{has_member, value_object};
pub use writing::{write_id, write_term};
