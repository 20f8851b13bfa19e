//! Subjects of JSON-LD as triples, both ways.
#![tactic(auto)]

mod entering;
mod found;
mod ids;
mod keyed_terms;
mod laws;
mod members;
mod objects;
mod open_subjects;
mod places;
mod plain_values;
mod property_keys;
mod reading;
mod writing;

pub use jsonld_values;
pub use jsonld_values::{Names, write_term};
pub use laws::{
    each_subject_is_its_own, object_is_a_value, one_object_says_a_subject, reading_gives_back,
    reading_keeps_to_names,
};
pub use objects::{ObjectRead, read_object, stands_alone};
pub use places::Place;
pub use property_keys::PropertyKeys;
pub use reading::read_subjects;
pub use writing::write_subject;
