//! Texts, and the rules on them: absolute IRIs and names of domains, the resolution of references, language tags, texts compared as they would be written, and the forms of texts in JSON-LD.
#![tactic(auto)]

mod absolute;
pub mod characters;
mod compare;
mod dots;
mod escaped;
mod faults;
mod forms;
mod integers;
mod places;
mod references;
mod resolution;
mod spots;
mod tags;
mod texts;

pub use absolute::{DOMAIN_LIMIT, IRI_LIMIT, is_absolute, is_domain, is_iri};
pub use compare::{cmp_closed, cmp_escaped, common_len};
pub use escaped::{append_escaped, letter_value};
pub use faults::IriFault;
pub use forms::{
    begins_as_keyword, begins_authority, cut_colon, ends_in_delimiter, has_colon, is_delimiter,
    is_plain, is_term_name, is_variable, plain_end,
};
pub use integers::{is_plain_integer, plain_integer_value};
pub use places::{byte_at, has_byte};
pub use resolution::{folder_of, resolve};
pub use spots::Spot;
pub use tags::{is_language_tag, lower_tag};
pub use texts::Text;
