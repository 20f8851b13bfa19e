//! The limit of lexical forms.

/// How many bytes a lexical form has at most.
pub const LEXICAL_LIMIT: usize = 1_048_576;
