//! Where subjects stand.

/// Where a subject stands, by which one without an id is read.
#[derive(Clone, Copy, Debug, PartialEq, Eq)]
pub enum Place {
    /// In a pattern: it is a variable that has no name.
    Pattern,
    /// In an insert: it is made anew.
    Insert,
}
