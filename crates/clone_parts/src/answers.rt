//! What a clone answers.
use mld_ops::{Entry, Messages};
use tree_clock::Ranges;

/// What became of an update.
#[derive(Drop)]
pub enum Done {
    /// There was nothing to do, and no operation was made.
    Nothing,
    /// An operation was made, and the entry carries it.
    Made(Entry),
}

/// What became of a message.
#[derive(Drop)]
pub enum Got {
    /// The entries of these ranges were taken, in this order.
    Took(Ranges),
    /// The snapshot was merged, and then the entries of these ranges were taken, in this order, that had been held.
    Merged(Ranges),
    /// The entry is held until what it rests on is known.
    Held,
    /// The entry was known, or all dots of the snapshot were.
    Known,
    /// These messages are for who asked: the leaf that was forked for them; or what they lack of the journal, or a snapshot.
    Answer(Messages),
    /// Who asked lacks nothing of what the journal has.
    Nothing,
    /// A clone takes no message of this kind, or asked itself.
    Ignored,
}

/// How the dots that two clones know compare.
#[derive(Clone, Copy, Debug, PartialEq, Eq)]
pub enum Covering {
    /// They are the same.
    Same,
    /// The first clone's are a proper part of the second's.
    Less,
    /// The second clone's are a proper part of the first's.
    More,
    /// Each clone knows a dot that the other lacks.
    Apart,
}
