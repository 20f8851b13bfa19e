//! What the wire allows to those that it doesn't know. Times are in milliseconds.

/// How many connections there are when one has to go. One that is called comes beside them.
pub(crate) const PLACES: usize = 1_024;

/// How many bytes all connections may hold together, but for the longest piece that is being sent.
pub(crate) const HELD_LIMIT: usize = 167_772_160;

/// How many bytes more may be held before it is looked whether that is too much.
pub(crate) const GROWTH: usize = 1_048_576;

/// How many bytes may wait on a connection that was accepted before it isn't read any more.
pub(crate) const UNREAD_LIMIT: usize = 262_144;

/// How long the first frame of a connection may take.
pub(crate) const GREETING: u64 = 10_000;

/// How long nothing may go on while a frame is under way, or something waits to be sent.
pub(crate) const STANDSTILL: u64 = 60_000;

/// How long the other end of a connection that was shut may take to end it.
pub(crate) const PARTING: u64 = 10_000;

/// How much time goes by between two looks at what is late.
pub(crate) const LOOK: u64 = 1_000;
