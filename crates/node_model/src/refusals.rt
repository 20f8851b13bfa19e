//! The codes by which a connection is refused.

/// A bad frame, a part that isn't the next one, or a whole that is no message.
pub const BAD_FRAME: u8 = 1;

/// A frame that is too long.
pub const LONG_FRAME: u8 = 2;

/// A Hello of another domain.
pub const OTHER_DOMAIN: u8 = 3;

/// A Hello of another format.
pub const OTHER_FORMAT: u8 = 4;

/// A Hello with the node's own id.
pub const OWN_ID: u8 = 5;

/// A frame that may not come on such a connection.
pub const MISPLACED: u8 = 6;

/// A message that is too long would go on the connection.
pub const LONG_MESSAGE: u8 = 7;

/// A range, or a snapshot, with ticks of the clone's own path that it never gave.
pub const FOREIGN_TICK: u8 = 8;

/// A question for a leaf, where the clone's is too deep to be forked.
pub const DEEP_LEAF: u8 = 9;
