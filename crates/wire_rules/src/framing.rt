//! Where the frames of a connection end.
ghost use Rattle.std.specs.Prelude.{◌≤◌};
ghost use Rattle.mld_io.specs.Wires.{piece_limit};

/// The most bytes of a piece that is read.
pub const PIECE_LIMIT: usize = 65_536;

/// How many bytes of a frame come before its payload: its kind, and the length of the payload in
/// four.
const HEAD: usize = 5;

/// The length of the longest payload. What goes on in further frames, as a message in parts, has this length
/// in all but the last one.
const LONGEST: u32 = 1_048_588;

/// How far the frame is that is under way on a connection.
#[derive(Clone, Copy, Debug)]
pub struct Framing {
    /// How many bytes of its head came.
    head: usize,
    /// What the bytes of its head give as a number, and once they are all there how many bytes of
    /// its payload are still to come.
    left: u32,
    /// How many bytes its payload has, once its head is there.
    length: u32,
    /// How many bytes came that may still be kept for what they belong to: those of the frame under way, and
    /// those of the longest frames right before it, which may be parts of one message.
    kept: usize,
    /// Whether there was a whole frame.
    has_begun: bool,
}

impl Framing {
    /// The first frame, of which nothing came.
    pub fn new() -> Framing {
        Framing {
            head: 0,
            left: 0,
            length: 0,
            kept: 0,
            has_begun: false,
        }
    }

    /// How many bytes came that may still be kept for what they belong to.
    pub fn kept(&self) -> usize {
        self.kept
    }

    /// Whether not even the head of a frame came.
    pub fn is_blank(&self) -> bool {
        !self.has_begun && self.head < HEAD
    }

    /// Whether there was a whole frame.
    pub fn has_begun(&self) -> bool {
        self.has_begun
    }

    /// Whether the frame under way has no more bytes than a piece, as far as is known.
    pub fn is_short(&self) -> bool {
        (self.length as usize) <= PIECE_LIMIT
    }

    /// How many bytes may be read: those that its head lacks, or those that its payload lacks, as
    /// far as a piece goes. So no piece goes behind the end of a frame.
    pub fn wanted(&self) -> usize
        ensures some { 1 ≤ result }
        ensures few { result ≤ piece_limit }
    {
        if self.head < HEAD {
            return HEAD - self.head;
        }
        (self.left as usize).clamp(1, PIECE_LIMIT)
    }

    /// These bytes of it came, no more than were wanted.
    pub fn advance(&mut self, bytes: &[u8]) {
        self.kept = self.kept.saturating_add(bytes.len());
        if self.head < HEAD {
            for byte in bytes {
                // The kind is shifted out by the length.
                self.left = self.left.wrapping_mul(256) | u32::from(*byte);
            }
            self.head = self.head.saturating_add(bytes.len());
            self.length = self.left;
        } else {
            let count = u32::try_from(bytes.len()).unwrap_or(u32::MAX);
            self.left = self.left.saturating_sub(count);
        }
        if self.head >= HEAD && self.left == 0 {
            self.head = 0;
            self.has_begun = true;
            if self.length != LONGEST {
                self.kept = 0;
            }
        }
    }
}
