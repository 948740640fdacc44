ghost use Rattle.std.specs.Prelude.{◌≡◌, ℕ, List, [], ◌∷◌, ◌++◌, length, ◌==◌};
ghost use Rattle.report.specs.LineStart.{line_start};

use arrayvec::ArrayVec;
use std::marker::Model;

// One byte more than a line has.
const SIZE: usize = 47;

/// The start of a line that has no end yet: its first 47 bytes at most, which tell what it says.
///
/// A line has 46 bytes. Of a longer one the start tells that it is too long, and all later bytes
/// are let go.
#[derive(Debug, Drop)]
pub struct LineStart {
    bytes: ArrayVec<u8, SIZE>,
}

impl Model for LineStart {
    ghost Value = { List ℕ };

    ghost view = { λ s. s.bytes.items };
}

impl LineStart {
    /// The start of a line with no byte.
    pub fn new() -> LineStart
        ensures { result ≡ [] }
    {
        LineStart {
            bytes: ArrayVec::new(),
        }
    }

    /// Adds the next byte of the line, if there is room for it.
    pub fn push(&mut self, byte: u8)
        ensures { self.new ≡ line_start (self.old ++ byte ∷ []) }
    {
        if !self.bytes.is_full() {
            self.bytes.push(byte);
        }
    }

    /// The bytes, in their order.
    pub fn bytes(&self) -> &[u8]
        ensures { result.now ≡ self.now }
    {
        self.bytes.as_slice()
    }

    /// Whether the line has no byte.
    pub fn is_empty(&self) -> bool
        ensures { result ≡ (length self.now == 0) }
    {
        self.bytes.is_empty()
    }

    /// Begins another line, with no byte.
    pub fn clear(&mut self)
        ensures { self.new ≡ [] }
    {
        self.bytes.clear();
    }
}
