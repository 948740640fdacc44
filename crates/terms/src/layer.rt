ghost use Rattle.std.specs.Prelude.{◌≡◌};
ghost use Rattle.terms.specs.Refusal.{layer_number};

/// Where a refusal is met. A later layer sees a line only once the earlier ones have accepted it.
#[derive(Clone, Copy, PartialEq, Eq, Debug)]
pub enum Layer {
    /// The bytes of a line.
    Line = 1,
    /// The record that a line holds: its turn, its numbers and its dates.
    Record = 2,
    /// The book that takes the record.
    Book = 3,
}

impl Layer {
    /// The number under which a layer is reported: 1 for the line, 2 for the record, 3 for the book.
    pub fn number(self) -> u8
        ensures { result ≡ layer_number self }
    {
        self as u8
    }
}
