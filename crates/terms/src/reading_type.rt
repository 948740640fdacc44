ghost use Rattle.std.specs.Prelude.{◌≡◌};
ghost use Rattle.terms.specs.ReadingType.{letter_of, is_firm, IsTypeOf};

use std::fmt;
use thiserror::Error;

/// How a reading came about. An actual or a substituted reading is firm; an estimate or the customer's own is soft.
#[derive(Clone, Copy, PartialEq, Eq, Debug)]
pub enum ReadingType {
    /// Read at the meter. Letter A.
    Actual,
    /// Put in the place of an actual reading. Letter S.
    Substituted,
    /// Estimated by the distributor. Letter E.
    Estimated,
    /// Read by the customer. Letter C.
    CustomersOwn,
}

impl ReadingType {
    /// Whether the type is firm: a soft reading does not replace one of a firm type.
    pub fn is_firm(self) -> bool
        ensures { result ≡ is_firm self }
    {
        matches!(self, ReadingType::Actual | ReadingType::Substituted)
    }
}

impl fmt::Display for ReadingType {
    fn fmt<W: fmt::Write>(&self, f: &mut fmt::Formatter<W>) -> fmt::Result {
        f.write_str(match self {
            ReadingType::Actual => "actual",
            ReadingType::Substituted => "substituted",
            ReadingType::Estimated => "estimated",
            ReadingType::CustomersOwn => "customer's own",
        })
    }
}

/// A letter that stands for no type of reading.
#[derive(Clone, Copy, PartialEq, Eq, Debug, Error)]
#[error("no type of reading has the letter {0:?}")]
pub struct UnknownLetter(pub char);

// The letters are A, S, E and C, in upper case; any other is handed back.
impl TryFrom<char> for ReadingType {
    type Error = UnknownLetter;

    ghost try_from_gives = { IsTypeOf };

    fn try_from(letter: char) -> Result<Self, UnknownLetter> {
        match letter {
            'A' => Ok(ReadingType::Actual),
            'S' => Ok(ReadingType::Substituted),
            'E' => Ok(ReadingType::Estimated),
            'C' => Ok(ReadingType::CustomersOwn),
            _ => Err(UnknownLetter(letter)),
        }
    }
}

impl From<ReadingType> for char {
    ghost from_gives = { λ t letter. letter ≡ letter_of t };

    fn from(reading_type: ReadingType) -> char {
        match reading_type {
            ReadingType::Actual => 'A',
            ReadingType::Substituted => 'S',
            ReadingType::Estimated => 'E',
            ReadingType::CustomersOwn => 'C',
        }
    }
}
