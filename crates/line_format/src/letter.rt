ghost use Rattle.std.specs.Prelude.{◌≡◌, true, [], ◌∷◌};
ghost use Rattle.terms.specs.ReadingType as letters;
ghost use Rattle.line_format.specs.Columns.{InvertsWriting};

use terms::{ReadingType, Refusal};

/// The type of reading that a letter stands for: A, S, E or C.
///
/// Refused as `MalformedLine` (1) for any other byte.
pub fn type_of_letter(letter: u8) -> Result<ReadingType, Refusal>
    ensures { InvertsWriting (λ _. true) (λ t. letters.letter_of t ∷ []) (letter ∷ []) result }
{
    ReadingType::try_from(char::from(letter)).map_err(|_| Refusal::MalformedLine)
}

/// The letter of a type of reading: A, S, E or C.
pub fn letter_of(reading_type: ReadingType) -> u8
    ensures { result ≡ letters.letter_of reading_type }
{
    char::from(reading_type) as u8
}

/// Reads the letter's column where the tag has no letter: a space.
///
/// Refused as `MalformedLine` (1) for any other byte.
pub fn read_no_letter(letter: u8) -> Result<(), Refusal>
    ensures { InvertsWriting (λ _. true) (λ _. 32 ∷ []) (letter ∷ []) result }
{
    if letter == b' ' {
        Ok(())
    } else {
        Err(Refusal::MalformedLine)
    }
}
