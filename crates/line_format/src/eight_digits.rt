ghost use Rattle.std.specs.Prelude.{refl};
ghost use Rattle.line_format.specs.Kind.{date};

use super::field_text::FieldText;
use super::field_value::FieldValue;
use super::signed_digits::SignedDigits;

// The largest number of eight digits.
const LARGEST_DATE: u32 = 99_999_999;

/// The eight digits of a date, a number like 20240701, whether or not there is such a date.
#[derive(Clone, Copy, PartialEq, Eq, Debug)]
pub struct EightDigits(pub u32);

impl FieldValue for EightDigits {
    ghost kind = { date };

    ghost value_of = { λ d. d.0 };

    ghost ten_columns = { refl };

    fn from_text(text: FieldText) -> Option<EightDigits> {
        text.is_eight_digits()
            .then(|| EightDigits(text.text.value as u32))
    }

    fn to_text(self) -> Option<FieldText> {
        if self.0 > LARGEST_DATE {
            return None;
        }
        Some(FieldText {
            text: SignedDigits::of_date(self.0),
        })
    }
}
