ghost use Rattle.std.specs.Prelude.{refl};
ghost use Rattle.line_format.specs.Kind.{blank};

use super::field_text::FieldText;
use super::field_value::FieldValue;
use super::signed_digits::SignedDigits;

/// What stands in an unused field: ten spaces.
#[derive(Clone, Copy, PartialEq, Eq, Debug)]
pub struct Blank;

// The text of an unused field.
const NO_DIGITS: SignedDigits = SignedDigits {
    minus: false,
    digits: 0,
    value: 0,
};

impl FieldValue for Blank {
    ghost kind = { blank };

    ghost value_of = { λ _. tt };

    ghost ten_columns = { refl };

    fn from_text(text: FieldText) -> Option<Blank> {
        text.is_blank().then_some(Blank)
    }

    fn to_text(self) -> Option<FieldText> {
        Some(FieldText { text: NO_DIGITS })
    }
}
