ghost use Rattle.std.specs.Prelude.{◌≡◌, refl};
ghost use Rattle.terms.specs.Answers.{Answers};
ghost use Rattle.line_format.specs.FieldValue.{ReadsText, WritesText, ReadsField};
ghost use Rattle.line_format.specs.Kind.{Kind, Value, width, fits, columns, number, signed};
ghost use Rattle.terms.specs.RefusalNumbers.{beyond_limits};

use super::field_text::FieldText;
use super::signed_digits::SignedDigits;
use terms::Refusal;

// The largest number of ten digits.
const LARGEST_NUMBER: u64 = 9_999_999_999;

// The least number of nine digits and a minus, and the largest of ten digits.
const LEAST_SIGNED: i64 = -999_999_999;

const LARGEST_SIGNED: i64 = 9_999_999_999;

/// What may stand in a field of ten columns: it is read from the field's text, and written as one. A number (`u64`, 0 to
/// 9,999,999,999), a signed number (`i64`, -999,999,999 to 9,999,999,999), a date ([`EightDigits`](super::EightDigits)),
/// or nothing ([`Blank`](super::Blank)).
pub trait FieldValue: Sized {
    // The kind of the field, and what of that kind a value is.
    ghost kind: { Kind };

    ghost value_of: { Self → Value kind };

    /// The value that a text is the writing of, if it is one.
    fn from_text(text: FieldText) -> Option<Self>
        ensures { ReadsText kind value_of text result };

    /// The text that a value is written as, if it fits ten columns.
    fn to_text(self) -> Option<FieldText>
        ensures { WritesText kind (value_of self) result };

    ghost ten_columns: { width kind ≡ 10 };

    /// The value in a field, from its ten columns.
    ///
    /// Refused as `MalformedLine` (1) where none stands there, and where there are not ten columns.
    final fn read(columns: &[u8]) -> Result<Self, Refusal>
        ensures { ReadsField kind value_of columns.now result }
    {
        let text = SignedDigits::scan(columns)?;
        Self::from_text(FieldText { text }).ok_or(Refusal::MalformedLine)
    }

    /// The ten columns of a value.
    ///
    /// Refused as `BeyondLimits` (3) where it does not fit them.
    final fn write(self) -> Result<[u8; 10], Refusal>
        ensures { Answers result (fits kind (value_of self)) (columns kind (value_of self)) beyond_limits }
    {
        let text = self.to_text().ok_or(Refusal::BeyondLimits)?;
        Ok(text.columns())
    }
}

// A number: 0 to 9,999,999,999.
impl FieldValue for u64 {
    ghost kind = { number };

    ghost value_of = { λ n. n };

    ghost ten_columns = { refl };

    fn from_text(text: FieldText) -> Option<u64> {
        text.is_number().then_some(text.text.value)
    }

    fn to_text(self) -> Option<FieldText> {
        if self > LARGEST_NUMBER {
            return None;
        }
        Some(FieldText {
            text: SignedDigits::of_number(false, self),
        })
    }
}

// A number that may be negative: -999,999,999 to 9,999,999,999.
impl FieldValue for i64 {
    ghost kind = { signed };

    ghost value_of = { λ z. z };

    ghost ten_columns = { refl };

    fn from_text(text: FieldText) -> Option<i64> {
        text.is_signed().then_some(text.signed_value())
    }

    fn to_text(self) -> Option<FieldText> {
        if !(LEAST_SIGNED..=LARGEST_SIGNED).contains(&self) {
            return None;
        }
        Some(FieldText {
            text: SignedDigits::of_number(self < 0, self.unsigned_abs()),
        })
    }
}
