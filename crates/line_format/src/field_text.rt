ghost use Rattle.std.specs.Prelude.{◌≡◌, T};
ghost use Rattle.line_format.specs.SignedDigits.{text_fits, text_columns, has_no_leading_zero, is_number, is_signed, signed_value, is_eight_digits, is_blank};

use super::signed_digits::SignedDigits;

/// The text of a field of ten columns behind its leading spaces, as it was read or is to be
/// written: its digits suffice for its number, and with its minus they are ten at most.
#[derive(Clone, Copy, PartialEq, Eq, Debug)]
pub struct FieldText {
    pub(crate) text: SignedDigits,
    ghost fits: { T (text_fits text) },
}

impl FieldText {
    // Whether there is a digit, and no leading zero.
    fn has_no_leading_zero(&self) -> bool
        ensures { result ≡ has_no_leading_zero self.now.text.digits self.now.text.value }
    {
        match self.text.digits {
            0 => false,
            1 => true,
            digits => 10u64.pow(digits as u32 - 1) <= self.text.value,
        }
    }

    // Whether the text is a number with no leading zero.
    pub(crate) fn is_number(&self) -> bool
        ensures { result ≡ is_number self.now.text }
    {
        !self.text.minus && self.has_no_leading_zero()
    }

    // Whether the text is a number with no leading zero, perhaps after a minus, and not minus zero.
    pub(crate) fn is_signed(&self) -> bool
        ensures { result ≡ is_signed self.now.text }
    {
        self.has_no_leading_zero() && !(self.text.minus && self.text.value == 0)
    }

    // Whether the text is eight digits.
    pub(crate) fn is_eight_digits(&self) -> bool
        ensures { result ≡ is_eight_digits self.now.text }
    {
        !self.text.minus && self.text.digits == 8
    }

    // Whether nothing stands in the field.
    pub(crate) fn is_blank(&self) -> bool
        ensures { result ≡ is_blank self.now.text }
    {
        !self.text.minus && self.text.digits == 0
    }

    // The number with its sign.
    pub(crate) fn signed_value(&self) -> i64
        ensures { result ≡ signed_value self.now.text }
    {
        let size = self.text.value as i64;
        if self.text.minus { -size } else { size }
    }

    // The ten columns: the text at their right end, spaces before it.
    pub(crate) fn columns(&self) -> [u8; 10]
        ensures { result ≡ text_columns self.now.text }
    {
        let SignedDigits {
            minus,
            digits,
            value,
        } = self.text;
        let mut columns = [b' '; 10];
        let mut rest = value;
        for at in (10 - digits..10).rev() {
            columns[at] = b'0' + (rest % 10) as u8;
            rest /= 10;
        }
        if minus {
            columns[9 - digits] = b'-';
        }
        columns
    }
}
