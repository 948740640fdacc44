ghost use Rattle.std.specs.Prelude.{◌≡◌, ◌^◌, ◌≤◌, ◌++◌, length, drop, replicate, decimal, ◌==◌, ◌≢◌, nat_lt, slice_index};
ghost use Rattle.line_format.specs.Columns.{last_digits, InvertsWriting};
ghost use Rattle.line_format.specs.SignedDigits.{text_fits, text_columns, of_number, of_date};

use terms::Refusal;

// What stands in a field behind its leading spaces: digits, perhaps after a minus. The number that
// they write has its sign beside it, since minus zero is written otherwise than zero.
#[derive(Clone, Copy, PartialEq, Eq, Debug)]
pub(crate) struct SignedDigits {
    pub(crate) minus: bool,
    // How many digits there are, leading zeros among them.
    pub(crate) digits: usize,
    pub(crate) value: u64,
}

// How many spaces the bytes begin with.
fn leading_spaces(bytes: &[u8]) -> usize
    ensures within { result ≤ length bytes.now }
    ensures spaces { bytes.now ≡ replicate result 32 ++ drop result bytes.now }
    ensures past { slice_index bytes.now result ≢ 32 }
{
    bytes
        .iter()
        .position(|byte| *byte != b' ')
        .unwrap_or(bytes.len())
}

// Whether the first byte is a minus.
fn begins_with_minus(bytes: &[u8]) -> bool
    ensures { result ≡ (slice_index bytes.now 0 == 45) }
{
    bytes.first() == Some(&b'-')
}

// How many digits a number has, with no leading zero.
fn digit_count(value: u64) -> usize
    ensures { result ≡ length (decimal value) }
{
    value.checked_ilog10().unwrap_or(0) as usize + 1
}

// The number that digits write. Refuses as malformed (1) where a byte is no digit.
fn digits_value(bytes: &[u8]) -> Result<u64, Refusal>
    requires { length bytes.now ≤ 10 }
    ensures { InvertsWriting (λ v. nat_lt v (10 ^ length bytes.now))
        (last_digits (length bytes.now)) bytes.now result }
{
    let mut value: u64 = 0;
    for byte in bytes {
        if !byte.is_ascii_digit() {
            return Err(Refusal::MalformedLine);
        }
        value = 10 * value + u64::from(*byte - b'0');
    }
    Ok(value)
}

impl SignedDigits {
    // What stands in a field, from its ten columns: spaces, perhaps a minus, and digits to the end.
    // Refuses as malformed (1) anything else, columns of another number among them.
    pub(crate) fn scan(columns: &[u8]) -> Result<SignedDigits, Refusal>
        ensures { InvertsWriting text_fits text_columns columns.now result }
    {
        if columns.len() != 10 {
            return Err(Refusal::MalformedLine);
        }
        let spaces = leading_spaces(columns);
        let minus = begins_with_minus(&columns[spaces..10]);
        let start = spaces + usize::from(minus);
        let value = digits_value(&columns[start..10])?;
        Ok(SignedDigits {
            minus,
            digits: 10 - start,
            value,
        })
    }

    // A number with no leading zero, after a minus where it is negative.
    pub(crate) fn of_number(is_negative: bool, value: u64) -> SignedDigits
        ensures { result ≡ of_number is_negative value }
    {
        SignedDigits {
            minus: is_negative,
            digits: digit_count(value),
            value,
        }
    }

    // The eight digits of a date.
    pub(crate) fn of_date(date: u32) -> SignedDigits
        ensures { result ≡ of_date date }
    {
        SignedDigits {
            minus: false,
            digits: 8,
            value: u64::from(date),
        }
    }
}
