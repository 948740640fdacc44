ghost use Rattle.std.specs.Prelude.{◌↔◌, IsTrue};
ghost use Rattle.apportion.specs.Numerals.{IsNumeral, ReadsNumber};

use thiserror::Error;

// Why a word is not a number that was asked for.
#[derive(Clone, Copy, PartialEq, Eq, Debug, Error)]
pub(crate) enum WordFault {
    #[error("is no whole number of decimal digits")]
    NotANumber,
    #[error("is beyond its limit")]
    BeyondLimit,
}

// The number that a word of decimal digits writes, however long it is, where that is at most `most`.
pub(crate) fn number_up_to(word: &str, most: u64) -> Result<u64, WordFault>
    ensures { ReadsNumber word.now most result }
{
    if !is_numeral(word) {
        return Err(WordFault::NotANumber);
    }
    // Digits alone fail to parse only where they write more than a u64 holds.
    match word.parse::<u64>() {
        Ok(number) if number <= most => Ok(number),
        _ => Err(WordFault::BeyondLimit),
    }
}

// Whether a word is one decimal digit or more, and nothing else.
fn is_numeral(word: &str) -> bool
    ensures { IsTrue result ↔ IsNumeral word.now }
{
    !word.is_empty() && word.bytes().all(|byte| byte.is_ascii_digit())
}
