ghost use Rattle.std.specs.Prelude.{◌+◌, ◌≤◌, ◌↔◌, IsTrue, nat_lt};
ghost use Rattle.terms.specs.Answers.{Answers};
ghost use Rattle.terms.specs.RefusalNumbers.{beyond_limits};
ghost use Rattle.terms.specs.Rounding.{nearest};

use super::refusal::Refusal;

/// `number` ÷ `by` to the nearest whole number, halves up. Any number can be divided, and the quotient always fits.
///
/// Refused as `BeyondLimits` (3) where `by` is 0.
pub fn nearest_quotient(number: u64, by: u64) -> Result<u64, Refusal>
    ensures { Answers result (nat_lt 0 by) (nearest number by) beyond_limits }
{
    if by == 0 {
        return Err(Refusal::BeyondLimits);
    }
    let whole = number / by;
    if half_or_more(number % by, by) {
        Ok(whole + 1)
    } else {
        Ok(whole)
    }
}

// Whether a rest is half of the divisor and more. Twice the rest could pass the largest u64.
fn half_or_more(rest: u64, by: u64) -> bool
    requires { rest ≤ by }
    ensures { IsTrue result ↔ (by ≤ rest + rest) }
{
    rest >= by - rest
}
