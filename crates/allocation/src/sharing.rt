ghost use Rattle.std.specs.Prelude.{◌≡◌, ◌+◌, ◌-◌, ◌*◌, ◌/◌, ◌^◌, ◌<◌, ◌≤◌};
ghost use Rattle.std.specs.Prelude.{true, false, map, length, if◌then◌else◌, sum, MatchOption, nat_le};
ghost use Rattle.terms.specs.Answers.{AnswersBy, IsAcceptedWhen};
ghost use Rattle.terms.specs.RefusalNumbers.{beyond_limits};
ghost use Rattle.allocation.specs.Row.{rows_with_shares};
ghost use Rattle.allocation.specs.ShareLaws.{SharesOut};
ghost use Rattle.allocation.specs.Sharing.{can_share, part, saturated_u64, shares};
ghost use Rattle.allocation.specs.SharingLimits.{largest_product};

use super::divisor::Divisor;
use super::row::Row;
use terms::Refusal;

// No amount times rows times largest weight passes this, so that no product in a sharing overflows.
const LARGEST_PRODUCT: u64 = 4_000_000_000_000_000_000;

// How far a sharing has come: the sum of the weights so far, and what of the amount has fallen to them.
#[derive(Clone, Copy)]
struct Progress {
    weight_sum: u64,
    share_sum: u64,
}

/// Shares an amount over rows by their weights: each takes what falls to the weights up to its own, less what falls to
/// those before, rounded down at both places. The shares add up to the amount; none exceeds its weight where the amount
/// is at most the whole weight; a weight of 0 takes 0.
///
/// Refused as `BeyondLimits` (3), with the rows as they were, where no weight is above 0, or where the amount times the
/// number of rows times the largest weight of their kind is above 4 × 10¹⁸.
pub fn share<R: Row>(amount: u64, rows: &mut [R]) -> Result<(), Refusal>
    ensures answer { IsAcceptedWhen result
        (can_share R.LARGEST amount (map R.weight rows.old)) beyond_limits }
    ensures rows { rows.new ≡ (if can_share R.LARGEST amount (map R.weight rows.old)
        then rows_with_shares R.with_share rows.old (shares amount (map R.weight rows.old))
        else rows.old) }
    ensures keeps { SharesOut amount (map R.weight rows.old) (shares amount (map R.weight rows.old)) }
{
    let total = total_to_share_over(amount, rows)?;
    let divisor = Divisor::new(total, rows.len(), amount.saturating_mul(total));
    let mut progress = Progress {
        weight_sum: 0,
        share_sum: 0,
    };
    for row in rows.iter_mut() {
        progress = take_share(row, amount, divisor, progress);
    }
    Ok(())
}

// One row takes its share: what falls to the weights with its own, less what has fallen before.
fn take_share<R: Row>(row: &mut R, amount: u64, divisor: Divisor, before: Progress) -> Progress
    requires some { 0 < divisor.by }
    requires fits { amount * saturated_u64 (before.weight_sum + R.weight row.old) < 2 ^ 64 }
    requires grows { before.share_sum
        ≤ part amount divisor.by (saturated_u64 (before.weight_sum + R.weight row.old)) }
    ensures weight_sum { result.weight_sum ≡ saturated_u64 (before.weight_sum + R.weight row.old) }
    ensures share_sum { result.share_sum ≡ part amount divisor.by result.weight_sum }
    ensures row { row.new ≡ R.with_share row.old (result.share_sum - before.share_sum) }
{
    let weight_sum = before.weight_sum.saturating_add(row.weight());
    let share_sum = divisor.quotient(amount * weight_sum);
    row.take(share_sum - before.share_sum);
    Progress {
        weight_sum,
        share_sum,
    }
}

// The sum of the weights, capped at the largest u64, where the amount can be shared over the rows.
fn total_to_share_over<R: Row>(amount: u64, rows: &[R]) -> Result<u64, Refusal>
    ensures { AnswersBy result (can_share R.LARGEST amount (map R.weight rows.now))
        (λ total. total ≡ saturated_u64 (sum (map R.weight rows.now))) beyond_limits }
{
    let total = total_weight(rows);
    if total == 0 || !product_within(amount, rows.len(), R::LARGEST) {
        return Err(Refusal::BeyondLimits);
    }
    Ok(total)
}

// The sum of the weights, or the largest u64 where it is more: an amount above 0 is then refused, and 0 falls as 0.
fn total_weight<R: Row>(rows: &[R]) -> u64
    ensures { result ≡ saturated_u64 (sum (map R.weight rows.now)) }
{
    rows.iter()
        .fold(0u64, |total, row| total.saturating_add(row.weight()))
}

// Whether the product of the three is at most the largest that a sharing takes.
fn product_within(amount: u64, rows: usize, largest: u64) -> bool
    ensures { result ≡ nat_le (amount * rows * largest) largest_product }
{
    let Some(both) = amount.checked_mul(rows as u64) else {
        return largest == 0;
    };
    both.checked_mul(largest)
        .is_some_and(|product| product <= LARGEST_PRODUCT)
}
