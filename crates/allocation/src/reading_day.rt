ghost use Rattle.std.specs.Prelude.{◌≡◌, ◌≤◌, nat_le};
ghost use Rattle.terms.specs.Answers.{AnswersBy};
ghost use Rattle.terms.specs.RefusalNumbers.{beyond_limits};
ghost use Rattle.allocation.specs.SharingLimits.{largest_day_weight};

use super::row::Row;
use terms::Refusal;

/// A day that a reading covers: the day's weight, and its share of the metered energy in MJ.
#[derive(Clone, Copy, PartialEq, Eq, Debug)]
pub struct ReadingDay {
    pub weight: u64,
    pub share: u64,
    ghost within_largest: { weight ≤ largest_day_weight },
}

impl ReadingDay {
    /// A day of this weight that has taken no share yet.
    ///
    /// Refused as `BeyondLimits` (3) where the weight is above `ReadingDay::LARGEST`, 1,000,000,000.
    pub fn new(weight: u64) -> Result<ReadingDay, Refusal>
        ensures { AnswersBy result (nat_le weight largest_day_weight)
            (λ day. (day.weight ≡ weight) × (day.share ≡ 0)) beyond_limits }
    {
        if weight > <ReadingDay as Row>::LARGEST {
            return Err(Refusal::BeyondLimits);
        }
        Ok(ReadingDay { weight, share: 0 })
    }
}

impl Row for ReadingDay {
    ghost use Rattle.allocation.specs.ReadingDay.{with_share};

    const LARGEST: u64 = super::loads::LARGEST_GATE;

    ghost LARGEST = { largest_day_weight };

    ghost weight = { λ day. day.weight };

    ghost with_share = { with_share };

    ghost within_largest = { λ day. day.within_largest };

    fn weight(&self) -> u64 {
        self.weight
    }

    fn take(&mut self, share: u64) {
        self.share = share;
    }
}
