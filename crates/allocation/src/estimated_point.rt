ghost use Rattle.std.specs.Prelude.{◌≡◌, ◌≤◌, nat_le};
ghost use Rattle.terms.specs.Answers.{AnswersBy};
ghost use Rattle.terms.specs.RefusalNumbers.{beyond_limits};
ghost use Rattle.allocation.specs.SharingLimits.{largest_estimate};

use super::row::Row;
use terms::Refusal;

/// A point that is estimated on a day: its estimate, and the figure that it is scaled to, both in MJ.
#[derive(Clone, Copy, PartialEq, Eq, Debug)]
pub struct EstimatedPoint {
    pub estimate: u64,
    pub figure: u64,
    ghost within_largest: { estimate ≤ largest_estimate },
}

impl EstimatedPoint {
    /// A point with this estimate that is not scaled yet.
    ///
    /// Refused as `BeyondLimits` (3) where the estimate is above `EstimatedPoint::LARGEST`, 1,000,000.
    pub fn new(estimate: u64) -> Result<EstimatedPoint, Refusal>
        ensures { AnswersBy result (nat_le estimate largest_estimate)
            (λ point. (point.estimate ≡ estimate) × (point.figure ≡ 0)) beyond_limits }
    {
        if estimate > <EstimatedPoint as Row>::LARGEST {
            return Err(Refusal::BeyondLimits);
        }
        Ok(EstimatedPoint {
            estimate,
            figure: 0,
        })
    }
}

// The estimate is the weight, and the scaled figure the share.
impl Row for EstimatedPoint {
    ghost use Rattle.allocation.specs.EstimatedPoint.{with_figure};

    const LARGEST: u64 = terms::GREATEST_FIGURE;

    ghost LARGEST = { largest_estimate };

    ghost weight = { λ point. point.estimate };

    ghost with_share = { with_figure };

    ghost within_largest = { λ point. point.within_largest };

    fn weight(&self) -> u64 {
        self.estimate
    }

    fn take(&mut self, share: u64) {
        self.figure = share;
    }
}
