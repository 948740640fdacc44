// The interface of every estimator.
ghost use Rattle.std.specs.Prelude.{◌≡◌, ℕ, true, false};
ghost use Rattle.terms.specs.Answers.{Answers};
ghost use Rattle.estimators.specs.Meaning.{Meaning, IsBounded, IsRanged, IsBoundedUnder};
ghost use Rattle.estimators.specs.Meaning.{IsRangedUnder, TakesCount, weather_within};
ghost use Rattle.terms.specs.RefusalNumbers.{beyond_limits};

use terms::Refusal;

/// What a point is thought to use on a day.
///
/// No figure is above `GREATEST_FIGURE`, and beyond the points from 1 to `POINTS` and the day places from 1 to `DAYS`
/// there is none.
pub trait Estimator {
    // A figure or none for each point and day place.
    ghost meaning: { Self → Meaning };

    /// The figure of a point at a day place, in megajoules, or none.
    fn figure(&self, point: u32, place: u32) -> Option<u64>
        ensures { result ≡ meaning self.now point place };

    ghost bounded: { (s : Self) → IsBounded (meaning s) };

    ghost ranged: { (s : Self) → IsRanged (meaning s) };
}

/// An estimator that takes degree-day counts.
///
/// Its figures under a count keep the limits too, and for a count above `GREATEST_COUNT` there are none.
pub trait Weather: Estimator {
    // The same under each count: what the figures of a day are once the count is entered for it.
    ghost under: { Self → ℕ → Meaning };

    /// The figure of a point at a day place if its count were this, in hundredths of a degree day.
    ///
    /// It is in megajoules, or there is none.
    fn figure_under(&self, point: u32, place: u32, count: u32) -> Option<u64>
        ensures { result ≡ under self.now count point place };

    /// Enters the count of a day place, in hundredths of a degree day. It replaces an earlier one.
    ///
    /// `BeyondLimits` (3), and nothing changes, where there is no such day place or the count is above
    /// `GREATEST_COUNT`.
    fn enter(&mut self, place: u32, count: u32) -> Result<(), Refusal>
        ensures answer { Answers result (weather_within place count) tt beyond_limits }
        ensures entered { weather_within place count ≡ true
            → TakesCount place count (Self.Estimator.meaning self.old) (Self.Estimator.meaning self.new)
            (under self.old) (under self.new) }
        ensures refused { weather_within place count ≡ false → self.new ≡ self.old };

    ghost bounded_under: { (s : Self) → IsBoundedUnder (under s) };

    ghost ranged_under: { (s : Self) → IsRangedUnder (under s) };
}
