ghost use Rattle.std.specs.Prelude.{◌≡◌, ◌-◌, false, T, replicate, if◌then◌else◌, Option, slice_set};
ghost use Rattle.terms.specs.Answers.{Answers};
ghost use Rattle.estimators.specs.Entries.{entries_pass};
ghost use Rattle.estimators.specs.Limits.{count_within, last_point, last_day};
ghost use Rattle.estimates.specs.Factors.{factors_within};
ghost use Rattle.terms.specs.RefusalNumbers.{beyond_limits};

use super::factors::Factors;
use estimators::{DAYS, Estimator, POINTS, Weather, entry_numbered, judge_weather, point_within};
use terms::Refusal;

/// Estimates by each point's factors and each day's degree-day count: the day's kilojoules, base load and sensitivity
/// times degree days, to the nearest megajoule, halves up.
///
/// A point without factors has no figure, and a day without a count has none.
#[derive(Drop)]
pub struct ByWeather {
    // Arrays, so that entering factors or a count never allocates.
    pub(crate) factors: [Option<Factors>; POINTS as usize],
    pub(crate) counts: [Option<u32>; DAYS as usize],
    ghost sound_factors: { T (entries_pass factors_within factors) },
    ghost sound_counts: { T (entries_pass count_within counts) },
}

impl ByWeather {
    ghost use Rattle.estimates.specs.Factors.{factors_entry_within};

    /// No point has factors yet, and no day a count.
    pub fn new() -> ByWeather
        ensures factors { result.factors ≡ replicate last_point Option.None }
        ensures counts { result.counts ≡ replicate last_day Option.None }
    {
        ByWeather {
            factors: [None; POINTS as usize],
            counts: [None; DAYS as usize],
        }
    }

    /// Enters the factors of a point. They replace those that it has.
    ///
    /// `BeyondLimits` (3), and nothing changes, where there is no such point or a factor is above its limit.
    #[tactic(auto, using(estimators::proofs::Tables::entered_passes))]
    pub fn enter_factors(&mut self, point: u32, factors: Factors) -> Result<(), Refusal>
        ensures answer { Answers result (factors_entry_within point factors) tt beyond_limits }
        ensures factors { self.new.factors
            ≡ (if factors_entry_within point factors
            then slice_set self.old.factors (point - 1) (Option.Some factors)
            else self.old.factors) }
        ensures counts { self.new.counts ≡ self.old.counts }
        ensures refused { factors_entry_within point factors ≡ false → self.new ≡ self.old }
    {
        if !point_within(point) || !factors.is_within() {
            return Err(Refusal::BeyondLimits);
        }
        self.factors[point as usize - 1] = Some(factors);
        Ok(())
    }
}

impl Estimator for ByWeather {
    ghost use Rattle.estimates.specs.ByWeather.{weather_figures};
    ghost use Rattle.estimates.specs.ByWeather.{weather_figures_bounded, weather_figures_ranged};

    ghost meaning = { weather_figures };

    ghost bounded = { λ s. weather_figures_bounded s };

    ghost ranged = { λ s. weather_figures_ranged s };

    fn figure(&self, point: u32, place: u32) -> Option<u64> {
        let count = entry_numbered(&self.counts, place)?;
        self.figure_under(point, place, count)
    }
}

impl Weather for ByWeather {
    ghost use Rattle.estimates.specs.ByWeather.{weather_figures_under};
    ghost use Rattle.estimates.specs.ByWeather.{weather_figures_bounded_under, weather_figures_ranged_under};

    ghost under = { weather_figures_under };

    ghost bounded_under = { λ s. weather_figures_bounded_under s };

    ghost ranged_under = { λ s. weather_figures_ranged_under s };

    fn figure_under(&self, point: u32, place: u32, count: u32) -> Option<u64> {
        judge_weather(place, count).ok()?;
        let factors = entry_numbered(&self.factors, point)?;
        Some(factors.figure(count))
    }

    #[tactic(auto, using(estimators::proofs::Tables::entered_passes))]
    fn enter(&mut self, place: u32, count: u32) -> Result<(), Refusal> {
        judge_weather(place, count)?;
        self.counts[place as usize - 1] = Some(count);
        Ok(())
    }
}
