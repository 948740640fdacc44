ghost use Rattle.std.specs.Prelude.{◌≡◌, ◌-◌, ◌<◌, false, T, replicate, if◌then◌else◌, Option, slice_set};
ghost use Rattle.terms.specs.Answers.{Answers, AnswersBy};
ghost use Rattle.calendar.specs.Digits.{is_date, day_number_of};
ghost use Rattle.calendar.specs.Gregorian.{days_in_all};
ghost use Rattle.estimators.specs.Entries.{entries_pass};
ghost use Rattle.estimators.specs.Limits.{last_point};
ghost use Rattle.estimates.specs.Usage.{usage_within};
ghost use Rattle.terms.specs.RefusalNumbers.{beyond_limits, no_such_date};

use super::season::month_of_day_number;
use super::usage::Usage;
use calendar::day_number_of;
use estimators::{
    Estimator, POINTS, Weather, count_within, day_place_within, entry_numbered, judge_weather,
    point_within,
};
use terms::Refusal;

/// Estimates by each point's hot water and the seasons of its last reading and of the day (hot-water method W2, applied
/// to single days), to the nearest megajoule, halves up.
///
/// The figures are the same under every count and without one. A point without hot water has none, and so has every
/// point on a day after 2099.
#[derive(Drop)]
pub struct HotWater {
    // The day number of the book's first day, from 0 for 1 January 2001.
    pub(crate) first_day_number: u32,
    // An array, so that entering hot water never allocates.
    pub(crate) usages: [Option<Usage>; POINTS as usize],
    ghost first_within: { first_day_number < days_in_all },
    ghost sound_usages: { T (entries_pass usage_within usages) },
}

impl HotWater {
    ghost use Rattle.estimates.specs.Usage.{usage_entry_within};
    ghost use Rattle.estimates.specs.HotWater.{month_of_place};

    /// No point has hot water yet. Day place 1 is the first date, given by its eight digits.
    ///
    /// `NoSuchDate` (4) where there is no such date from 2001 to 2099.
    #[tactic(auto, using(calendar::proofs::Order::day_number_below))]
    pub fn new(first_date: u32) -> Result<HotWater, Refusal>
        ensures { AnswersBy result (is_date first_date)
            (λ h. (h.first_day_number ≡ day_number_of first_date)
            × (h.usages ≡ replicate last_point Option.None))
            no_such_date }
    {
        let first_day_number = day_number_of(first_date)?;
        Ok(HotWater {
            first_day_number,
            usages: [None; POINTS as usize],
        })
    }

    /// Enters the hot water of a point. It replaces what the point has.
    ///
    /// `BeyondLimits` (3), and nothing changes, where there is no such point or a number of the hot water is beyond its
    /// limits.
    #[tactic(auto, using(estimators::proofs::Tables::entered_passes))]
    pub fn enter_usage(&mut self, point: u32, usage: Usage) -> Result<(), Refusal>
        ensures answer { Answers result (usage_entry_within point usage) tt beyond_limits }
        ensures usages { self.new.usages
            ≡ (if usage_entry_within point usage
            then slice_set self.old.usages (point - 1) (Option.Some usage)
            else self.old.usages) }
        ensures first { self.new.first_day_number ≡ self.old.first_day_number }
        ensures refused { usage_entry_within point usage ≡ false → self.new ≡ self.old }
    {
        if !point_within(point) || !usage.is_within() {
            return Err(Refusal::BeyondLimits);
        }
        self.usages[point as usize - 1] = Some(usage);
        Ok(())
    }

    // The month of a day place, or none after 2099.
    fn month_of_place(&self, place: u32) -> Option<u32>
        ensures { result ≡ month_of_place self.now place }
    {
        if !day_place_within(place) {
            return None;
        }
        month_of_day_number(self.first_day_number + (place - 1))
    }
}

impl Estimator for HotWater {
    ghost use Rattle.estimates.specs.HotWater.{hot_water_figures};
    ghost use Rattle.estimates.specs.HotWater.{hot_water_figures_bounded, hot_water_figures_ranged};

    ghost meaning = { hot_water_figures };

    ghost bounded = { λ s. hot_water_figures_bounded s };

    ghost ranged = { λ s. hot_water_figures_ranged s };

    fn figure(&self, point: u32, place: u32) -> Option<u64> {
        let month = self.month_of_place(place)?;
        let usage = entry_numbered(&self.usages, point)?;
        Some(usage.figure(month))
    }
}

impl Weather for HotWater {
    ghost use Rattle.estimates.specs.HotWater.{hot_water_figures_under};
    ghost use Rattle.estimates.specs.HotWater.{hot_water_figures_bounded_under, hot_water_figures_ranged_under};

    ghost under = { hot_water_figures_under };

    ghost bounded_under = { λ s. hot_water_figures_bounded_under s };

    ghost ranged_under = { λ s. hot_water_figures_ranged_under s };

    fn figure_under(&self, point: u32, place: u32, count: u32) -> Option<u64> {
        if !count_within(count) {
            return None;
        }
        self.figure(point, place)
    }

    fn enter(&mut self, place: u32, count: u32) -> Result<(), Refusal> {
        judge_weather(place, count)
    }
}
