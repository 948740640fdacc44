// The two plainest estimators that keep the laws of every estimator.
ghost use Rattle.std.specs.Prelude.{◌&&◌, if◌then◌else◌, Option, refl};
ghost use Rattle.estimators.specs.Limits.{point_within, day_place_within};
ghost use Rattle.estimators.specs.Meaning.{weather_within};
ghost use Rattle.book_tests.specs.Laws.{none_bounded, greatest_bounded, greatest_ranged};
ghost use Rattle.terms.specs.Limits.{greatest_figure};

use estimators::{
    Estimator, GREATEST_FIGURE, Weather, count_within, day_place_within, judge_weather,
    point_within,
};
use terms::Refusal;

// Knows no figure at all.
#[derive(Drop)]
pub(crate) struct Silent;

// Takes every point to use as much as a figure can be.
#[derive(Drop)]
pub(crate) struct Greatest;

impl Estimator for Silent {
    ghost meaning = { λ _ _ _. Option.None };

    ghost bounded = { λ _ _ _. none_bounded };

    ghost ranged = { λ _ _ _ _. refl };

    fn figure(&self, _point: u32, _day: u32) -> Option<u64> {
        None
    }
}

impl Weather for Silent {
    ghost under = { λ _ _ _ _. Option.None };

    ghost bounded_under = { λ _ _ _ _. none_bounded };

    ghost ranged_under = { λ _ _ _ _ _. refl };

    fn figure_under(&self, _point: u32, _day: u32, _count: u32) -> Option<u64> {
        None
    }

    fn enter(&mut self, day: u32, count: u32) -> Result<(), Refusal> {
        judge_weather(day, count)
    }
}

impl Estimator for Greatest {
    ghost meaning = { λ _ point day.
        (if point_within point && day_place_within day then Option.Some greatest_figure else Option.None) };

    ghost bounded = { λ _ point day. greatest_bounded (point_within point && day_place_within day) };

    ghost ranged = { λ _ point day. greatest_ranged (point_within point && day_place_within day) };

    fn figure(&self, point: u32, day: u32) -> Option<u64> {
        if point_within(point) && day_place_within(day) {
            Some(GREATEST_FIGURE)
        } else {
            None
        }
    }
}

impl Weather for Greatest {
    ghost under = { λ _ count point day.
        (if point_within point && weather_within day count then Option.Some greatest_figure else Option.None) };

    ghost bounded_under = { λ _ count point day. greatest_bounded (point_within point && weather_within day count) };

    ghost ranged_under = { λ _ count point day. greatest_ranged (point_within point && weather_within day count) };

    fn figure_under(&self, point: u32, day: u32, count: u32) -> Option<u64> {
        if !count_within(count) {
            return None;
        }
        self.figure(point, day)
    }

    fn enter(&mut self, day: u32, count: u32) -> Result<(), Refusal> {
        judge_weather(day, count)
    }
}
