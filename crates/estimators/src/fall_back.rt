ghost use Rattle.estimators.specs.FallBack.{first_of, joined_bounded, joined_ranged, joined_bounded_under};
ghost use Rattle.estimators.specs.FallBack.{joined_ranged_under};

use super::estimator::{Estimator, Weather};
use terms::Refusal;

/// The first estimator's figure where it has one, else the second's. A count is entered in both.
#[derive(Drop)]
pub struct FallBack<F, S> {
    /// The estimator that is asked first.
    pub first: F,
    /// The one that is asked where the first has no figure.
    pub second: S,
}

impl<F: Estimator, S: Estimator> Estimator for FallBack<F, S> {
    ghost meaning = { λ s. first_of (F.Estimator.meaning s.first) (S.Estimator.meaning s.second) };

    ghost bounded = { λ s. joined_bounded _ _
        (F.Estimator.bounded s.first) (S.Estimator.bounded s.second) };

    ghost ranged = { λ s. joined_ranged _ _
        (F.Estimator.ranged s.first) (S.Estimator.ranged s.second) };

    fn figure(&self, point: u32, place: u32) -> Option<u64> {
        if let Some(figure) = self.first.figure(point, place) {
            Some(figure)
        } else {
            self.second.figure(point, place)
        }
    }
}

impl<F: Weather, S: Weather> Weather for FallBack<F, S> {
    ghost under = { λ s count. first_of (F.Weather.under s.first count) (S.Weather.under s.second count) };

    ghost bounded_under = { λ s. joined_bounded_under _ _
        (F.Weather.bounded_under s.first) (S.Weather.bounded_under s.second) };

    ghost ranged_under = { λ s. joined_ranged_under _ _
        (F.Weather.ranged_under s.first) (S.Weather.ranged_under s.second) };

    fn figure_under(&self, point: u32, place: u32, count: u32) -> Option<u64> {
        if let Some(figure) = self.first.figure_under(point, place, count) {
            Some(figure)
        } else {
            self.second.figure_under(point, place, count)
        }
    }

    fn enter(&mut self, place: u32, count: u32) -> Result<(), Refusal> {
        self.first.enter(place, count)?;
        self.second.enter(place, count)
    }
}
