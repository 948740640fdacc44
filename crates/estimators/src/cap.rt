ghost use Rattle.std.specs.Prelude.{◌≡◌, replicate, if◌then◌else◌, Option};
ghost use Rattle.terms.specs.Answers.{Answers};
ghost use Rattle.estimators.specs.Limits.{last_point};
ghost use Rattle.estimators.specs.Cap.{flow_of, capped_figure, capped_meaning, flow_within, with_flow};
ghost use Rattle.estimators.specs.Cap.{capped_bounded, capped_ranged, capped_bounded_under};
ghost use Rattle.estimators.specs.Cap.{capped_ranged_under};
ghost use Rattle.terms.specs.RefusalNumbers.{beyond_limits};

use super::estimator::{Estimator, Weather};
use super::limits::{POINTS, entry_numbered, point_within};
use terms::{GREATEST_FIGURE, Refusal};

/// The figures of an estimator, at most a point's greatest daily flow where it has one.
#[derive(Drop)]
pub struct Cap<E> {
    /// The estimator whose figures are capped.
    pub below: E,
    // An array, so that entering a flow never allocates.
    flows: [Option<u64>; POINTS as usize],
}

impl<E> Cap<E> {
    /// A cap over an estimator, with no flow entered yet.
    pub fn over(below: E) -> Cap<E>
        ensures below { result.below ≡ below }
        ensures flows { result.flows ≡ replicate last_point Option.None }
    {
        Cap {
            below,
            flows: [None; POINTS as usize],
        }
    }

    /// Enters the greatest daily flow of a point, in megajoules. It replaces an earlier one.
    ///
    /// `BeyondLimits` (3), and nothing changes, where there is no such point or the flow is above `GREATEST_FIGURE`.
    pub fn enter_flow(&mut self, point: u32, flow: u64) -> Result<(), Refusal>
        ensures answer { Answers result (flow_within point flow) tt beyond_limits }
        ensures after { self.new
            ≡ (if flow_within point flow then with_flow self.old point flow else self.old) }
    {
        if !point_within(point) || flow > GREATEST_FIGURE {
            return Err(Refusal::BeyondLimits);
        }
        self.flows[point as usize - 1] = Some(flow);
        Ok(())
    }

    // The smaller of a figure and the point's greatest daily flow.
    fn limited(&self, point: u32, figure: u64) -> u64
        ensures { result ≡ capped_figure (flow_of self.now.flows point) figure }
    {
        entry_numbered(&self.flows, point).map_or(figure, |flow| figure.min(flow))
    }
}

impl<E: Estimator> Estimator for Cap<E> {
    ghost meaning = { λ s. capped_meaning s.flows (E.Estimator.meaning s.below) };

    ghost bounded = { λ s. capped_bounded s.flows _ (E.Estimator.bounded s.below) };

    ghost ranged = { λ s. capped_ranged s.flows _ (E.Estimator.ranged s.below) };

    fn figure(&self, point: u32, place: u32) -> Option<u64> {
        let figure = self.below.figure(point, place)?;
        Some(self.limited(point, figure))
    }
}

impl<E: Weather> Weather for Cap<E> {
    ghost under = { λ s count. capped_meaning s.flows (E.Weather.under s.below count) };

    ghost bounded_under = { λ s. capped_bounded_under s.flows _ (E.Weather.bounded_under s.below) };

    ghost ranged_under = { λ s. capped_ranged_under s.flows _ (E.Weather.ranged_under s.below) };

    fn figure_under(&self, point: u32, place: u32, count: u32) -> Option<u64> {
        let figure = self.below.figure_under(point, place, count)?;
        Some(self.limited(point, figure))
    }

    fn enter(&mut self, place: u32, count: u32) -> Result<(), Refusal> {
        self.below.enter(place, count)
    }
}
