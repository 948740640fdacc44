ghost use Rattle.std.specs.Prelude.{◌≡◌};
ghost use Rattle.std.specs.Option.{option_map};
ghost use Rattle.degreedays.specs.Half.{answering_half};

use estimators::{Cap, Estimator, FallBack};

/// A half of a fall-back.
#[derive(Clone, Copy, PartialEq, Eq, Debug)]
pub enum Half {
    /// The estimator that is asked first.
    First,
    /// The one that is asked where the first has no figure.
    Second,
}

/// A figure, and the half of a fall-back that it comes from.
#[derive(Clone, Copy, PartialEq, Eq, Debug)]
pub struct Answer {
    /// In megajoules a day.
    pub figure: u64,
    pub half: Half,
}

impl Answer {
    /// What a capped fall-back answers for a point at a day place, if it has a figure.
    pub fn of<F: Estimator, S: Estimator>(
        estimator: &Cap<FallBack<F, S>>,
        point: u32,
        place: u32,
    ) -> Option<Answer>
        ensures figure { option_map (λ answer. answer.figure) result
            ≡ ⟦<Cap<FallBack<F, S>> as Estimator>⟧.meaning estimator.now point place }
        ensures half { option_map (λ answer. answer.half) result
            ≡ answering_half (F.Estimator.meaning estimator.now.below.first point place)
            (S.Estimator.meaning estimator.now.below.second point place) }
    {
        Some(Answer {
            figure: estimator.figure(point, place)?,
            half: Half::of(&estimator.below, point, place)?,
        })
    }
}

impl Half {
    // The half of a fall-back that answers for a point at a day place, if either does.
    fn of<F: Estimator, S: Estimator>(
        estimator: &FallBack<F, S>,
        point: u32,
        place: u32,
    ) -> Option<Half>
        ensures { result ≡ answering_half (F.Estimator.meaning estimator.now.first point place)
            (S.Estimator.meaning estimator.now.second point place) }
    {
        if estimator.first.figure(point, place).is_some() {
            return Some(Half::First);
        }
        estimator.second.figure(point, place).map(|_| Half::Second)
    }
}
