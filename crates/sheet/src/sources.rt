ghost use Rattle.std.specs.Prelude.{◌≡◌, ◌+◌, ◌<◌};
ghost use Rattle.estimators.specs.Limits.{last_day};

use estimators::Estimator;
use ledger::Ledger;

/// What figures are worked out from: the ledger of a book, and the estimator beside it.
#[derive(Drop)]
pub struct Sources<'a, E> {
    /// Loads, enrolments and held readings.
    pub ledger: &'a Ledger,
    /// The estimates of the days that no reading covers, in megajoules.
    pub estimator: &'a E,
}

impl<'a, E: Estimator> Sources<'a, E> {
    // The estimate of a point on a day of the book, counted from 0. An estimator counts its day places from 1.
    pub(crate) fn estimate_of(&self, point: u32, day: u32) -> Option<u64>
        requires { day < last_day }
        ensures { result ≡ E.Estimator.meaning self.now.estimator.now point (day + 1) }
    {
        self.estimator.figure(point, day + 1)
    }
}
