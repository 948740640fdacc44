ghost use Rattle.std.specs.Prelude.{◌≡◌, ◌≤◌, pos, ◌≤ℤ◌};
ghost use Rattle.estimates.specs.DegreeDayTerms.{AreTermsWithin, count_of_terms, sum_of_terms};
ghost use Rattle.estimates.specs.DegreeDayTerms.{largest_degree_days, largest_sum};

/// How many parts of a term make a hundredth of a degree day.
pub const HUNDREDTH: u64 = 1_600_000;

/// The four terms of a day's degree days, in 1,600,000ths of a hundredth of a degree day.
#[derive(Clone, Copy, PartialEq, Eq, Debug)]
pub struct DegreeDayTerms {
    /// What the temperatures call for.
    pub temperature: u64,
    /// What the wind adds.
    pub wind_chill: u64,
    /// What the sun takes away.
    pub sunshine: u64,
    /// What the season adds: above zero in winter, below it in summer.
    pub season: i64,
}

impl DegreeDayTerms {
    // The count that the terms come to, in hundredths of a degree day. The definitions make terms of any observations,
    // also of those beyond their limits.
    pub(crate) fn count(&self) -> u32
        requires { AreTermsWithin self.now }
        ensures { (result ≡ count_of_terms self.now) × (result ≤ largest_degree_days) }
    {
        let parts = self.sum().max(0) as u64;
        ((2 * parts + HUNDREDTH) / (2 * HUNDREDTH)) as u32
    }

    // The sum of the terms, sunshine taken away.
    fn sum(&self) -> i64
        requires { AreTermsWithin self.now }
        ensures { (result ≡ sum_of_terms self.now) × (result ≤ℤ pos largest_sum) }
    {
        let cold = (self.temperature + self.wind_chill) as i64;
        cold - self.sunshine as i64 + self.season
    }
}
