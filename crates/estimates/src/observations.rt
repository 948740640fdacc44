ghost use Rattle.std.specs.Prelude.{◌≡◌, ◌≤◌, IfOk, IsTrue, sum};
ghost use Rattle.terms.specs.Answers.{Answers};
ghost use Rattle.estimates.specs.DegreeDayTerms.{AreTermsWithin, largest_degree_days, largest_wind_chill};
ghost use Rattle.estimates.specs.Observations.{temperature_within, wind_within, observations_within};
ghost use Rattle.estimates.specs.Observations.{has_count, coldness, wind_chill, terms_of, degree_days};
ghost use Rattle.estimates.specs.Observations.{largest_coldness, largest_wind_sum};
ghost use Rattle.terms.specs.RefusalNumbers.{beyond_limits};

use super::degree_day_terms::DegreeDayTerms;
use super::season_table::season_term;
use terms::Refusal;

// In tenths of a degree.
const COLDEST: i32 = -200;

const HOTTEST: i32 = 500;

// In knots.
const STRONGEST_WIND: u32 = 100;

// In tenths of an hour.
const MOST_SUNSHINE: u32 = 160;

const LAST_DAY_OF_YEAR: u32 = 366;

// Eight times 18 degrees, in tenths: a day is cold by what its temperatures together stay below that.
const THRESHOLD: i32 = 1440;

// What a tenth of a degree of coldness, the same with a knot of wind, and a tenth of an hour of sunshine come to, in
// 1,600,000ths of a hundredth of a degree day.
const COLDNESS_WEIGHT: u64 = 2_000_000;

const WIND_WEIGHT: u64 = 2_869;

const SUNSHINE_WEIGHT: u64 = 2_880_000;

/// What the weather stations observed on a day.
#[derive(Clone, Copy, PartialEq, Eq, Debug)]
pub struct Observations {
    /// In tenths of a degree Celsius, every three hours, from -200 to 500.
    pub temperatures: [i32; 8],
    /// In knots, every three hours at each of two stations, from 0 to 100.
    pub winds: [u32; 16],
    /// In tenths of an hour, from 0 to 160.
    pub sunshine: u32,
}

impl Observations {
    /// The degree-day count of these observations on a day of the year from 1 to 366, in hundredths of a degree day: at
    /// most 12,722.
    ///
    /// `BeyondLimits` (3) where an observation or the day of the year is beyond its limits.
    pub fn degree_days(&self, day_of_year: u32) -> Result<u32, Refusal>
        ensures answer { Answers result (has_count self.now day_of_year)
            (degree_days self.now day_of_year) beyond_limits }
        ensures bound { IfOk result (λ count. count ≤ largest_degree_days) }
    {
        let terms = self.terms(day_of_year)?;
        Ok(terms.count())
    }

    /// The four terms of that count, refused as `degree_days` is.
    pub fn terms(&self, day_of_year: u32) -> Result<DegreeDayTerms, Refusal>
        ensures answer { Answers result (has_count self.now day_of_year) (terms_of self.now day_of_year) beyond_limits }
        ensures bounds { IfOk result AreTermsWithin }
    {
        if !self.are_within() || !(1..=LAST_DAY_OF_YEAR).contains(&day_of_year) {
            return Err(Refusal::BeyondLimits);
        }
        let coldness = self.coldness();
        Ok(DegreeDayTerms {
            temperature: COLDNESS_WEIGHT * coldness,
            wind_chill: wind_chill(coldness, u64::from(self.wind_sum())),
            sunshine: SUNSHINE_WEIGHT * u64::from(self.sunshine),
            season: season_term(day_of_year),
        })
    }

    // Whether all of them are within their limits.
    fn are_within(&self) -> bool
        ensures { result ≡ observations_within self.now }
    {
        let mild = self.temperatures.iter().all(|t| temperature_within(*t));
        let calm = self.winds.iter().all(|w| wind_within(*w));
        mild && calm && self.sunshine <= MOST_SUNSHINE
    }

    // How far the temperatures together stay below the threshold, in tenths of a degree.
    fn coldness(&self) -> u64
        requires { IsTrue (observations_within self.now) }
        ensures { (result ≡ coldness self.now.temperatures) × (result ≤ largest_coldness) }
    {
        let mut sum = 0;
        for t in &self.temperatures {
            sum += *t;
        }
        (THRESHOLD - sum).max(0) as u64
    }

    // The sum of the winds, in knots.
    fn wind_sum(&self) -> u32
        requires { IsTrue (observations_within self.now) }
        ensures { (result ≡ sum self.now.winds) × (result ≤ largest_wind_sum) }
    {
        self.winds.iter().sum()
    }
}

/// Whether a temperature is within its limits, from -200 to 500 tenths of a degree.
pub fn temperature_within(temperature: i32) -> bool
    ensures { result ≡ temperature_within temperature }
{
    (COLDEST..=HOTTEST).contains(&temperature)
}

/// Whether a wind is within its limits, from 0 to 100 knots.
pub fn wind_within(wind: u32) -> bool
    ensures { result ≡ wind_within wind }
{
    wind <= STRONGEST_WIND
}

// The wind chill of a day of that coldness, with winds of that sum.
fn wind_chill(coldness: u64, wind_sum: u64) -> u64
    requires { (coldness ≤ largest_coldness) × (wind_sum ≤ largest_wind_sum) }
    ensures { (result ≡ wind_chill coldness wind_sum) × (result ≤ largest_wind_chill) }
{
    WIND_WEIGHT * coldness * wind_sum
}
