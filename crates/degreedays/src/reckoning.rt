ghost use Rattle.std.specs.Prelude.{◌≡◌, T, IfOk, if◌then◌else◌, Result};
ghost use Rattle.calendar.specs.Digits.{is_date};
ghost use Rattle.estimates.specs.Observations.{day_of_year_within};
ghost use Rattle.degreedays.specs.Word.{first_beyond, first_fault, ok_unless};
ghost use Rattle.degreedays.specs.Reckoning.{day_of_year_of, reckoning_of};

use super::word::Word;
use calendar::Date;
use estimates::{DegreeDayTerms, Observations, temperature_within, wind_within};

/// The degree days of a date.
#[derive(Clone, Copy, PartialEq, Eq, Debug)]
pub struct Reckoning {
    /// From 1 for 1 January to 366.
    pub day_of_year: u32,
    /// What the count is made of, in 1,600,000ths of a hundredth of a degree day.
    pub terms: DegreeDayTerms,
    /// The degree-day count, in hundredths of a degree day.
    pub count: u32,
}

/// The degree days of a date, given by its eight digits, or the first word that is at fault: the date where there is
/// no such date from 2001 to 2099, else the first temperature, wind or sunshine beyond its limits.
pub fn reckon(date: u32, observations: &Observations) -> Result<Reckoning, Word>
    ensures { result ≡ ok_unless (first_fault date observations.now) (reckoning_of date observations.now) }
{
    let day_of_year = day_of_year(date)?;
    first_beyond(observations)?;
    // Only the sunshine is left to be beyond its limits.
    let terms = observations.terms(day_of_year).map_err(|_| Word::Sunshine)?;
    let count = observations
        .degree_days(day_of_year)
        .map_err(|_| Word::Sunshine)?;
    Ok(Reckoning {
        day_of_year,
        terms,
        count,
    })
}

// The day of its year of a date.
fn day_of_year(date: u32) -> Result<u32, Word>
    ensures answer { result ≡ (if is_date date then Result.Ok (day_of_year_of date) else Result.Err Word.Date) }
    ensures within { IfOk result (λ day. T (day_of_year_within day)) }
{
    let date = Date::from_digits(date).map_err(|_| Word::Date)?;
    Ok(date.day_of_year())
}

// Refused for the first temperature beyond its limits, or else for the first wind.
fn first_beyond(observations: &Observations) -> Result<(), Word>
    ensures { result ≡ ok_unless (first_beyond observations.now) tt }
{
    let temperature = observations
        .temperatures
        .iter()
        .position(|t| !temperature_within(*t));
    let wind = observations.winds.iter().position(|w| !wind_within(*w));
    temperature
        .map(|i| Word::Temperature(i as u32 + 1))
        .or(wind.map(|i| Word::Wind(i as u32 + 1)))
        .map_or(Ok(()), Err)
}
