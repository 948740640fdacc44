ghost use Rattle.std.specs.Prelude.{◌≡◌, ◌≤◌};
ghost use Rattle.estimates.specs.Season.{month_of_day_number, season_of, reading_weight, day_weight};

use calendar::Date;

/// The seasons of the year, by how much hot water is used in them (hot-water method W2).
#[derive(Clone, Copy, Debug, PartialEq, Eq)]
pub enum Season {
    /// August to October.
    Cold,
    /// June, July, November and December.
    Between,
    /// January to May.
    Warm,
}

impl Season {
    /// The season of a month, counted from 1 for January.
    pub fn of_month(month: u32) -> Season
        ensures { result ≡ season_of month }
    {
        match month {
            8..=10 => Season::Cold,
            6 | 7 | 11 | 12 => Season::Between,
            _ => Season::Warm,
        }
    }

    // What litres read in the season count for.
    pub(crate) fn reading_weight(self) -> u64
        ensures weight { result ≡ reading_weight self }
        ensures at_most { result ≤ 6 }
    {
        match self {
            Season::Cold => 3,
            Season::Between => 4,
            Season::Warm => 6,
        }
    }

    // What a day in the season counts for: with the reading's weight 12, where the litres were read in the same season.
    pub(crate) fn day_weight(self) -> u64
        ensures weight { result ≡ day_weight self }
        ensures at_most { result ≤ 4 }
    {
        match self {
            Season::Cold => 4,
            Season::Between => 3,
            Season::Warm => 2,
        }
    }
}

// The month of a day number, counted from 1 for January, or none after 2099.
pub(crate) fn month_of_day_number(day_number: u32) -> Option<u32>
    ensures { result ≡ month_of_day_number day_number }
{
    let date = Date::from_day_number(day_number).ok()?;
    Some(date.month())
}
