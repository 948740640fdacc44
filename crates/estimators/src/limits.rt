// The limits of every estimator, and entries of tables that are numbered within them.
ghost use Rattle.std.specs.Prelude.{◌≡◌, length};
ghost use Rattle.terms.specs.Answers.{Answers};
ghost use Rattle.estimators.specs.Entries.{entry_numbered};
ghost use Rattle.estimators.specs.Limits as bounds;
ghost use Rattle.estimators.specs.Meaning.{weather_within};
ghost use Rattle.terms.specs.RefusalNumbers.{beyond_limits};

use terms::Refusal;

/// Points are numbered from 1 to this.
pub const POINTS: u32 = 256;

/// Day places go from 1, the book's first day, to this.
pub const DAYS: u32 = 400;

/// The greatest degree-day count of a day, in hundredths of a degree day.
pub const GREATEST_COUNT: u32 = 20_000;

/// Whether there is such a point, from 1 to `POINTS`.
pub fn point_within(point: u32) -> bool
    ensures { result ≡ bounds.point_within point }
{
    (1..=POINTS).contains(&point)
}

/// Whether there is such a day place, from 1 to `DAYS`.
pub fn day_place_within(place: u32) -> bool
    ensures { result ≡ bounds.day_place_within place }
{
    (1..=DAYS).contains(&place)
}

/// Whether there can be such a degree-day count, in hundredths: it is at most `GREATEST_COUNT`.
pub fn count_within(count: u32) -> bool
    ensures { result ≡ bounds.count_within count }
{
    count <= GREATEST_COUNT
}

/// What every estimator answers to a degree-day count, in hundredths, for a day place: `BeyondLimits` (3) where there
/// is no such day place or no such count.
pub fn judge_weather(place: u32, count: u32) -> Result<(), Refusal>
    ensures { Answers result (weather_within place count) tt beyond_limits }
{
    if day_place_within(place) && count_within(count) {
        Ok(())
    } else {
        Err(Refusal::BeyondLimits)
    }
}

/// The entry of a number in a table that is numbered from 1, or none beyond the table.
pub fn entry_numbered<X: Copy>(table: &[Option<X>], number: u32) -> Option<X>
    ensures { result ≡ entry_numbered (length table.now) table.now number }
{
    let index = number.checked_sub(1)? as usize;
    *table.get(index)?
}
