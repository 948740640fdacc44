ghost use Rattle.std.specs.Prelude.{◌≡◌, ◌++◌, map, take, drop};
ghost use Rattle.ledger.specs.Opening.{JudgesOpening};

use allocation::{LARGEST_UNACCOUNTED, METERS};
use calendar::{DAYS_IN_ALL, day_number_of};
use estimators::{DAYS, POINTS};
use terms::Refusal;
use thiserror::Error;

/// How a book was opened.
#[derive(Clone, Copy, Debug, PartialEq, Eq)]
pub struct Opening {
    /// The day number of the book's first day: 0 is 1 January 2001.
    pub first: u32,
    /// The number of its days, at most 400.
    pub days: u32,
    /// The number of its points, at most 256. They are numbered from 1.
    pub points: u32,
    /// The share of unaccounted-for gas in ten-thousandths, at most 2,000.
    pub unaccounted: u64,
}

/// What a book is to be opened with.
#[derive(Clone, Copy, Debug, PartialEq, Eq)]
pub struct OpeningRequest {
    /// The date of the book's first day in eight digits, as 20240701.
    pub first_date: u32,
    /// The number of its days, 1 to 400.
    pub days: u32,
    /// The number of its points, 1 to 256.
    pub points: u32,
    /// The share of unaccounted-for gas in ten-thousandths, 0 to 2,000.
    pub unaccounted: u64,
}

/// What comes back where a ledger, or what is kept over one, is not opened.
#[derive(Debug, Drop, Error)]
#[error("{refusal}")]
pub struct Unopened<L> {
    /// Why it was refused.
    pub refusal: Refusal,
    /// The lists that it was to be kept in, as they were.
    pub lists: L,
}

/// Judges an opening, of which the lists have so many places.
///
/// Refused, in this order: 3 `BeyondLimits` (days, points or share, or a last day later than
/// 30 December 2099), 4 `NoSuchDate`, 15 `ListTooShort` (fewer than 32 interval places a day, or no
/// reading place).
pub fn judge_opening(
    request: OpeningRequest,
    interval_places: usize,
    reading_places: usize,
) -> Result<Opening, Refusal>
    ensures { JudgesOpening request interval_places reading_places result }
{
    let OpeningRequest {
        first_date,
        days,
        points,
        unaccounted,
    } = request;
    if !(1..=DAYS).contains(&days)
        || !(1..=POINTS).contains(&points)
        || unaccounted > LARGEST_UNACCOUNTED
    {
        return Err(Refusal::BeyondLimits);
    }
    let first = day_number_of(first_date)?;
    if first + days >= DAYS_IN_ALL {
        return Err(Refusal::BeyondLimits);
    }
    if interval_places < (days * METERS) as usize || reading_places < 1 {
        return Err(Refusal::ListTooShort);
    }
    Ok(Opening {
        first,
        days,
        points,
        unaccounted,
    })
}

/// Writes 0 into the first `n` places of a list, or into all where it has fewer.
pub fn clear_front(list: &mut [u64], n: usize)
    ensures { list.new ≡ map (λ x. 0) (take n list.old) ++ drop n list.old }
{
    let n = n.min(list.len());
    list[..n].fill(0);
}
