ghost use Rattle.std.specs.Prelude.{nat_lt};
ghost use Rattle.terms.specs.Answers.{Answers, AnswersBy};
ghost use Rattle.terms.specs.RefusalNumbers.{no_such_date};
ghost use Rattle.calendar.specs.Gregorian.{days_in_all};
ghost use Rattle.calendar.specs.Digits.{is_date, day_number_of, HasDayNumber};
ghost use Rattle.calendar.specs.Date.{DayNumbersFollowDates};

use super::date::Date;
use terms::Refusal;

/// The days from 1 January 2001 to 31 December 2099. Day numbers are below this.
pub const DAYS_IN_ALL: u32 = 36_159;

/// The days from 1 January 2001 to a date, given by its eight digits.
///
/// Refused as `NoSuchDate` (4) where the digits show no date of the calendar.
pub fn day_number_of(date: u32) -> Result<u32, Refusal>
    ensures { Answers result (is_date date) (day_number_of date) no_such_date }
{
    Ok(Date::from_digits(date)?.day_number())
}

/// The eight digits of the date so many days after 1 January 2001.
///
/// Refused as `NoSuchDate` (4) from `DAYS_IN_ALL` on.
pub fn date_of_day_number(day_number: u32) -> Result<u32, Refusal>
    ensures { AnswersBy result (nat_lt day_number days_in_all)
        (λ date. HasDayNumber date day_number) no_such_date }
{
    Ok(Date::from_day_number(day_number)?.digits())
}

/// How many days there are, as `DAYS_IN_ALL`. Its contract holds the laws of the calendar: day numbers, dates and their
/// eight digits lie in one order, and each leads back to the others.
pub fn day_numbers_follow_dates() -> u32
    ensures { DayNumbersFollowDates result }
{
    DAYS_IN_ALL
}
