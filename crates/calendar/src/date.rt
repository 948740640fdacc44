ghost use Rattle.std.specs.Prelude.{◌≡◌, ◌+◌, T, nat_lt};
ghost use Rattle.terms.specs.Answers.{AnswersBy};
ghost use Rattle.terms.specs.RefusalNumbers.{no_such_date};
ghost use Rattle.calendar.specs.Gregorian.{day_exists, days_in_all};
ghost use Rattle.calendar.specs.Digits.{is_date};

use super::day_numbers::DAYS_IN_ALL;
use super::gregorian::{
    DAYS_IN_FOUR_YEARS, DAYS_IN_YEAR, FIRST_YEAR, LAST_YEAR, day_exists, days_before_month,
    days_before_year, month_at, month_length,
};
use terms::Refusal;

/// A day of the calendar, from 1 January 2001 to 31 December 2099. Every value is a day that there is.
#[derive(Clone, Copy, PartialEq, Eq, Debug)]
pub struct Date {
    pub(crate) year: u32,
    pub(crate) month: u32,
    pub(crate) day: u32,
    ghost real: { T (day_exists year month day) },
}

impl Date {
    ghost use Rattle.calendar.specs.Date.{date_day_number, date_day_of_year, digits_of};

    /// The date that a number of eight digits shows, year first, as 20240701.
    ///
    /// Refused as `NoSuchDate` (4) where it shows no date of the calendar.
    pub fn from_digits(date: u32) -> Result<Date, Refusal>
        ensures { AnswersBy result (is_date date) (λ d. digits_of d ≡ date) no_such_date }
    {
        let year = date / 10_000;
        let month = date / 100 % 100;
        let day = date % 100;
        if day_exists(year, month, day) {
            Ok(Date { year, month, day })
        } else {
            Err(Refusal::NoSuchDate)
        }
    }

    /// The date so many days after 1 January 2001.
    ///
    /// Refused as `NoSuchDate` (4) from `DAYS_IN_ALL` on.
    pub fn from_day_number(day_number: u32) -> Result<Date, Refusal>
        ensures { AnswersBy result (nat_lt day_number days_in_all)
            (λ d. date_day_number d ≡ day_number) no_such_date }
    {
        if day_number >= DAYS_IN_ALL {
            return Err(Refusal::NoSuchDate);
        }
        let in_four_years = day_number % DAYS_IN_FOUR_YEARS;
        let whole_years = (in_four_years / DAYS_IN_YEAR).min(3);
        let year = FIRST_YEAR + day_number / DAYS_IN_FOUR_YEARS * 4 + whole_years;
        let in_year = in_four_years - whole_years * DAYS_IN_YEAR;
        let month = month_at(year, in_year);
        let day = in_year - days_before_month(year, month) + 1;
        Ok(Date { year, month, day })
    }

    /// The day after a date.
    ///
    /// Refused as `NoSuchDate` (4) for the last date, 31 December 2099.
    pub fn next(self) -> Result<Date, Refusal>
        ensures { AnswersBy result (nat_lt (date_day_number self + 1) days_in_all)
            (λ d. date_day_number d ≡ date_day_number self + 1) no_such_date }
    {
        let Date { year, month, day } = self;
        if day < month_length(year, month) {
            Ok(Date {
                year,
                month,
                day: day + 1,
            })
        } else if month < 12 {
            Ok(Date {
                year,
                month: month + 1,
                day: 1,
            })
        } else if year < LAST_YEAR {
            Ok(Date {
                year: year + 1,
                month: 1,
                day: 1,
            })
        } else {
            Err(Refusal::NoSuchDate)
        }
    }

    /// The year, 2001 to 2099.
    pub fn year(self) -> u32
        ensures { result ≡ self.year }
    {
        self.year
    }

    /// The month, from 1 for January.
    pub fn month(self) -> u32
        ensures { result ≡ self.month }
    {
        self.month
    }

    /// The day of the month, from 1.
    pub fn day(self) -> u32
        ensures { result ≡ self.day }
    {
        self.day
    }

    /// The eight digits of a date, year first, as 20240701.
    pub fn digits(self) -> u32
        ensures { result ≡ digits_of self }
    {
        10_000 * self.year + 100 * self.month + self.day
    }

    /// The days from 1 January 2001 to a date; 1 January 2001 has 0.
    pub fn day_number(self) -> u32
        ensures { result ≡ date_day_number self }
    {
        days_before_year(self.year) + days_before_month(self.year, self.month) + (self.day - 1)
    }

    /// The place of a date in its year, from 1 for 1 January to 365 or 366.
    pub fn day_of_year(self) -> u32
        ensures { result ≡ date_day_of_year self }
    {
        days_before_month(self.year, self.month) + self.day
    }
}
