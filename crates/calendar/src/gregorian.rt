ghost use Rattle.std.specs.Prelude.{◌≡◌, ◌+◌, ◌<◌, ◌≤◌};
ghost use Rattle.calendar.specs.Gregorian.{first_year, last_year, is_leap, month_length, year_length};
ghost use Rattle.calendar.specs.Gregorian.{day_exists, days_before_month, days_before_year};

// The first and the last year of the calendar.
pub(crate) const FIRST_YEAR: u32 = 2001;

pub(crate) const LAST_YEAR: u32 = 2099;

// The days of a year that is no leap year.
pub(crate) const DAYS_IN_YEAR: u32 = 365;

// The days of four years, of which the last is a leap year.
pub(crate) const DAYS_IN_FOUR_YEARS: u32 = 1461;

// The days of each month of such a year, and the days before each.
const MONTH_LENGTHS: [u32; 12] = [31, 28, 31, 30, 31, 30, 31, 31, 30, 31, 30, 31];

const DAYS_BEFORE_MONTH: [u32; 12] = [0, 31, 59, 90, 120, 151, 181, 212, 243, 273, 304, 334];

// Whether a year has a 29 February.
pub(crate) fn is_leap(year: u32) -> bool
    ensures { result ≡ is_leap year }
{
    year % 4 == 0 && (year % 100 != 0 || year % 400 == 0)
}

// The days of a month, counted from 1. Year and month are two numbers, since a `Date` is made only once its day is
// known to exist.
pub(crate) fn month_length(year: u32, month: u32) -> u32
    requires { (1 ≤ month) × (month ≤ 12) }
    ensures { result ≡ month_length year month }
{
    MONTH_LENGTHS[month as usize - 1] + u32::from(month == 2 && is_leap(year))
}

// Whether there is such a day in the calendar.
pub(crate) fn day_exists(year: u32, month: u32, day: u32) -> bool
    ensures { result ≡ day_exists year month day }
{
    (FIRST_YEAR..=LAST_YEAR).contains(&year)
        && (1..=12).contains(&month)
        && (1..=month_length(year, month)).contains(&day)
}

// The days of a year before a month. Every fourth year is a leap year, as 2100 is not reached.
pub(crate) fn days_before_month(year: u32, month: u32) -> u32
    requires { (first_year ≤ year) × (year ≤ last_year) × (1 ≤ month) × (month ≤ 12) }
    ensures { result ≡ days_before_month year month }
{
    DAYS_BEFORE_MONTH[month as usize - 1] + u32::from(month > 2 && year % 4 == 0)
}

// The days from 1 January 2001 to a year's first. Every fourth year among them is a leap year, as 2100 is not reached.
pub(crate) fn days_before_year(year: u32) -> u32
    requires { (first_year ≤ year) × (year ≤ last_year) }
    ensures { result ≡ days_before_year year }
{
    let years = year - FIRST_YEAR;
    years * DAYS_IN_YEAR + years / 4
}

// The month of the day that has so many days of its year before it.
pub(crate) fn month_at(year: u32, days: u32) -> u32
    requires { (first_year ≤ year) × (year ≤ last_year) × (days < year_length year) }
    ensures low { 1 ≤ result }
    ensures high { result ≤ 12 }
    ensures begins { days_before_month year result ≤ days }
    ensures ends_later { days < days_before_month year (result + 1) }
{
    // A month has 31 days at most, and those before December together lack seven of that at most: it is this month or the next.
    let month = days / 31 + 1;
    if month < 12 && days_before_month(year, month + 1) <= days {
        month + 1
    } else {
        month
    }
}
