ghost use Rattle.std.specs.Prelude.{◌≡◌, ◌+◌, ◌&&◌, Some, nat_le};
ghost use Rattle.calendar.specs.Digits.{is_date};
ghost use Rattle.terms.specs.Refusal.{number_of};
ghost use Rattle.line_format.specs.Limits.{ends_in_time, dates_exist, field_refusal, verdict, numbers_within};
ghost use Rattle.line_format.specs.Fault.{number_and_column};
ghost use Rattle.line_format.specs.Segment.{bytes_before};

use super::fault::Fault;
use super::field::Field;
use super::record::{Opening, Record};
use allocation::{LARGEST_GATE, LARGEST_INTERVAL, LARGEST_UNACCOUNTED, METERS};
use calendar::{DAYS_IN_ALL, day_number_of};
use estimates::{GREATEST_BASE_LOAD, GREATEST_SENSITIVITY};
use estimators::GREATEST_COUNT;
use terms::{LARGEST_ENERGY, RETAILERS, Refusal};

/// The largest days and points of a book that lines may speak of.
#[derive(Clone, Copy, PartialEq, Eq, Debug)]
pub struct Limits {
    /// The most days.
    pub days: u32,
    /// The last point.
    pub points: u32,
}

/// The largest book that the lines of an input can open, in days and points.
pub const LARGEST_BOOK: Limits = Limits {
    days: 62,
    points: 32,
};

// Whether a number lies in a range, its ends among it.
fn is_within(value: u64, least: u64, most: u64) -> bool
    ensures { result ≡ nat_le least value && nat_le value most }
{
    (least..=most).contains(&value)
}

// Whether there is such a date.
fn date_exists(date: u32) -> bool
    ensures { result ≡ is_date date }
{
    day_number_of(date).is_ok()
}

// Whether a book of an existing first date ends by 30 December 2099, the last date but one.
fn ends_in_time(opening: &Opening) -> bool
    ensures { result ≡ ends_in_time opening.now.first_date opening.now.days }
{
    day_number_of(opening.first_date).map_or(true, |first_day_number| {
        opening.days.saturating_add(u64::from(first_day_number)) < u64::from(DAYS_IN_ALL)
    })
}

// Of each of the four fields, whether its number is within its limits, if it holds one. The first
// date of a book is beyond them where the book would end too late.
fn numbers_within(record: &Record, limits: Limits) -> [bool; 4]
    ensures { result ≡ numbers_within limits «record».now }
{
    let days = u64::from(limits.days);
    let points = u64::from(limits.points);
    match *record {
        Record::Opening(opening) => [
            !is_within(opening.days, 1, days) || ends_in_time(&opening),
            is_within(opening.days, 1, days),
            is_within(opening.unaccounted, 0, LARGEST_UNACCOUNTED),
            true,
        ],
        Record::Factors(factors) => [
            is_within(factors.point, 1, points),
            is_within(factors.base_load, 0, GREATEST_BASE_LOAD),
            is_within(factors.sensitivity, 0, GREATEST_SENSITIVITY),
            true,
        ],
        Record::Enrolment(enrolment) => [
            is_within(enrolment.point, 1, points),
            is_within(enrolment.retailer, 1, u64::from(RETAILERS)),
            true,
            true,
        ],
        Record::GateDay(gate) => [
            true,
            is_within(gate.energy_in, 0, LARGEST_GATE),
            is_within(gate.energy_out, 0, LARGEST_GATE),
            true,
        ],
        Record::IntervalEnergy(interval) => [
            true,
            is_within(interval.meter, 1, u64::from(METERS)),
            is_within(interval.energy, 0, LARGEST_INTERVAL),
            true,
        ],
        Record::DegreeDays(degrees) => [
            true,
            is_within(degrees.count, 0, u64::from(GREATEST_COUNT)),
            true,
            true,
        ],
        Record::Reading(reading) => [
            is_within(reading.point, 1, points),
            true,
            true,
            reading.energy <= LARGEST_ENERGY,
        ],
    }
}

// Of each of the four fields, whether its date exists, if it holds one.
fn dates_exist(record: &Record) -> [bool; 4]
    ensures { result ≡ dates_exist «record».now }
{
    match *record {
        Record::Opening(opening) => [date_exists(opening.first_date), true, true, true],
        Record::Factors(_) => [true, true, true, true],
        Record::Enrolment(enrolment) => [true, true, date_exists(enrolment.start), true],
        Record::GateDay(gate) => [date_exists(gate.date), true, true, true],
        Record::IntervalEnergy(interval) => [date_exists(interval.date), true, true, true],
        Record::DegreeDays(degrees) => [date_exists(degrees.date), true, true, true],
        Record::Reading(reading) => [
            true,
            date_exists(reading.start),
            date_exists(reading.end),
            true,
        ],
    }
}

// Refuses a field, at its first column.
fn refuse_field(refusal: Refusal, field: Field) -> Result<(), Fault>
    ensures { number_and_column result ≡ Some (number_of refusal, bytes_before field + 1) }
{
    Err(Fault {
        refusal,
        column: field.column(),
    })
}

// Refuses the leftmost of the four fields that does not pass.
fn judge_fields(fields: [bool; 4], refusal: Refusal) -> Result<(), Fault>
    ensures { number_and_column result ≡ field_refusal (number_of refusal) fields }
{
    match fields {
        [false, ..] => refuse_field(refusal, Field::First),
        [_, false, ..] => refuse_field(refusal, Field::Second),
        [_, _, false, _] => refuse_field(refusal, Field::Third),
        [_, _, _, false] => refuse_field(refusal, Field::Fourth),
        _ => Ok(()),
    }
}

/// Refuses a record with a number beyond its limits as beyond limits (3), or else one with a date
/// that does not exist as no such date (4), each at the first column of the leftmost such field.
///
/// Days and points go from 1 to the most that are allowed, and a book whose first date exists and
/// whose days are within limits ends on 30 December 2099 at the latest, else its first date is at
/// fault. A share of unaccounted-for gas is at most 2,000 ten-thousandths, a base load 100,000,000
/// kJ a day, a sensitivity 1,000,000 kJ a degree day, an energy of a gate day 1,000,000,000 MJ, of
/// an interval meter 100,000,000 MJ and of a reading 10,000,000 MJ, a count 20,000 hundredths of a
/// degree day; retailers go from 1 to 16 and meters from 1 to 32. A negative energy is not judged
/// here.
pub fn check_limits(record: &Record, limits: Limits) -> Result<(), Fault>
    ensures { number_and_column result ≡ verdict limits «record».now }
{
    judge_fields(numbers_within(record, limits), Refusal::BeyondLimits)?;
    judge_fields(dates_exist(record), Refusal::NoSuchDate)
}
