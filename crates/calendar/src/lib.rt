//! The dates from 1 January 2001 to 31 December 2099, as eight digits and as day numbers: the days from 1 January 2001,
//! which has 0. Proved: exactly the dates of the Gregorian calendar are read; day numbers and eight digits lie in one
//! order, each leads back to the other, and the day after a date has the next number.
#![tactic(auto)]

mod date;
mod day_numbers;
mod gregorian;

pub use date::Date;
pub use day_numbers::{DAYS_IN_ALL, date_of_day_number, day_number_of, day_numbers_follow_dates};
