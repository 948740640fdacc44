// What the calendar says of days known from elsewhere, and of every day in turn.
use calendar::{DAYS_IN_ALL, Date, date_of_day_number, day_number_of, day_numbers_follow_dates};
use std::process::Abort;
use std::test::Fail;
use terms::Refusal;

// A day by its eight digits, the days from 1 January 2001 to it, and its place in its year.
const DAYS: [(u32, u32, u32); 29] = [
    (20010101, 0, 1),
    (20010102, 1, 2),
    (20010131, 30, 31),
    (20010201, 31, 32),
    (20010228, 58, 59),
    (20010301, 59, 60),
    (20011231, 364, 365),
    (20020101, 365, 1),
    (20031231, 1094, 365),
    (20040101, 1095, 1),
    (20040228, 1153, 59),
    (20040229, 1154, 60),
    (20040301, 1155, 61),
    (20041230, 1459, 365),
    (20041231, 1460, 366),
    (20050101, 1461, 1),
    (20230228, 8093, 59),
    (20240229, 8459, 60),
    (20240430, 8520, 121),
    (20240701, 8582, 183),
    (20241231, 8765, 366),
    (20250831, 9008, 243),
    (20500615, 18062, 166),
    (20960229, 34757, 60),
    (20961231, 35063, 366),
    (20970101, 35064, 1),
    (20991130, 36127, 334),
    (20991230, 36157, 364),
    (20991231, 36158, 365),
];

// A day and the day after it, each by its eight digits.
const DAYS_AFTER: [(u32, u32); 11] = [
    (20010101, 20010102),
    (20010131, 20010201),
    (20010430, 20010501),
    (20011231, 20020101),
    (20230228, 20230301),
    (20240228, 20240229),
    (20240229, 20240301),
    (20240630, 20240701),
    (20241231, 20250101),
    (20960228, 20960229),
    (20991230, 20991231),
];

const NO_DATES: [u32; 33] = [
    0, 1, 101, 2001, 10101, 200101, 2001010, 20000101, 20001231, 20010000, 20010100, 20010001,
    20010132, 20010229, 20011301, 20230229, 20240001, 20240100, 20240230, 20240431, 20240631,
    20240931, 20241131, 20241232, 20241301, 20249999, 20991232, 20991301, 21000101, 21000228,
    120240101, 99999999, 4294967295,
];

fn check_no_such_date<T: Drop>(rt: &impl Abort, answer: Result<T, Refusal>) -> Result<(), Fail> {
    assert_eq!(rt; answer.err(), Some(Refusal::NoSuchDate));
    Ok(())
}

#[test]
fn known_numbers(rt: HostRuntime) -> Result<(), Fail> {
    for (digits, number, _) in DAYS {
        assert_eq!(rt; day_number_of(digits)?, number);
        assert_eq!(rt; date_of_day_number(number)?, digits);
    }
    Ok(())
}

#[test]
fn known_parts(rt: HostRuntime) -> Result<(), Fail> {
    for (digits, _, place) in DAYS {
        let date = Date::from_digits(digits)?;
        assert_eq!(rt; date.day_of_year(), place);
        assert_eq!(rt; date.year(), digits / 10_000);
        assert_eq!(rt; date.month(), digits / 100 % 100);
        assert_eq!(rt; date.day(), digits % 100);
    }
    Ok(())
}

#[test]
fn no_dates(rt: HostRuntime) -> Result<(), Fail> {
    for digits in NO_DATES {
        check_no_such_date(&rt, day_number_of(digits))?;
        check_no_such_date(&rt, Date::from_digits(digits))?;
    }
    Ok(())
}

#[test]
fn days_after(rt: HostRuntime) -> Result<(), Fail> {
    for (day, after) in DAYS_AFTER {
        let date = Date::from_digits(day)?;
        assert_eq!(rt; date.next()?.digits(), after);
    }
    check_no_such_date(&rt, Date::from_digits(20991231)?.next())
}

#[test]
fn every_day_in_turn(rt: HostRuntime) -> Result<(), Fail> {
    let days = day_numbers_follow_dates();
    assert_eq!(rt; days, 36_159);
    assert_eq!(rt; DAYS_IN_ALL, days);
    let mut today = Date::from_digits(20010101)?;
    for number in 1..days {
        today = today.next()?;
        assert_eq!(rt; today.day_number(), number);
        assert_eq!(rt; Date::from_day_number(number)?.digits(), today.digits());
    }
    assert_eq!(rt; today.digits(), 20991231);
    check_no_such_date(&rt, date_of_day_number(days))?;
    check_no_such_date(&rt, date_of_day_number(u32::MAX))
}
