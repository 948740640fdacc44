// A book of four days and three points that is told more and more, and the lists that stages are drawn into.
use book::{Answer, Book, Lists, OpeningRequest};
use estimates::{ByWeather, Factors};
use rules::{Call, Delivery};
use statements::{RETAILERS, SUMS, Span};
use std::alloc::Global;
use std::process::Abort;
use std::test::Fail;
use terms::ReadingType;

pub(crate) const FIRST: u32 = 20240701;

pub(crate) const LAST: u32 = 20240704;

// The day of which the load is 0.
pub(crate) const IDLE: u32 = 20240703;

pub(crate) const WHOLE_BOOK: Span = Span {
    first: FIRST,
    last: LAST,
};

// A book and the estimator beside it. Point 2 uses 30 megajoules on a day whose count is known.
#[derive(Drop)]
pub(crate) struct Area {
    pub(crate) book: Book,
    pub(crate) weather: ByWeather,
}

fn enrol(point: u32, retailer: u32) -> Call {
    Call::Enrol {
        point,
        retailer,
        start: FIRST,
    }
}

fn gate(date: u32, energy_in: u64) -> Call {
    Call::EnterGate {
        date,
        energy_in,
        energy_out: 0,
    }
}

fn count(date: u32) -> Call {
    Call::EnterDegreeDays { date, count: 500 }
}

fn actual(point: u32, start: u32, end: u32, energy: i64) -> Call {
    Call::EnterReading(Delivery {
        point,
        start,
        end,
        energy,
        reading_type: ReadingType::Actual,
    })
}

// All days but the last have loads: 100, 300 and 0.
pub(crate) fn first_calls() -> [Call; 11] {
    [
        enrol(1, 1),
        enrol(2, 16),
        enrol(3, 1),
        gate(FIRST, 100),
        gate(20240702, 300),
        gate(IDLE, 0),
        count(FIRST),
        count(20240702),
        count(IDLE),
        count(LAST),
        actual(1, FIRST, IDLE, 200),
    ]
}

// The last day has its load.
pub(crate) fn last_gate() -> [Call; 1] {
    [gate(LAST, 200)]
}

// A gate day is revised, and a reading arrives that takes the place of estimates.
pub(crate) fn corrections() -> [Call; 2] {
    [gate(20240702, 500), actual(2, FIRST, 20240705, 40)]
}

// A reading supplies more on the last day than its load.
pub(crate) fn excess_reading() -> [Call; 1] {
    [actual(1, IDLE, 20240705, 300)]
}

// An area of so many days from the first date on that has served lists of calls, each of which it accepted.
pub(crate) fn area_with(
    rt: &(impl Abort + AllocGlobal),
    days: u32,
    lists: &[&[Call]],
) -> Result<Area, Fail> {
    let heap = rt.alloc();
    let mut weather = ByWeather::new();
    weather.enter_factors(
        2,
        Factors {
            base_load: 30_000,
            sensitivity: 0,
        },
    )?;
    let mut book = opened(heap, days)?;
    for calls in lists {
        let mut answers = vec![in heap; Ok(Answer::Accepted); calls.len()]?;
        book.serve(&mut weather, calls, answers.as_mut_slice())?;
        for answer in answers.iter() {
            assert_eq!(rt; *answer, Ok(Answer::Accepted));
        }
    }
    Ok(Area { book, weather })
}

fn opened(heap: Global, days: u32) -> Result<Book, Fail> {
    let request = OpeningRequest {
        first_date: FIRST,
        days,
        points: 3,
        unaccounted: 0,
    };
    let lists = Lists {
        sheet: vec![in heap; 0; 20]?,
        intervals: vec![in heap; 0; 200]?,
        readings: vec![in heap; None; 8]?,
    };
    Ok(Book::open(request, lists)?)
}

// The places of sums or adjustments: of the retailers 1 and 16, and of the host remainder. All others are 0.
pub(crate) fn places(first: i64, last: i64, remainder: i64) -> [i64; SUMS] {
    let mut numbers = [0; SUMS];
    numbers[0] = first;
    numbers[RETAILERS - 1] = last;
    numbers[RETAILERS] = remainder;
    numbers
}

// A list begins with some rows of numbers, and every later place holds the seven that it held.
pub(crate) fn begins(rt: &impl Abort, at: &str, list: &[i64], rows: &[[i64; SUMS]]) {
    for (place, number) in list.iter().enumerate() {
        let due = rows
            .get(place / SUMS)
            .and_then(|row| row.get(place % SUMS).copied())
            .unwrap_or(7);
        assert_eq!(rt; *number, due, "{at}: place {place}");
    }
}
