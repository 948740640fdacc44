// Calls by their shortest names, and a book that serves a table of them.
use book::{Answer, Book, Lists, OpeningRequest};
use estimators::Weather;
use rules::{Call, Delivery};
use sheet::Account;
use std::alloc::Global;
use std::process::Abort;
use std::test::Fail;
use terms::{ReadingType, Refusal};

// A call, and what it is to be answered.
pub(crate) type Case = (Call, Result<Answer, Refusal>);

pub(crate) fn enrol(point: u32, retailer: u32, start: u32) -> Call {
    Call::Enrol {
        point,
        retailer,
        start,
    }
}

pub(crate) fn gate(date: u32, energy_in: u64, energy_out: u64) -> Call {
    Call::EnterGate {
        date,
        energy_in,
        energy_out,
    }
}

pub(crate) fn interval(date: u32, meter: u32, energy: u64) -> Call {
    Call::EnterInterval {
        date,
        meter,
        energy,
    }
}

pub(crate) fn degree_days(date: u32, count: u32) -> Call {
    Call::EnterDegreeDays { date, count }
}

pub(crate) fn reading(
    point: u32,
    start: u32,
    end: u32,
    energy: i64,
    reading_type: ReadingType,
) -> Call {
    Call::EnterReading(Delivery {
        point,
        start,
        end,
        energy,
        reading_type,
    })
}

pub(crate) fn actual(point: u32, start: u32, end: u32, energy: i64) -> Call {
    reading(point, start, end, energy, ReadingType::Actual)
}

pub(crate) fn estimate(point: u32, start: u32, end: u32, energy: i64) -> Call {
    reading(point, start, end, energy, ReadingType::Estimated)
}

pub(crate) fn figure(point: u32, date: u32) -> Call {
    Call::AskFigure { point, date }
}

pub(crate) fn day(date: u32) -> Call {
    Call::AskDay { date }
}

pub(crate) fn retailer(retailer: u32, date: u32) -> Call {
    Call::AskRetailer { retailer, date }
}

pub(crate) fn accepted(call: Call) -> Case {
    (call, Ok(Answer::Accepted))
}

pub(crate) fn refused(call: Call, refusal: Refusal) -> Case {
    (call, Err(refusal))
}

// The answer about a day, by its load, supplied, generated, remainder, excess and missing.
pub(crate) fn account(numbers: [u64; 6]) -> Answer {
    let [load, supplied, generated, remainder, excess, missing] = numbers;
    Answer::Day(Account {
        load,
        supplied,
        generated,
        remainder,
        excess,
        missing,
    })
}

// Serves the calls of a table in one run, and holds each answer to the one beside the call.
pub(crate) fn serve_table<E: Weather>(
    rt: &(impl Abort + AllocGlobal),
    at: &str,
    book: &mut Book,
    estimator: &mut E,
    table: &[Case],
) -> Result<(), Fail> {
    let heap = rt.alloc();
    let calls: Vec<Call> = table.iter().map(|(call, _)| *call).collect(heap)?;
    let mut answers = vec![in heap; Ok(Answer::Accepted); calls.len()]?;
    book.serve(estimator, calls.as_slice(), answers.as_mut_slice())?;
    for (i, (given, (_, due))) in answers.iter().zip(table).enumerate() {
        assert_eq!(rt; *given, *due, "{at}: call {i}");
    }
    Ok(())
}

// A book of so many days and points from July 2024 on, all whose gas is accounted for.
pub(crate) fn from_july(days: u32, points: u32) -> OpeningRequest {
    OpeningRequest {
        first_date: 20240701,
        days,
        points,
        unaccounted: 0,
    }
}

// Lists full of sevens, with so many places for readings.
pub(crate) fn sevens(heap: Global, reading_places: usize) -> Result<Lists, Fail> {
    Ok(Lists {
        sheet: vec![in heap; 7; 100]?,
        intervals: vec![in heap; 7; 500]?,
        readings: vec![in heap; None; reading_places]?,
    })
}

// A book with so many places for readings, and with its lists full of sevens before it was opened.
pub(crate) fn opened(
    heap: Global,
    request: OpeningRequest,
    reading_places: usize,
) -> Result<Book, Fail> {
    Ok(Book::open(request, sevens(heap, reading_places)?)?)
}

// A list begins with some values, and every later place holds the seven that it held.
pub(crate) fn begins(rt: &impl Abort, at: &str, list: &[u64], values: &[u64]) {
    assert!(rt; list.len() > values.len(), "{at}");
    for (i, value) in list.iter().enumerate() {
        assert_eq!(rt;
            *value,
            values.get(i).copied().unwrap_or(7),
            "{at}: place {i}"
        );
    }
}
