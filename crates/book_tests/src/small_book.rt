// A book of two days and two points, from its opening to its end.
use super::calls::{
    accepted, account, actual, begins, day, degree_days, enrol, figure, from_july, gate, interval,
    opened, refused, retailer, serve_table,
};
use book::{Answer, Book, Lists, OpeningRequest, Unopened};
use estimates::{ByWeather, Factors};
use estimators::Estimator;
use rules::Reading;
use std::process::Abort;
use std::test::Fail;
use terms::{ReadingType, Refusal};

// Point 2 uses 30 megajoules on a day whose count is known.
fn weather() -> Result<ByWeather, Fail> {
    let mut weather = ByWeather::new();
    weather.enter_factors(
        2,
        Factors {
            base_load: 30_000,
            sensitivity: 0,
        },
    )?;
    Ok(weather)
}

// The book once it has served all entries.
fn served_book(rt: &(impl Abort + AllocGlobal), weather: &mut ByWeather) -> Result<Book, Fail> {
    let mut book = opened(rt.alloc(), from_july(2, 2), 4)?;
    serve_table(
        rt,
        "entries",
        &mut book,
        weather,
        &[
            accepted(enrol(1, 1, 20240701)),
            accepted(enrol(2, 2, 20240701)),
            accepted(gate(20240701, 100, 0)),
            accepted(gate(20240702, 300, 0)),
            accepted(degree_days(20240701, 500)),
            accepted(degree_days(20240702, 500)),
            accepted(actual(1, 20240701, 20240703, 200)),
            refused(actual(2, 20240702, 20240703, 5), Refusal::StartIsNoMark),
        ],
    )?;
    Ok(book)
}

#[test]
fn figures_of_the_small_book(rt: HostRuntime) -> Result<(), Fail> {
    let mut weather = weather()?;
    let mut book = served_book(&rt, &mut weather)?;
    serve_table(
        &rt,
        "figures",
        &mut book,
        &mut weather,
        &[
            (day(20240701), Ok(account([100, 50, 30, 20, 0, 0]))),
            (day(20240702), Ok(account([300, 150, 30, 120, 0, 0]))),
            (retailer(1, 20240701), Ok(Answer::RetailerSum(50))),
            (retailer(2, 20240701), Ok(Answer::RetailerSum(30))),
            (retailer(1, 20240702), Ok(Answer::RetailerSum(150))),
            (retailer(2, 20240702), Ok(Answer::RetailerSum(30))),
            (retailer(16, 20240702), Ok(Answer::RetailerSum(0))),
            (figure(1, 20240701), Ok(Answer::Figure(50))),
            (figure(2, 20240702), Ok(Answer::Figure(30))),
        ],
    )
}

// Places beyond the book hold what they held before it was opened, also in the lists that come back at its end.
#[test]
fn lists_of_the_small_book(rt: HostRuntime) -> Result<(), Fail> {
    let mut weather = weather()?;
    let mut book = served_book(&rt, &mut weather)?;
    begins(&rt, "sheet", book.sheet(), &[50, 30, 150, 30]);
    begins(&rt, "intervals", book.intervals(), &[0; 64]);
    serve_table(
        &rt,
        "more intervals",
        &mut book,
        &mut weather,
        &[
            accepted(interval(20240701, 1, 20)),
            accepted(interval(20240702, 32, 60)),
        ],
    )?;
    let mut energies = [0; 64];
    energies[0] = 20;
    energies[63] = 60;
    begins(&rt, "intervals", book.intervals(), &energies);
    for reading in book.readings().iter().flatten() {
        assert_eq!(rt;
            (reading.point, reading.start, reading.end, reading.energy),
            (1, 0, 2, 200)
        );
    }
    assert_eq!(rt; book.readings().iter().flatten().count(), 1);
    let lists = book.close();
    begins(
        &rt,
        "sheet at the end",
        lists.sheet.as_slice(),
        &[50, 30, 150, 30],
    );
    begins(
        &rt,
        "intervals at the end",
        lists.intervals.as_slice(),
        &energies,
    );
    assert_eq!(rt; lists.readings.len(), 4);
    Ok(())
}

// Opens a book with lists of these lengths, full of sevens and with a reading in every place. Answers why it
// was refused, and whether the lists came back as they were.
fn refused_opening(
    rt: &(impl Abort + AllocGlobal),
    request: OpeningRequest,
    lengths: (usize, usize, usize),
) -> Result<Refusal, Fail> {
    let heap = rt.alloc();
    let old = Reading {
        point: 1,
        start: 0,
        end: 2,
        energy: 9,
        reading_type: ReadingType::Actual,
    };
    let given = Lists {
        sheet: vec![in heap; 7; lengths.0]?,
        intervals: vec![in heap; 7; lengths.1]?,
        readings: vec![in heap; Some(old); lengths.2]?,
    };
    let Err(Unopened { refusal, lists }) = Book::open(request, given) else {
        return Err(Fail::new("opened"));
    };
    assert_eq!(rt;
        (
            lists.sheet.len(),
            lists.intervals.len(),
            lists.readings.len()
        ),
        lengths
    );
    for value in lists.sheet.iter().chain(lists.intervals.iter()) {
        assert_eq!(rt; *value, 7);
    }
    for place in lists.readings.iter() {
        assert_eq!(rt; *place, Some(old));
    }
    Ok(refusal)
}

#[test]
fn refused_openings(rt: HostRuntime) -> Result<(), Fail> {
    let enough = (6, 64, 1);
    for (i, (first_date, days, points, unaccounted, lengths, due)) in [
        (20240701, 0, 3, 0, enough, Refusal::BeyondLimits),
        (20240701, 401, 3, 0, enough, Refusal::BeyondLimits),
        (20240701, 2, 0, 0, enough, Refusal::BeyondLimits),
        (20240701, 2, 257, 0, enough, Refusal::BeyondLimits),
        (20240701, 2, 3, 2001, enough, Refusal::BeyondLimits),
        (20991230, 2, 3, 0, enough, Refusal::BeyondLimits),
        (20230229, 2, 3, 2001, enough, Refusal::BeyondLimits),
        (20230229, 2, 3, 0, enough, Refusal::NoSuchDate),
        (20001231, 2, 3, 0, (0, 0, 0), Refusal::NoSuchDate),
        (20240701, 2, 3, 0, (5, 64, 1), Refusal::ListTooShort),
        (20240701, 2, 3, 0, (6, 63, 1), Refusal::ListTooShort),
        (20240701, 2, 3, 0, (6, 64, 0), Refusal::ListTooShort),
    ]
    .into_iter()
    .enumerate()
    {
        let request = OpeningRequest {
            first_date,
            days,
            points,
            unaccounted,
        };
        assert_eq!(rt; refused_opening(&rt, request, lengths)?, due, "opening {i}");
    }
    Ok(())
}

// Where there is no room for all answers, no call is served.
#[test]
fn too_few_answers(rt: HostRuntime) -> Result<(), Fail> {
    let mut weather = weather()?;
    let mut book = served_book(&rt, &mut weather)?;
    let mut answers = [Ok(Answer::Figure(1)), Ok(Answer::Figure(2))];
    let calls = [
        gate(20240701, 900, 0),
        degree_days(20240701, 0),
        day(20240701),
    ];
    assert_eq!(rt;
        book.serve(&mut weather, &calls, &mut answers),
        Err(Refusal::ListTooShort)
    );
    assert_eq!(rt; answers, [Ok(Answer::Figure(1)), Ok(Answer::Figure(2))]);
    begins(&rt, "sheet", book.sheet(), &[50, 30, 150, 30]);
    begins(&rt, "intervals", book.intervals(), &[0; 64]);
    assert_eq!(rt; weather.figure(2, 1), Some(30));
    serve_table(
        &rt,
        "asked last",
        &mut book,
        &mut weather,
        &[(day(20240701), Ok(account([100, 50, 30, 20, 0, 0])))],
    )
}
