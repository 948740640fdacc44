// A book that is opened and serves its calls in one.
use super::calls::{account, actual, begins, day, degree_days, enrol, from_july, gate, sevens};
use super::plain_estimators::Silent;
use book::{Answer, Book, Served, Unopened};
use estimates::{ByWeather, Factors};
use estimators::Estimator;
use std::test::Fail;
use terms::Refusal;

// What a place for an answer holds that no call has.
const UNANSWERED: Result<Answer, Refusal> = Ok(Answer::Figure(7));

// The answers lie in the order of the calls, and the place beyond them stays.
#[test]
fn opened_and_served(rt: HostRuntime) -> Result<(), Fail> {
    let calls = [
        enrol(1, 1, 20240701),
        gate(20240701, 300, 0),
        gate(20240702, 100, 0),
        actual(1, 20240701, 20240703, 200),
        day(20240701),
        gate(20240703, 1, 0),
    ];
    let mut answers = [UNANSWERED; 7];
    let Served { book, outcome } = Book::open_and_serve(
        from_july(2, 2),
        sevens(rt.alloc(), 1)?,
        &mut Silent,
        &calls,
        &mut answers,
    )?;
    assert_eq!(rt; outcome, Ok(()));
    let due = [
        Ok(Answer::Accepted),
        Ok(Answer::Accepted),
        Ok(Answer::Accepted),
        Ok(Answer::Accepted),
        Ok(account([300, 150, 0, 150, 0, 0])),
        Err(Refusal::OutsideBook),
        UNANSWERED,
    ];
    for (given, due) in answers.iter().zip(due.iter()) {
        assert_eq!(rt; *given, *due);
    }
    begins(&rt, "sheet", book.sheet(), &[150, 0, 50, 0]);
    Ok(())
}

// Nothing is served, and lists, estimator and answers are as they were.
#[test]
fn refused_opening_serves_nothing(rt: HostRuntime) -> Result<(), Fail> {
    let mut weather = ByWeather::new();
    weather.enter_factors(
        1,
        Factors {
            base_load: 30_000,
            sensitivity: 0,
        },
    )?;
    let mut answers = [UNANSWERED; 1];
    let Err(Unopened { refusal, lists }) = Book::open_and_serve(
        from_july(401, 2),
        sevens(rt.alloc(), 3)?,
        &mut weather,
        &[degree_days(20240701, 500)],
        &mut answers,
    ) else {
        return Err(Fail::new("opened"));
    };
    assert_eq!(rt; refusal, Refusal::BeyondLimits);
    begins(&rt, "sheet", lists.sheet.as_slice(), &[]);
    begins(&rt, "intervals", lists.intervals.as_slice(), &[]);
    assert_eq!(rt; lists.readings.len(), 3);
    assert_eq!(rt; answers[0], UNANSWERED);
    assert_eq!(rt; weather.figure(1, 1), None);
    Ok(())
}

// Where there is no room for all answers the book is open, and no call is served.
#[test]
fn opened_without_room_for_the_answers(rt: HostRuntime) -> Result<(), Fail> {
    let mut answers = [UNANSWERED; 1];
    let Served { book, outcome } = Book::open_and_serve(
        from_july(2, 2),
        sevens(rt.alloc(), 1)?,
        &mut Silent,
        &[enrol(1, 1, 20240701), gate(20240701, 300, 0)],
        &mut answers,
    )?;
    assert_eq!(rt; outcome, Err(Refusal::ListTooShort));
    assert_eq!(rt; answers[0], UNANSWERED);
    assert_eq!(rt;
        book.ask_figure(1, 20240701),
        Err(Refusal::PointNotEnrolled)
    );
    begins(&rt, "sheet", book.sheet(), &[0; 4]);
    Ok(())
}
