// A book beside an estimator that knows nothing, and beside one that always takes the greatest figure.
use super::calls::{
    accepted, account, actual, day, degree_days, enrol, figure, from_july, gate, opened, retailer,
    serve_table,
};
use super::plain_estimators::{Greatest, Silent};
use book::Answer;
use estimators::{Estimator, Weather};
use std::test::Fail;
use terms::Refusal;

// Every estimated point is missing, and what is not supplied is the remainder.
#[test]
fn beside_a_silent_estimator(rt: HostRuntime) -> Result<(), Fail> {
    let mut book = opened(rt.alloc(), from_july(2, 3), 4)?;
    serve_table(
        &rt,
        "beside the silent one",
        &mut book,
        &mut Silent,
        &[
            accepted(gate(20240701, 300, 0)),
            (day(20240701), Ok(account([300, 0, 0, 300, 0, 0]))),
            accepted(enrol(1, 1, 20240701)),
            accepted(enrol(2, 2, 20240701)),
            accepted(enrol(3, 2, 20240702)),
            (day(20240701), Ok(account([300, 0, 0, 300, 0, 2]))),
            accepted(degree_days(20240701, 500)),
            accepted(actual(1, 20240701, 20240702, 120)),
            (day(20240701), Ok(account([300, 120, 0, 180, 0, 1]))),
            (figure(1, 20240701), Ok(Answer::Figure(120))),
            (figure(2, 20240701), Ok(Answer::Figure(0))),
            (retailer(1, 20240701), Ok(Answer::RetailerSum(120))),
            (retailer(2, 20240701), Ok(Answer::RetailerSum(0))),
            accepted(actual(2, 20240701, 20240702, 200)),
            (day(20240701), Ok(account([300, 320, 0, 0, 20, 0]))),
            accepted(gate(20240702, 50, 0)),
            (day(20240702), Ok(account([50, 0, 0, 50, 0, 3]))),
        ],
    )
}

// Estimates are scaled down to what a load leaves, and stand where it leaves more or where there is none.
#[test]
fn beside_the_greatest_estimator(rt: HostRuntime) -> Result<(), Fail> {
    let mut book = opened(rt.alloc(), from_july(2, 3), 4)?;
    serve_table(
        &rt,
        "beside the greatest one",
        &mut book,
        &mut Greatest,
        &[
            accepted(enrol(1, 1, 20240701)),
            accepted(enrol(2, 2, 20240701)),
            accepted(enrol(3, 2, 20240701)),
            (figure(3, 20240701), Ok(Answer::Figure(1_000_000))),
            accepted(gate(20240701, 301, 0)),
            (day(20240701), Ok(account([301, 0, 301, 0, 0, 0]))),
            (figure(1, 20240701), Ok(Answer::Figure(100))),
            (figure(2, 20240701), Ok(Answer::Figure(100))),
            (figure(3, 20240701), Ok(Answer::Figure(101))),
            accepted(degree_days(20240701, 500)),
            accepted(actual(2, 20240701, 20240702, 120)),
            (day(20240701), Ok(account([301, 120, 181, 0, 0, 0]))),
            (figure(1, 20240701), Ok(Answer::Figure(90))),
            (figure(3, 20240701), Ok(Answer::Figure(91))),
            (retailer(2, 20240701), Ok(Answer::RetailerSum(211))),
            accepted(actual(2, 20240701, 20240702, 400)),
            (day(20240701), Ok(account([301, 400, 0, 0, 99, 0]))),
            (figure(1, 20240701), Ok(Answer::Figure(0))),
            accepted(gate(20240701, 5_000_000, 0)),
            (
                day(20240701),
                Ok(account([5_000_000, 400, 2_000_000, 2_999_600, 0, 0])),
            ),
            (figure(1, 20240702), Ok(Answer::Figure(1_000_000))),
            (retailer(2, 20240702), Ok(Answer::RetailerSum(2_000_000))),
        ],
    )
}

// Both answer within the same ranges and refuse the same weather.
#[test]
fn edges_of_the_plain_estimators(rt: HostRuntime) -> Result<(), Fail> {
    let most = Some(1_000_000);
    for (point, day, count, due) in [
        (1, 1, 0, most),
        (256, 400, 20_000, most),
        (0, 1, 0, None),
        (257, 1, 0, None),
        (1, 0, 0, None),
        (1, 401, 0, None),
    ] {
        assert_eq!(rt; Greatest.figure(point, day), due);
        assert_eq!(rt; Greatest.figure_under(point, day, count), due);
        assert_eq!(rt; Silent.figure(point, day), None);
        assert_eq!(rt; Silent.figure_under(point, day, count), None);
    }
    assert_eq!(rt; Greatest.figure_under(1, 1, 20_001), None);
    for (day, count) in [(0, 0), (401, 0), (1, 20_001)] {
        assert_eq!(rt; Greatest.enter(day, count), Err(Refusal::BeyondLimits));
        assert_eq!(rt; Silent.enter(day, count), Err(Refusal::BeyondLimits));
    }
    assert!(rt; Greatest.enter(400, 20_000).is_ok() && Silent.enter(1, 0).is_ok());
    Ok(())
}
