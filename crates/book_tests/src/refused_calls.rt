// Each refusal that a call on an open book can meet.
use super::calls::{
    accepted, account, actual, day, degree_days, enrol, estimate, figure, from_july, gate,
    interval, opened, refused, retailer, serve_table,
};
use super::plain_estimators::Silent;
use book::Answer;
use std::test::Fail;
use terms::Refusal;

// Numbers beyond their limits, dates that do not exist, and dates outside a book of three days and two points.
// The first reason answers where there are several.
#[test]
fn limits_and_dates(rt: HostRuntime) -> Result<(), Fail> {
    let mut book = opened(rt.alloc(), from_july(3, 2), 1)?;
    serve_table(
        &rt,
        "limits and dates",
        &mut book,
        &mut Silent,
        &[
            refused(enrol(0, 1, 20240701), Refusal::BeyondLimits),
            refused(enrol(3, 1, 20240701), Refusal::BeyondLimits),
            refused(enrol(1, 17, 20230229), Refusal::BeyondLimits),
            refused(gate(20240701, 1_000_000_001, 0), Refusal::BeyondLimits),
            refused(gate(20240701, 0, 1_000_000_001), Refusal::BeyondLimits),
            refused(interval(20240701, 33, 0), Refusal::BeyondLimits),
            refused(interval(20240701, 1, 100_000_001), Refusal::BeyondLimits),
            refused(degree_days(20240701, 20_001), Refusal::BeyondLimits),
            refused(
                actual(1, 20240701, 20240702, 10_000_001),
                Refusal::BeyondLimits,
            ),
            refused(actual(3, 20240701, 20240702, -5), Refusal::BeyondLimits),
            refused(figure(3, 20240701), Refusal::BeyondLimits),
            refused(retailer(17, 20240701), Refusal::BeyondLimits),
            refused(enrol(1, 1, 20230229), Refusal::NoSuchDate),
            refused(gate(20240631, 0, 0), Refusal::NoSuchDate),
            refused(interval(20241301, 1, 0), Refusal::NoSuchDate),
            refused(degree_days(20001231, 0), Refusal::NoSuchDate),
            refused(actual(1, 20240630, 20240732, -5), Refusal::NoSuchDate),
            refused(figure(1, 0), Refusal::NoSuchDate),
            refused(day(20240700), Refusal::NoSuchDate),
            refused(retailer(1, 21000101), Refusal::NoSuchDate),
            refused(enrol(1, 1, 20240704), Refusal::OutsideBook),
            refused(gate(20240630, 0, 0), Refusal::OutsideBook),
            refused(interval(20240704, 1, 0), Refusal::OutsideBook),
            refused(degree_days(20240704, 0), Refusal::OutsideBook),
            refused(actual(1, 20240701, 20240705, -5), Refusal::OutsideBook),
            refused(actual(1, 20240704, 20240704, 5), Refusal::OutsideBook),
            refused(figure(1, 20240704), Refusal::OutsideBook),
            refused(day(20240704), Refusal::OutsideBook),
            refused(retailer(1, 20240630), Refusal::OutsideBook),
        ],
    )
}

// The refusals of readings, enrolments and questions, in a book of three days with one place for a reading.
#[test]
fn what_was_told_before(rt: HostRuntime) -> Result<(), Fail> {
    let mut book = opened(rt.alloc(), from_july(3, 2), 1)?;
    serve_table(
        &rt,
        "what was told before",
        &mut book,
        &mut Silent,
        &[
            refused(actual(1, 20240701, 20240703, -5), Refusal::NegativeEnergy),
            refused(
                actual(1, 20240701, 20240703, i64::MIN),
                Refusal::NegativeEnergy,
            ),
            refused(actual(1, 20240701, 20240703, 5), Refusal::PointNotEnrolled),
            refused(figure(1, 20240701), Refusal::PointNotEnrolled),
            accepted(enrol(1, 1, 20240701)),
            refused(enrol(1, 2, 20240702), Refusal::PointEnrolledAlready),
            refused(actual(1, 20240702, 20240703, 5), Refusal::StartIsNoMark),
            refused(actual(1, 20240701, 20240701, 5), Refusal::EndNotAllowed),
            refused(
                actual(1, 20240701, 20240703, 200),
                Refusal::CoveredDayWithoutLoad { date: 20240701 },
            ),
            accepted(gate(20240701, 100, 0)),
            refused(
                actual(1, 20240701, 20240703, 200),
                Refusal::CoveredDayWithoutLoad { date: 20240702 },
            ),
            refused(
                day(20240702),
                Refusal::AskedDayWithoutLoad { date: 20240702 },
            ),
            accepted(gate(20240702, 300, 0)),
            accepted(actual(1, 20240701, 20240703, 200)),
            refused(actual(1, 20240702, 20240703, 5), Refusal::StartIsNoMark),
            refused(actual(1, 20240701, 20240702, 5), Refusal::EndNotAllowed),
            refused(estimate(1, 20240701, 20240703, 5), Refusal::SoftOverFirm),
            refused(
                estimate(1, 20240701, 20240704, 5),
                Refusal::CoveredDayWithoutLoad { date: 20240703 },
            ),
            refused(
                day(20240703),
                Refusal::AskedDayWithoutLoad { date: 20240703 },
            ),
            accepted(gate(20240703, 0, 0)),
            refused(estimate(1, 20240701, 20240704, 5), Refusal::SoftOverFirm),
            refused(actual(1, 20240703, 20240704, 5), Refusal::ReadingPlacesFull),
            (day(20240703), Ok(account([0, 0, 0, 0, 0, 1]))),
            accepted(actual(1, 20240701, 20240704, 401)),
            (figure(1, 20240701), Ok(Answer::Figure(100))),
            (figure(1, 20240702), Ok(Answer::Figure(300))),
            (figure(1, 20240703), Ok(Answer::Figure(1))),
            (day(20240703), Ok(account([0, 1, 0, 0, 1, 0]))),
        ],
    )
}
