// Degree days at the edges of their limits, and at figures reckoned by hand.
use estimates::{DegreeDayTerms, Observations};
use std::process::Abort;
use terms::Refusal;

// A day of one temperature and one wind throughout.
fn steady(temperature: i32, wind: u32, sunshine: u32) -> Observations {
    Observations {
        temperatures: [temperature; 8],
        winds: [wind; 16],
        sunshine,
    }
}

// The count of these observations on a day of the year is this.
fn check_count(rt: &impl Abort, day: Observations, day_of_year: u32, count: u32) {
    assert_eq!(rt; day.degree_days(day_of_year), Ok(count));
}

// These observations on a day of the year are beyond their limits.
fn check_refused(rt: &impl Abort, day: Observations, day_of_year: u32) {
    assert_eq!(rt; day.degree_days(day_of_year), Err(Refusal::BeyondLimits));
    assert_eq!(rt; day.terms(day_of_year), Err(Refusal::BeyondLimits));
}

#[test]
fn a_cold_day_at_midwinter(rt: HostRuntime) {
    let day = steady(100, 10, 50);
    check_count(&rt, day, 200, 1_094);
    let terms = DegreeDayTerms {
        temperature: 1_280_000_000,
        wind_chill: 293_785_600,
        sunshine: 144_000_000,
        season: 320_000_000,
    };
    assert_eq!(rt; day.terms(200), Ok(terms));
}

#[test]
fn warm_days(rt: HostRuntime) {
    check_count(&rt, steady(250, 10, 50), 17, 0);
    check_count(&rt, steady(180, 0, 0), 200, 200);
    let nearly = steady(180, 0, 111).degree_days(200);
    assert_eq!(rt; nearly, Ok(0), "199.8 of 200");
}

#[test]
fn halves_go_up(rt: HostRuntime) {
    let mut day = steady(180, 0, 0);
    day.temperatures[0] = 178;
    assert_eq!(rt; day.degree_days(200), Ok(203), "202.5");
}

#[test]
fn the_coldest_day_of_all(rt: HostRuntime) {
    check_count(&rt, steady(-200, 100, 0), 200, 12_722);
}

#[test]
fn limits(rt: HostRuntime) {
    check_count(&rt, steady(500, 0, 160), 1, 0);
    check_count(&rt, steady(-200, 100, 0), 366, 12_330);
    check_refused(&rt, steady(501, 0, 0), 1);
    check_refused(&rt, steady(-201, 0, 0), 1);
    check_refused(&rt, steady(0, 101, 0), 1);
    check_refused(&rt, steady(0, 0, 161), 1);
    check_refused(&rt, steady(0, 0, 0), 0);
    check_refused(&rt, steady(0, 0, 0), 367);
}

// The leap day is day 60, and the last of a leap year is day 366.
#[test]
fn the_season_through_a_leap_year(rt: HostRuntime) {
    check_count(&rt, steady(0, 0, 0), 60, 1_651);
    check_count(&rt, steady(0, 0, 0), 365, 1_609);
    check_count(&rt, steady(0, 0, 0), 366, 1_608);
    check_count(&rt, steady(0, 0, 0), 1, 1_608);
}
