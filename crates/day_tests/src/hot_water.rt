// Estimates by hot water at the edges of their limits, and with weather entered first.
use super::checks::{check_figures, check_figures_under, check_refused, check_weather_refused};
use estimates::{HotWater, Usage};
use estimators::Weather;
use std::test::Fail;
use terms::Refusal;

pub(crate) const FLAT: Usage = Usage {
    litres: 9_000,
    days: 90,
    read_in: 9,
    heat: 400,
};

// Of a half in the warm season, and a quarter between.
const WITH_HALVES: Usage = Usage {
    litres: 3_000,
    days: 80,
    read_in: 10,
    heat: 400,
};

// A million megajoules on a day of the cold season.
const LARGEST: Usage = Usage {
    litres: 500_000,
    days: 1,
    read_in: 1,
    heat: 1_000,
};

// Hot water of one point in a book that begins on a date.
fn heated(first_date: u32, point: u32, usage: Usage) -> Result<HotWater, Fail> {
    let mut hot_water = HotWater::new(first_date)?;
    hot_water.enter_usage(point, usage)?;
    Ok(hot_water)
}

// The figure is the same under every count, and without weather.
#[test]
fn last_read_in_september_for_a_day_in_january() -> Result<(), Fail> {
    let mut hot_water = heated(20240115, 3, FLAT)?;
    check_figures(&hot_water, &[(3, 1, Some(20)), (2, 1, None)])?;
    hot_water.enter(1, 1_094)?;
    check_figures(&hot_water, &[(3, 1, Some(20)), (2, 1, None)])?;
    check_figures_under(
        &hot_water,
        &[
            (3, 1, 0, Some(20)),
            (3, 1, 20_000, Some(20)),
            (3, 1, 20_001, None),
        ],
    )
}

// 31 May, 1 June, 31 July, 1 August, 31 October, 1 November, 31 December and 1 January.
#[test]
fn the_seasons_of_a_year() -> Result<(), Fail> {
    check_figures(
        &heated(20240531, 1, FLAT)?,
        &[
            (1, 1, Some(20)),
            (1, 2, Some(30)),
            (1, 62, Some(30)),
            (1, 63, Some(40)),
            (1, 154, Some(40)),
            (1, 155, Some(30)),
            (1, 215, Some(30)),
            (1, 216, Some(20)),
        ],
    )
}

// Read from May to December, for a day in January.
#[test]
fn the_seasons_of_a_reading() -> Result<(), Fail> {
    for (read_in, figure) in [
        (5, 40),
        (6, 27),
        (7, 27),
        (8, 20),
        (10, 20),
        (11, 27),
        (12, 27),
    ] {
        let usage = Usage { read_in, ..FLAT };
        check_figures(&heated(20240115, 1, usage)?, &[(1, 1, Some(figure))])?;
    }
    Ok(())
}

// A leap day more puts 1 June on day 94 from 29 February, and on day 93 from 1 March.
#[test]
fn over_a_leap_day(rt: HostRuntime) -> Result<(), Fail> {
    assert!(rt; matches!(HotWater::new(20230229), Err(Refusal::NoSuchDate)));
    check_figures(
        &heated(20240229, 1, FLAT)?,
        &[(1, 1, Some(20)), (1, 93, Some(20)), (1, 94, Some(30))],
    )?;
    check_figures(
        &heated(20230228, 1, FLAT)?,
        &[(1, 93, Some(20)), (1, 94, Some(30))],
    )
}

#[test]
fn the_end_of_2099(rt: HostRuntime) -> Result<(), Fail> {
    assert!(rt; matches!(HotWater::new(21000101), Err(Refusal::NoSuchDate)));
    let hot_water = heated(20991201, 1, FLAT)?;
    check_figures(&hot_water, &[(1, 31, Some(30)), (1, 32, None)])?;
    check_figures_under(&hot_water, &[(1, 31, 0, Some(30)), (1, 32, 0, None)])?;
    check_figures(
        &heated(20991231, 1, FLAT)?,
        &[(1, 1, Some(30)), (1, 2, None), (1, 400, None)],
    )
}

// Day 400 is 4 September 2025.
#[test]
fn points_days_and_counts_at_their_limits() -> Result<(), Fail> {
    let mut hot_water = heated(20240801, 256, LARGEST)?;
    check_figures(
        &hot_water,
        &[
            (256, 1, Some(1_000_000)),
            (257, 1, None),
            (0, 1, None),
            (256, 400, Some(1_000_000)),
            (256, 401, None),
            (256, 0, None),
        ],
    )?;
    check_refused(hot_water.enter_usage(257, FLAT))?;
    hot_water.enter(400, 20_000)?;
    check_weather_refused(&mut hot_water, &[(401, 0), (400, 20_001)])
}

// Refused hot water leaves what was there; 0 is a figure.
#[test]
fn usage_at_its_limits() -> Result<(), Fail> {
    let mut hot_water = heated(20240801, 1, LARGEST)?;
    for usage in [
        Usage {
            litres: 500_001,
            ..FLAT
        },
        Usage { days: 0, ..FLAT },
        Usage { days: 401, ..FLAT },
        Usage { read_in: 0, ..FLAT },
        Usage {
            read_in: 13,
            ..FLAT
        },
        Usage {
            heat: 1_001,
            ..FLAT
        },
    ] {
        check_refused(hot_water.enter_usage(1, usage))?;
    }
    check_figures(&hot_water, &[(1, 1, Some(1_000_000))])?;
    let least = Usage {
        litres: 0,
        days: 400,
        read_in: 12,
        heat: 0,
    };
    hot_water.enter_usage(1, least)?;
    check_figures(&hot_water, &[(1, 1, Some(0))])
}

// Counts for 31 May, 1 June and 1 August 2024 and 4 July 2025.
fn enter_counts(hot_water: &mut HotWater) -> Result<(), Fail> {
    for (place, count) in [(1, 0), (2, 1_094), (63, 20_000), (400, 1)] {
        hot_water.enter(place, count)?;
    }
    check_weather_refused(hot_water, &[(0, 0), (401, 0), (1, 20_001)])
}

// The figures of point 1 on these days. Read in September, p is 3.
const FLAT_FIGURES: [(u32, u32, Option<u64>); 4] = [
    // 9,000 x 400 x 3 x 2 / (12,000 x 90) = 20
    (1, 1, Some(20)),
    // 9,000 x 400 x 3 x 3 / (12,000 x 90) = 30
    (1, 2, Some(30)),
    // 9,000 x 400 x 3 x 4 / (12,000 x 90) = 40
    (1, 63, Some(40)),
    // 9,000 x 400 x 3 x 3 / (12,000 x 90) = 30
    (1, 400, Some(30)),
];

// The figures of point 2 on these days. Read in October, p is 3.
const FIGURES_WITH_HALVES: [(u32, u32, Option<u64>); 4] = [
    // 3,000 x 400 x 3 x 2 / (12,000 x 80) = 7.5
    (2, 1, Some(8)),
    // 3,000 x 400 x 3 x 3 / (12,000 x 80) = 11.25
    (2, 2, Some(11)),
    // 3,000 x 400 x 3 x 4 / (12,000 x 80) = 15
    (2, 63, Some(15)),
    // 3,000 x 400 x 3 x 3 / (12,000 x 80) = 11.25
    (2, 400, Some(11)),
];

// Weather leaves the first day as it was, and all hot water that was entered before or is entered later.
#[test]
fn usage_entered_after_weather() -> Result<(), Fail> {
    let mut hot_water = HotWater::new(20240531)?;
    enter_counts(&mut hot_water)?;
    // No hot water.
    check_figures(&hot_water, &[(1, 1, None), (2, 63, None)])?;
    hot_water.enter_usage(1, FLAT)?;
    check_figures(&hot_water, &FLAT_FIGURES)?;
    enter_counts(&mut hot_water)?;
    hot_water.enter_usage(2, WITH_HALVES)?;
    check_figures(&hot_water, &FLAT_FIGURES)?;
    check_figures(&hot_water, &FIGURES_WITH_HALVES)
}
