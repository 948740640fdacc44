// Estimates by weather at the edges of their limits, and with factors and counts in every order.
use super::checks::{check_figures, check_figures_under, check_refused, check_weather_refused};
use super::orders::{ORDERS, in_order};
use estimates::{ByWeather, Factors};
use estimators::Weather;
use std::test::Fail;
use terms::Refusal;

pub(crate) const HOUSE: Factors = Factors {
    base_load: 12_500,
    sensitivity: 3_000,
};

// 300,000 megajoules on the coldest day.
const LARGEST: Factors = Factors {
    base_load: 100_000_000,
    sensitivity: 1_000_000,
};

const BEYOND: [(u32, Factors); 4] = [
    (0, HOUSE),
    (257, HOUSE),
    (
        1,
        Factors {
            base_load: 100_000_001,
            sensitivity: 0,
        },
    ),
    (
        1,
        Factors {
            base_load: 0,
            sensitivity: 1_000_001,
        },
    ),
];

// Factors of points 1 and 256.
fn with_factors(first: Factors, last: Factors) -> Result<ByWeather, Fail> {
    let mut weather = ByWeather::new();
    weather.enter_factors(1, first)?;
    weather.enter_factors(256, last)?;
    Ok(weather)
}

// 12.5 megajoules and no weather are 13; a point without factors has none, and so has anything beyond a limit.
#[test]
fn figures_under_counts() -> Result<(), Fail> {
    check_figures_under(
        &with_factors(HOUSE, LARGEST)?,
        &[
            (1, 1, 1_094, Some(45)),
            (1, 1, 0, Some(13)),
            (2, 1, 1_094, None),
            (256, 400, 0, Some(100_000)),
            (256, 400, 20_000, Some(300_000)),
            (256, 400, 20_001, None),
            (257, 400, 0, None),
            (0, 400, 0, None),
            (256, 401, 0, None),
            (256, 0, 0, None),
        ],
    )
}

// A later count replaces the earlier, other days stand, and a refused count leaves what was there.
#[test]
fn weather_enters_one_day() -> Result<(), Fail> {
    let mut weather = with_factors(HOUSE, LARGEST)?;
    check_figures(&weather, &[(1, 400, None)])?;
    weather.enter(400, 1_094)?;
    weather.enter(400, 20_000)?;
    check_weather_refused(
        &mut weather,
        &[(400, 20_001), (401, 0), (0, 0), (400, u32::MAX)],
    )?;
    check_figures(
        &weather,
        &[
            (1, 400, Some(613)),
            (256, 400, Some(300_000)),
            (1, 399, None),
            (2, 400, None),
            (257, 400, None),
            (1, 401, None),
        ],
    )
}

// Later factors replace those of their point alone, and refused ones leave what was there.
#[test]
fn factors_are_entered_for_one_point() -> Result<(), Fail> {
    let mut weather = with_factors(HOUSE, HOUSE)?;
    weather.enter_factors(256, LARGEST)?;
    for (point, factors) in BEYOND {
        check_refused(weather.enter_factors(point, factors))?;
    }
    check_figures_under(
        &weather,
        &[(1, 1, 1_094, Some(45)), (256, 1, 20_000, Some(300_000))],
    )
}

#[test]
fn no_sensitivity_still_wants_weather() -> Result<(), Fail> {
    let steady = Factors {
        base_load: 30_000,
        sensitivity: 0,
    };
    let mut weather = with_factors(steady, steady)?;
    check_figures(&weather, &[(1, 1, None)])?;
    weather.enter(1, 0)?;
    check_figures(&weather, &[(1, 1, Some(30))])
}

// What is entered for a point or for a day.
#[derive(Clone, Copy)]
enum Entry {
    Factors(u32, Factors),
    Count(u32, u32),
}

const ENTRIES: [Entry; 4] = [
    Entry::Factors(1, HOUSE),
    Entry::Factors(256, LARGEST),
    Entry::Count(1, 1_094),
    Entry::Count(400, 20_000),
];

impl Entry {
    fn enter_into(self, weather: &mut ByWeather) -> Result<(), Refusal> {
        match self {
            Entry::Factors(point, factors) => weather.enter_factors(point, factors),
            Entry::Count(place, count) => weather.enter(place, count),
        }
    }
}

// Counts before any factors, factors before any count, and every order between.
#[test]
fn factors_and_counts_in_every_order() -> Result<(), Fail> {
    for order in 0..ORDERS {
        let mut weather = ByWeather::new();
        for entry in in_order(ENTRIES, order) {
            entry.enter_into(&mut weather)?;
        }
        check_figures(
            &weather,
            &[
                // (100 x 12,500 + 3,000 x 1,094 + 50,000) / 100,000 = 45.82
                (1, 1, Some(45)),
                // (100 x 12,500 + 3,000 x 20,000 + 50,000) / 100,000 = 613
                (1, 400, Some(613)),
                // (100 x 100,000,000 + 1,000,000 x 1,094 + 50,000) / 100,000 = 110,940.5
                (256, 1, Some(110_940)),
                // (100 x 100,000,000 + 1,000,000 x 20,000 + 50,000) / 100,000 = 300,000.5
                (256, 400, Some(300_000)),
                // No factors, and no count.
                (2, 1, None),
                (1, 2, None),
            ],
        )?;
    }
    Ok(())
}

// Days with a count have figures by the factors that come, and by those that replace them.
#[test]
fn factors_replaced_after_counts() -> Result<(), Fail> {
    let mut weather = ByWeather::new();
    weather.enter(1, 1_094)?;
    weather.enter(2, 0)?;
    // No factors.
    check_figures(&weather, &[(1, 1, None), (1, 2, None)])?;
    weather.enter_factors(1, HOUSE)?;
    check_figures(
        &weather,
        &[
            // (100 x 12,500 + 3,000 x 1,094 + 50,000) / 100,000 = 45.82
            (1, 1, Some(45)),
            // (100 x 12,500 + 3,000 x 0 + 50,000) / 100,000 = 13
            (1, 2, Some(13)),
        ],
    )?;
    let larger = Factors {
        base_load: 20_000,
        sensitivity: 5_000,
    };
    weather.enter_factors(1, larger)?;
    weather.enter(3, 1_000)?;
    check_figures(
        &weather,
        &[
            // (100 x 20,000 + 5,000 x 1,094 + 50,000) / 100,000 = 75.2
            (1, 1, Some(75)),
            // (100 x 20,000 + 5,000 x 0 + 50,000) / 100,000 = 20.5
            (1, 2, Some(20)),
            // (100 x 20,000 + 5,000 x 1,000 + 50,000) / 100,000 = 70.5
            (1, 3, Some(70)),
        ],
    )
}
