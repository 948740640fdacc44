// Caps and fall-backs, alone and in layers.
use super::by_weather::HOUSE;
use super::checks::{check_figures, check_figures_under, check_refused, check_weather_refused};
use super::hot_water::FLAT;
use super::orders::{ORDERS, in_order};
use estimates::{ByWeather, HotWater};
use estimators::{Cap, FallBack, Weather};
use std::test::Fail;

type Pair = FallBack<ByWeather, HotWater>;

// Points 1 and 2 have factors, points 2 and 3 hot water, in a book that begins in January.
fn pair() -> Result<Pair, Fail> {
    let mut first = ByWeather::new();
    first.enter_factors(1, HOUSE)?;
    first.enter_factors(2, HOUSE)?;
    let mut second = HotWater::new(20240115)?;
    second.enter_usage(2, FLAT)?;
    second.enter_usage(3, FLAT)?;
    Ok(FallBack { first, second })
}

// Other days stand where a count is entered.
#[test]
fn a_fall_back() -> Result<(), Fail> {
    let mut estimator = pair()?;
    check_figures(
        &estimator,
        &[
            (1, 1, None),
            (2, 1, Some(20)),
            (3, 1, Some(20)),
            (4, 1, None),
        ],
    )?;
    check_figures_under(
        &estimator,
        &[
            (2, 1, 1_094, Some(45)),
            (3, 1, 1_094, Some(20)),
            (3, 1, 20_001, None),
        ],
    )?;
    estimator.enter(1, 1_094)?;
    check_figures(
        &estimator,
        &[
            (1, 1, Some(45)),
            (2, 1, Some(45)),
            (3, 1, Some(20)),
            (4, 1, None),
            (2, 2, Some(20)),
        ],
    )
}

// None remains none, a flow of 0 gives 0, and refusals leave what was there.
#[test]
fn a_cap() -> Result<(), Fail> {
    let mut estimator = Cap::over(pair()?);
    for (point, flow) in [(1, 0), (2, 30), (4, 1_000_000), (256, 1)] {
        estimator.enter_flow(point, flow)?;
    }
    for (point, flow) in [(3, 1_000_001), (257, 1), (0, 1)] {
        check_refused(estimator.enter_flow(point, flow))?;
    }
    check_figures(
        &estimator,
        &[
            (1, 1, None),
            (2, 1, Some(20)),
            (3, 1, Some(20)),
            (4, 1, None),
        ],
    )?;
    estimator.enter(1, 1_094)?;
    check_weather_refused(&mut estimator, &[(401, 1), (1, 20_001)])?;
    check_figures(
        &estimator,
        &[
            (1, 1, Some(0)),
            (2, 1, Some(30)),
            (3, 1, Some(20)),
            (4, 1, None),
        ],
    )?;
    check_figures_under(
        &estimator,
        &[(2, 1, 20_000, Some(30)), (2, 1, 20_001, None)],
    )
}

// Weather goes down to every estimator of many layers.
#[test]
fn layers_of_layers() -> Result<(), Fail> {
    let mut upper = Cap::over(pair()?);
    upper.enter_flow(1, 40)?;
    let mut last = ByWeather::new();
    last.enter_factors(4, HOUSE)?;
    let mut deep = Cap::over(FallBack {
        first: upper,
        second: Cap::over(Cap::over(last)),
    });
    deep.enter_flow(3, 10)?;
    check_figures(
        &deep,
        &[
            (1, 1, None),
            (2, 1, Some(20)),
            (3, 1, Some(10)),
            (4, 1, None),
        ],
    )?;
    deep.enter(1, 1_094)?;
    check_figures(
        &deep,
        &[
            (1, 1, Some(40)),
            (2, 1, Some(45)),
            (3, 1, Some(10)),
            (4, 1, Some(45)),
            (4, 2, None),
        ],
    )
}

// A count for each day of the book.
#[test]
fn flows_stand_where_weather_is_entered() -> Result<(), Fail> {
    let mut estimator = Cap::over(ByWeather::new());
    for (point, flow) in [(1, 40), (2, 60), (256, 0)] {
        estimator.enter_flow(point, flow)?;
    }
    for place in 1..=400 {
        estimator.enter(place, 1_094)?;
    }
    estimator.enter(256, 20_000)?;
    for point in [1, 2, 3, 256] {
        estimator.below.enter_factors(point, HOUSE)?;
    }
    check_figures(
        &estimator,
        &[
            // (100 x 12,500 + 3,000 x 1,094 + 50,000) / 100,000 = 45.82; at most 40, 60, anything and 0
            (1, 1, Some(40)),
            (2, 1, Some(45)),
            (3, 1, Some(45)),
            (256, 1, Some(0)),
            (1, 400, Some(40)),
            // (100 x 12,500 + 3,000 x 20,000 + 50,000) / 100,000 = 613; at most 40, 60, anything and 0
            (1, 256, Some(40)),
            (2, 256, Some(60)),
            (3, 256, Some(613)),
            (256, 256, Some(0)),
        ],
    )
}

// What is entered in a cap over a fall-back.
#[derive(Clone, Copy)]
enum Entries {
    Flows,
    Factors,
    Usages,
    Counts,
}

const ALL_ENTRIES: [Entries; 4] = [
    Entries::Flows,
    Entries::Factors,
    Entries::Usages,
    Entries::Counts,
];

impl Entries {
    // Points 1, 3 and 4 have a flow, points 1 and 2 factors, points 2 and 3 hot water, and days 1 and 3 a count.
    fn enter_into(self, estimator: &mut Cap<Pair>) -> Result<(), Fail> {
        match self {
            Entries::Flows => {
                for (point, flow) in [(1, 40), (3, 25), (4, 10)] {
                    estimator.enter_flow(point, flow)?;
                }
            }
            Entries::Factors => {
                for point in [1, 2] {
                    estimator.below.first.enter_factors(point, HOUSE)?;
                }
            }
            Entries::Usages => {
                for point in [2, 3] {
                    estimator.below.second.enter_usage(point, FLAT)?;
                }
            }
            Entries::Counts => {
                estimator.enter(1, 1_094)?;
                estimator.enter(3, 0)?;
            }
        }
        Ok(())
    }
}

// On 31 May, 1 and 2 June and 1 August. Of the hot water, read in September, p is 3.
const CAPPED_FIGURES: [(u32, u32, Option<u64>); 14] = [
    // (100 x 12,500 + 3,000 x 1,094 + 50,000) / 100,000 = 45.82; at most 40, or anything
    (1, 1, Some(40)),
    (2, 1, Some(45)),
    // 9,000 x 400 x 3 x 2 / (12,000 x 90) = 20; at most 25
    (3, 1, Some(20)),
    (4, 1, None),
    // Without a count: 9,000 x 400 x 3 x 3 / (12,000 x 90) = 30; at most anything, or 25
    (1, 2, None),
    (2, 2, Some(30)),
    (3, 2, Some(25)),
    // (100 x 12,500 + 3,000 x 0 + 50,000) / 100,000 = 13; at most 40, or anything
    (1, 3, Some(13)),
    (2, 3, Some(13)),
    // 9,000 x 400 x 3 x 3 / (12,000 x 90) = 30; at most 25
    (3, 3, Some(25)),
    // Without a count: 9,000 x 400 x 3 x 4 / (12,000 x 90) = 40; at most anything, or 25
    (1, 63, None),
    (2, 63, Some(40)),
    (3, 63, Some(25)),
    (4, 63, None),
];

#[test]
fn a_cap_over_a_fall_back_in_every_order() -> Result<(), Fail> {
    for order in 0..ORDERS {
        let mut estimator = Cap::over(FallBack {
            first: ByWeather::new(),
            second: HotWater::new(20240531)?,
        });
        for entries in in_order(ALL_ENTRIES, order) {
            entries.enter_into(&mut estimator)?;
        }
        check_figures(&estimator, &CAPPED_FIGURES)?;
    }
    Ok(())
}
