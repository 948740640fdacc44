// What a count makes of three sample points.
use super::answer::Answer;
use estimates::{ByWeather, Factors, HotWater, Usage};
use estimators::{Cap, FallBack, Weather};
use terms::Refusal;

const FACTORS: Factors = Factors {
    base_load: 12_500,
    sensitivity: 3_000,
};

const USAGE: Usage = Usage {
    litres: 9_000,
    days: 90,
    read_in: 9,
    heat: 400,
};

// In megajoules a day.
const FLOW: u64 = 40;

// A weather estimate that falls back on hot water, with a cap over both.
type SampleEstimator = Cap<FallBack<ByWeather, HotWater>>;

/// What points 1 to 3 are given on a day, or none.
pub type Samples = [Option<Answer>; 3];

/// What the three sample points are given on a date, given by its eight digits, before and after a degree-day count,
/// in hundredths, is entered for it. `NoSuchDate` (4) where there is no such date, `BeyondLimits` (3) for a count
/// above `GREATEST_COUNT`.
pub fn before_and_after(date: u32, count: u32) -> Result<(Samples, Samples), Refusal> {
    let mut estimator = sample_estimator(date)?;
    let before = samples(&estimator);
    estimator.enter(1, count)?;
    Ok((before, samples(&estimator)))
}

fn samples(estimator: &SampleEstimator) -> Samples {
    [1, 2, 3].map(|point| Answer::of(estimator, point, 1))
}

// Point 1 has factors, point 2 factors, hot water and a greatest daily flow, point 3 hot water.
fn sample_estimator(date: u32) -> Result<SampleEstimator, Refusal> {
    let mut second = HotWater::new(date)?;
    second.enter_usage(2, USAGE)?;
    second.enter_usage(3, USAGE)?;
    let mut first = ByWeather::new();
    first.enter_factors(1, FACTORS)?;
    first.enter_factors(2, FACTORS)?;
    let mut estimator = Cap::over(FallBack { first, second });
    estimator.enter_flow(2, FLOW)?;
    Ok(estimator)
}
