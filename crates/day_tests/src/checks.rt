// Checks of what an estimator answers.
use estimators::{Estimator, Weather};
use std::test::Fail;
use terms::Refusal;

// The figures of points at day places.
pub(crate) fn check_figures<E: Estimator>(
    estimator: &E,
    cases: &[(u32, u32, Option<u64>)],
) -> Result<(), Fail> {
    for &(point, place, figure) in cases {
        let given = estimator.figure(point, place);
        if given != figure {
            return Err(Fail::new(format_args!(
                "point {point} at day place {place}: {given:?} and not {figure:?}"
            )));
        }
    }
    Ok(())
}

// The figures of points at day places under counts.
pub(crate) fn check_figures_under<E: Weather>(
    estimator: &E,
    cases: &[(u32, u32, u32, Option<u64>)],
) -> Result<(), Fail> {
    for &(point, place, count, figure) in cases {
        let given = estimator.figure_under(point, place, count);
        if given != figure {
            return Err(Fail::new(format_args!(
                "point {point} at day place {place} under {count}: {given:?} and not {figure:?}"
            )));
        }
    }
    Ok(())
}

// Counts for day places that are refused as beyond a limit.
pub(crate) fn check_weather_refused<E: Weather>(
    estimator: &mut E,
    cases: &[(u32, u32)],
) -> Result<(), Fail> {
    for &(place, count) in cases {
        check_refused(estimator.enter(place, count))?;
    }
    Ok(())
}

// An entry that is refused as beyond a limit.
pub(crate) fn check_refused(entry: Result<(), Refusal>) -> Result<(), Fail> {
    if entry != Err(Refusal::BeyondLimits) {
        return Err(Fail::new(format_args!("to be beyond limits: {entry:?}")));
    }
    Ok(())
}
