//! Estimates for the days that no reading covers: the one interface of every estimator, and the two that stand over
//! others.
//!
//! An `Estimator` has a figure or none for each point and day place, and a `Weather` estimator takes a degree-day count
//! for a day place. `Cap` lets no figure of another pass a point's greatest daily flow, and `FallBack` takes a
//! second's figure where the first has none.
//!
//! Proved: no figure is above `GREATEST_FIGURE`, and beyond the points, day places and counts there is none; a count
//! that is entered changes the figures of its own day place and of no other, and they become what they were said to be
//! under that count; a count beyond its limits is refused with `BeyondLimits` (3), and changes nothing.
#![tactic(auto)]

mod cap;
mod estimator;
mod fall_back;
mod limits;

pub use cap::Cap;
pub use estimator::{Estimator, Weather};
pub use fall_back::FallBack;
pub use limits::{
    DAYS, GREATEST_COUNT, POINTS, count_within, day_place_within, entry_numbered, judge_weather,
    point_within,
};
pub use terms::GREATEST_FIGURE;
