//! Estimates by weather and by hot water, and the degree-day counts that weather estimates take.
//!
//! `ByWeather` estimates by a point's base load and its sensitivity times the day's degree days, as AEMO's methodology
//! for net system load does. `HotWater` carries litres metered over some days to a day of another season, by hot-water
//! method W2. `Observations::degree_days` counts heating degree days from what weather stations observed, as the same
//! methodology counts effective degree days.
//!
//! Proved: each figure is what its formula gives, to the nearest megajoule, and keeps the limits of every estimator;
//! what is entered beyond its limits is refused and changes nothing; a degree-day count is what its four terms come to,
//! to the nearest hundredth, and at most 12,722; each of the 366 entries of the season table is the one that the
//! cosine's power series gives.
#![tactic(auto)]

mod by_weather;
mod degree_day_terms;
mod factors;
mod hot_water;
mod observations;
mod season;
mod season_table;
mod usage;

pub use by_weather::ByWeather;
pub use degree_day_terms::{DegreeDayTerms, HUNDREDTH};
pub use factors::{Factors, GREATEST_BASE_LOAD, GREATEST_SENSITIVITY};
pub use hot_water::HotWater;
pub use observations::{Observations, temperature_within, wind_within};
pub use season::Season;
pub use usage::{MOST_DAYS, MOST_HEAT, MOST_LITRES, Usage};
