//! Tests of the calendar, of estimators and of degree days. The crates are proved in their own place, and only
//! run here.
#![tactic(auto)]

#[cfg(test)]
mod by_weather;
#[cfg(test)]
mod calendar_days;
#[cfg(test)]
mod checks;
#[cfg(test)]
mod degree_days;
#[cfg(test)]
mod hot_water;
#[cfg(test)]
mod layers;
#[cfg(test)]
mod orders;
