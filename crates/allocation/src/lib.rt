//! What a day's energies come to, and how an amount of energy is shared. The net system load of a gas day and its
//! weight, by AEMO's methodology for net system load; and the sharing of an amount over a row of weights, once for
//! every kind of row. Proved: loads, weights and shares are those of the rules; shares add up to their amount, none
//! exceeds its weight where the amount is at most the whole weight, and a weight of 0 takes 0.
#![tactic(auto)]

mod divisor;
mod estimated_point;
mod loads;
mod reading_day;
mod row;
mod sharing;

pub use estimated_point::EstimatedPoint;
pub use loads::{
    LARGEST_ADJUSTED, LARGEST_GATE, LARGEST_INTERVAL, LARGEST_INTERVAL_TOTAL, LARGEST_UNACCOUNTED,
    METERS, adjust_for_unaccounted, net_system_load, weight_of,
};
pub use reading_day::ReadingDay;
pub use row::Row;
pub use sharing::share;
