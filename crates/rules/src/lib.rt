//! The rule book of a gas area's daily figures: definitions over histories, with nothing to compute.
//!
//! A history is what a book accepted since its opening. `specs/History` says what it has last said of each day and
//! point, `specs/Readings` which readings it holds, `specs/Figures` what each point's figure of each day is, by the
//! rules of AEMO's methodology for net system load, and `specs/Calls` by which number a call is refused, or which
//! entry it makes. The crates above cite these definitions in their promises; the functions here are laws, which are
//! proved of every history that a book can have: that held readings lie end to end, that each day balances, which
//! days an entry can move, and within which limits all numbers stay.
#![tactic(auto)]

mod call;
mod entry;
mod figure_laws;
mod reading_laws;

pub use call::{Call, Delivery};
pub use entry::{Enrolment, Entry, GateDay, Reading};
pub use figure_laws::{
    counts_move_estimates, each_day_balances, enrolments_move_later_days, estimated_days_shown,
    figures_keep_limits, latest_entries_decide, loads_leave_apart_days, loads_move_joined_days,
    loads_move_one_day, readings_move_covered_days, retailers_balance, scaling_only_lowers,
    supplied_is_never_scaled, worked_days_hold,
};
pub use reading_laws::{
    entries_lie_in_the_book, held_readings_have_places, held_readings_lie_end_to_end,
    held_readings_lie_in_the_book, last_covering_reading_is_held,
    new_reading_replaces_whole_readings, other_entries_leave_readings, worked_readings_hold,
};
