//! The daily figures of every point of a book, worked out anew as entries are accepted.
//!
//! A [`Sheet`] keeps one figure for each point and day, in whole megajoules, day by day and by point, in a
//! list that its opener gives it and gets back. A day that a reading covers shows the point's share of that
//! reading. A day that no reading covers shows the point's latest estimate, scaled where estimates and
//! supplied energy together exceed the day's load. Once the ledger holds an entry, the sheet works out anew
//! what that entry can move, and nothing more.
//!
//! Proved: after every accepted entry the sheet is that of the lengthened history (`IsSheetOf`). It shows
//! each figure as the rules make it of that history, and what its list holds beyond the book's places is as
//! it was at the opening. From such a sheet a figure, a day's account and a retailer's day sum are what the
//! rules say (`figure_at`, `day_account`, `retailer_sum`).
#![tactic(auto)]

mod account;
mod day_range;
mod entries;
mod place_laws;
mod settling;
mod sheet;
mod sources;

pub use account::Account;
pub use place_laws::{coverage_reaches, places_hold_held_readings, rows_by_places};
pub use sheet::Sheet;
pub use sources::Sources;
