//! The ledger of a book: what the book has been told, and the judge of every entry and question.
//!
//! A [`Ledger`] keeps the gate energies of the book's days, the energies of its interval meters, the
//! enrolments of its points and the readings that the book holds. Of every setting and history that
//! it is the ledger of, it is proved to judge each call as the rules do, with the refusal that comes
//! first and the day that it names, and to be after each entry that it holds the ledger of what was
//! accepted; a degree-day count is judged here, and the estimator holds it. A refused entry leaves
//! the ledger as it was. No call of an open ledger allocates.
#![tactic(auto)]

mod ledger;
mod limits;
mod opening;
mod places;
mod readings;

pub use ledger::{Ledger, Lists};
pub use opening::{Opening, OpeningRequest, Unopened, clear_front, judge_opening};
pub use places::{free_replaced, replaces, take_place};
