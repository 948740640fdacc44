//! The book of one distribution area: it takes in entries, answers questions, and keeps the daily figures of
//! every point.
//!
//! Proved of every run of calls (`specs/Law.antt`, on `Book::serve`): each call is answered or refused as the
//! rules say of the calls accepted before it, by the first condition that holds; lists, figures and estimator
//! are then what the rules make of the accepted calls; and no call moves more than it may. A refused call and a
//! question change nothing.
#![tactic(auto)]

mod book;
mod serve;

pub use book::{Book, Days, Lists};
pub use ledger::{OpeningRequest, Unopened};
pub use serve::{Answer, Served};
