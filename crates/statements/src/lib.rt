//! Settlement statements: a span of days is settled by stages, each with what the days come to for every
//! retailer and the host, and what was added since the stage before.
//!
//! Proved: a stage is drawn or refused as the rules say, and its sums are those of its span in the book that it
//! is drawn from; adjustments added up lead from the first stage's sums to the last's; and the sums of a span
//! balance with its loads. No stage can be copied, dropped or used twice: it is spent by the next stage or by
//! its settlement.
#![tactic(auto)]

mod draw;
mod laws;
mod stage;
mod statement;
mod sums;

pub use laws::{adjustments_lead_on, spans_are_judged_and_summed, statements_balance};
pub use stage::{Final, Preliminary, Revisable, Revised, Stage, Undrawn};
pub use statement::{Span, Statement};
pub use sums::{LATER_PLACES, RETAILERS, SUMS, Sums};
