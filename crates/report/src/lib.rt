//! From the bytes of an input to the bytes of its report.
//!
//! An input is lines of 45 columns and a line feed, as `line_format` reads them: factors of points,
//! the opening of a book, and all that the book is given from then on. A [`Feed`] takes bytes in
//! pieces of any size, cuts them into lines, enters each into an [`Intake`], and writes one line
//! for each that is refused, as it is met. At the end of the input it writes one line for each day
//! of the book that has a load.
//!
//! What is proved: the text that is written is the report of the bytes that came, however they were
//! cut into pieces, and an input has one report. A refused line changes nothing. The memory of a
//! book is taken once, before the first line, and of a line no more is kept than tells what it
//! says.
#![tactic(auto)]

mod book_days;
mod day_line;
mod fail_line;
mod feed;
mod input_report;
mod intake;
mod line_start;
mod opened_book;
mod stage;

pub use day_line::DayLine;
pub use fail_line::FailLine;
pub use feed::Feed;
pub use input_report::{each_input_has_one_report, report};
pub use intake::Intake;
pub use line_format::LineFault;
pub use line_start::LineStart;
