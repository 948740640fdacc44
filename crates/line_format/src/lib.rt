//! Lines of 45 bytes and a line feed: which record each says, how a record is written, and whether
//! its numbers are within their limits and its dates exist.
//!
//! A line has a tag of four capitals, four fields of ten columns and the column of a letter. It is
//! proved of every line and every record that
//!
//! - bytes of any number are read as a record or refused at one column at fault, and no other
//!   column is at fault;
//! - what is written of a record is read as that record, and what is read as a record is, byte for
//!   byte, what is written of it, so no record has a second writing;
//! - a record is refused exactly where a number is beyond its limits or else a date does not exist,
//!   at the first column of the leftmost such field.
#![tactic(auto)]

mod blank;
mod eight_digits;
mod fault;
mod field;
mod field_text;
mod field_value;
mod letter;
mod limits;
mod line;
mod record;
mod signed_digits;
mod tag;

pub use blank::Blank;
pub use eight_digits::EightDigits;
pub use fault::{Fault, LAST_LINE_NUMBER, LineFault, on_line};
pub use field::Field;
pub use field_text::FieldText;
pub use field_value::FieldValue;
pub use letter::{letter_of, read_no_letter, type_of_letter};
pub use limits::{LARGEST_BOOK, Limits, check_limits};
pub use line::{check_line, read_back, read_line, write_again};
pub use record::{
    DegreeDays, Enrolment, Factors, GateDay, IntervalEnergy, Opening, Reading, Record, write_record,
};
pub use tag::Tag;
