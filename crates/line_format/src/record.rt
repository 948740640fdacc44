ghost use Rattle.std.specs.Prelude.{◌≡◌, ◌+◌, ◌≤◌, [], ◌∷◌, ◌++◌, length, take, List};
ghost use Rattle.line_format.specs.Kind.{columns};
ghost use Rattle.line_format.specs.Record.{Content, contents, letter_content, tag_of, WritesFields, WritesLine, WritesRecord};

use super::blank::Blank;
use super::eight_digits::EightDigits;
use super::field_value::FieldValue;
use super::letter::letter_of;
use super::tag::Tag;
use terms::{ReadingType, Refusal};

/// A book opens.
#[derive(Clone, Copy, PartialEq, Eq, Debug)]
pub struct Opening {
    /// The date of its first day, a number like 20240701.
    pub first_date: u32,
    /// How many days it has.
    pub days: u64,
    /// The share of unaccounted-for gas, in ten-thousandths.
    pub unaccounted: u64,
}

/// The factors of a point, by which its use is estimated from the weather.
#[derive(Clone, Copy, PartialEq, Eq, Debug)]
pub struct Factors {
    /// The point's number.
    pub point: u64,
    /// The base load, in kJ a day.
    pub base_load: u64,
    /// The sensitivity, in kJ a degree day.
    pub sensitivity: u64,
}

/// A point gets its retailer.
#[derive(Clone, Copy, PartialEq, Eq, Debug)]
pub struct Enrolment {
    /// The point's number.
    pub point: u64,
    /// The retailer's number.
    pub retailer: u64,
    /// The date of the point's first day, a number like 20240701.
    pub start: u32,
}

/// A gate day: the energies that enter and leave the area on one day.
#[derive(Clone, Copy, PartialEq, Eq, Debug)]
pub struct GateDay {
    /// The date of the day, a number like 20240701.
    pub date: u32,
    /// The energy that enters, in MJ.
    pub energy_in: u64,
    /// The energy that leaves, in MJ.
    pub energy_out: u64,
}

/// The energy of one interval meter on one day.
#[derive(Clone, Copy, PartialEq, Eq, Debug)]
pub struct IntervalEnergy {
    /// The date of the day, a number like 20240701.
    pub date: u32,
    /// The meter's number.
    pub meter: u64,
    /// Its energy, in MJ.
    pub energy: u64,
}

/// The degree-day count of one day.
#[derive(Clone, Copy, PartialEq, Eq, Debug)]
pub struct DegreeDays {
    /// The date of the day, a number like 20240701.
    pub date: u32,
    /// The count, in hundredths of a degree day.
    pub count: u64,
}

/// A reading of a point, from its start to the day before its end.
#[derive(Clone, Copy, PartialEq, Eq, Debug)]
pub struct Reading {
    /// The point's number.
    pub point: u64,
    /// The date of its first day, a number like 20240701.
    pub start: u32,
    /// The date of the day after its last.
    pub end: u32,
    /// Its energy, in MJ.
    pub energy: i64,
    /// How it came about.
    pub reading_type: ReadingType,
}

/// What a line says: one case for each tag.
#[derive(Clone, Copy, PartialEq, Eq, Debug)]
pub enum Record {
    /// `OPEN`.
    Opening(Opening),
    /// `FACT`.
    Factors(Factors),
    /// `ENRL`.
    Enrolment(Enrolment),
    /// `GATE`.
    GateDay(GateDay),
    /// `INTV`.
    IntervalEnergy(IntervalEnergy),
    /// `DEGD`.
    DegreeDays(DegreeDays),
    /// `READ`.
    Reading(Reading),
}

impl Record {
    // The 46 bytes of the record's line. Refuses as beyond limits (3) where a value does not fit
    // its columns.
    fn line(&self) -> Result<[u8; 46], Refusal>
        ensures { WritesLine (tag_of self.now) (contents self.now) result }
    {
        match *self {
            Record::Opening(opening) => joined_line(
                Tag::Open,
                &[
                    EightDigits(opening.first_date).write(),
                    opening.days.write(),
                    opening.unaccounted.write(),
                    Blank.write(),
                ],
                None,
            ),
            Record::Factors(factors) => joined_line(
                Tag::Fact,
                &[
                    factors.point.write(),
                    factors.base_load.write(),
                    factors.sensitivity.write(),
                    Blank.write(),
                ],
                None,
            ),
            Record::Enrolment(enrolment) => joined_line(
                Tag::Enrl,
                &[
                    enrolment.point.write(),
                    enrolment.retailer.write(),
                    EightDigits(enrolment.start).write(),
                    Blank.write(),
                ],
                None,
            ),
            Record::GateDay(gate) => joined_line(
                Tag::Gate,
                &[
                    EightDigits(gate.date).write(),
                    gate.energy_in.write(),
                    gate.energy_out.write(),
                    Blank.write(),
                ],
                None,
            ),
            Record::IntervalEnergy(interval) => joined_line(
                Tag::Intv,
                &[
                    EightDigits(interval.date).write(),
                    interval.meter.write(),
                    interval.energy.write(),
                    Blank.write(),
                ],
                None,
            ),
            Record::DegreeDays(degrees) => joined_line(
                Tag::Degd,
                &[
                    EightDigits(degrees.date).write(),
                    degrees.count.write(),
                    Blank.write(),
                    Blank.write(),
                ],
                None,
            ),
            Record::Reading(reading) => joined_line(
                Tag::Read,
                &[
                    reading.point.write(),
                    EightDigits(reading.start).write(),
                    EightDigits(reading.end).write(),
                    reading.energy.write(),
                ],
                Some(reading.reading_type),
            ),
        }
    }
}

// Writes a part of the line behind its first `at` bytes.
fn put(line: &mut [u8; 46], at: usize, part: &[u8])
    requires { at + length part.now ≤ 46 }
    ensures { take (at + length part.now) line.new ≡ take at line.old ++ part.now }
{
    line[at..at + part.len()].copy_from_slice(part);
}

// The byte in the letter's column.
fn letter_byte(letter: Option<ReadingType>) -> u8
    ensures { result ∷ [] ≡ columns (letter_content letter).kind (letter_content letter).value }
{
    letter.map_or(b' ', |reading_type| letter_of(reading_type))
}

// The line of a tag, its four fields as they were written, and its letter. Refuses as beyond limits
// (3) where a value did not fit its field.
fn joined_line(
    tag: Tag,
    fields: &[Result<[u8; 10], Refusal>; 4],
    letter: Option<ReadingType>,
) -> Result<[u8; 46], Refusal>
    ensures { (cs : List Content) → WritesFields cs fields.now
        → WritesLine tag (cs ++ letter_content letter ∷ []) result }
{
    let mut line = [0; 46];
    put(&mut line, 0, &<[u8; 4]>::from(tag));
    for (place, field) in fields.iter().enumerate() {
        put(&mut line, 4 + 10 * place, &(*field)?);
    }
    put(&mut line, 44, &[letter_byte(letter), b'\n']);
    Ok(line)
}

/// Writes the 46 bytes of a record's line, its line feed among them, to the start of a buffer;
/// bytes beyond them stay. Refuses as beyond limits (3) where a value does not fit its columns, and
/// then as too short a list (15) a buffer of fewer than 46 bytes; a refusal leaves the buffer as it
/// was.
///
/// A number fits from 0 to 9,999,999,999, a reading's energy from -999,999,999, a date up to
/// 99,999,999.
pub fn write_record(record: &Record, buffer: &mut [u8]) -> Result<(), Refusal>
    ensures { WritesRecord «record».now buffer.old buffer.new result }
{
    let line = record.line()?;
    if buffer.len() < 46 {
        return Err(Refusal::ListTooShort);
    }
    buffer[0..46].copy_from_slice(&line);
    Ok(())
}
