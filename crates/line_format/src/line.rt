ghost use Rattle.std.specs.Prelude.{◌≡◌, ℕ, true, false, IfErr, MatchResult};
ghost use Rattle.terms.specs.Answers.{Answers};
ghost use Rattle.terms.specs.Refusal.{number_of};
ghost use Rattle.line_format.specs.Kind.{reading_type, no_letter};
ghost use Rattle.line_format.specs.Line.{ChecksRecord, ChecksLine, ReadsContents, ReadsBack, ReadsLine, IsAtFault, WritesAgain, ends_with_line_feed, is_line, column_past_end};
ghost use Rattle.line_format.specs.Segment.{segment, bytes_before, ReadsSegment, ReadsSegmentAs, ReadsUnusedRest, ReadsTag, ReadsThree};
ghost use Rattle.line_format.specs.Record.{record_fits};
ghost use Rattle.line_format.specs.declared.tag.Tag.TheVariants.{Open, Fact, Enrl, Gate, Intv, Degd, Read};
ghost use Rattle.terms.specs.RefusalNumbers.{beyond_limits, malformed_line};

use super::blank::Blank;
use super::eight_digits::EightDigits;
use super::fault::{Fault, LineFault, at_column, on_line};
use super::field::Field;
use super::field_value::FieldValue;
use super::letter::{read_no_letter, type_of_letter};
use super::limits::{Limits, check_limits};
use super::record::{
    DegreeDays, Enrolment, Factors, GateDay, IntervalEnergy, Opening, Reading, Record, write_record,
};
use super::tag::Tag;
use terms::{ReadingType, Refusal};

// The bytes of a line: 45 and a line feed.
#[derive(Clone, Copy)]
pub(crate) struct Line {
    bytes: [u8; 46],
    ghost complete: { is_line bytes ≡ true },
}

// Refuses as malformed (1) bytes of another length or without the line feed, at the column past
// their end.
impl TryFrom<&[u8]> for Line {
    type Error = Fault;

    ghost try_from_gives = { λ bytes r. MatchResult r (λ line. line.bytes ≡ bytes.now)
        (λ f. (number_of f.refusal ≡ malformed_line) × (f.column ≡ column_past_end bytes.now)
        × (is_line bytes.now ≡ false)) };

    fn try_from(bytes: &[u8]) -> Result<Line, Fault> {
        match <[u8; 46]>::try_from(bytes) {
            Ok(line) if ends_with_line_feed(bytes) => Ok(Line { bytes: line }),
            _ => Err(Fault {
                refusal: Refusal::MalformedLine,
                column: column_past_end(bytes),
            }),
        }
    }
}

impl Line {
    // The tag of the line. Refuses an unknown one as malformed (1) at column 1.
    fn tag(&self) -> Result<Tag, Fault>
        ensures { ReadsTag self.now.bytes result }
    {
        at_column(1, Tag::try_from(&self.bytes[0..4]))
    }

    // The value in a field of the line. Refuses the field as malformed (1) at its first column
    // where none stands there.
    fn field<X: FieldValue>(&self, field: Field) -> Result<X, Fault>
        ensures { ReadsSegmentAs (segment X.kind (bytes_before field) self.now.bytes)
            X.value_of result }
    {
        at_column(field.column(), X::read(field.columns(&self.bytes)))
    }

    // The type of reading in the letter's column. Refuses any other byte as malformed (1) at column
    // 45.
    fn letter(&self) -> Result<ReadingType, Fault>
        ensures { ReadsSegment (segment reading_type 44 self.now.bytes) result }
    {
        at_column(45, type_of_letter(self.bytes[44]))
    }

    // The letter's column of a line without a letter. Refuses what is no space as malformed (1) at
    // column 45.
    fn no_letter(&self) -> Result<(), Fault>
        ensures { ReadsSegment (segment no_letter 44 self.now.bytes) result }
    {
        at_column(45, read_no_letter(self.bytes[44]))
    }

    // The fourth field and the letter's column, both unused.
    fn unused_rest(&self) -> Result<(), Fault>
        ensures { ReadsUnusedRest self.now.bytes result }
    {
        let Blank = self.field(Field::Fourth)?;
        self.no_letter()
    }

    // The values in the first three fields of a line whose rest is unused.
    fn three<X: FieldValue + Drop, Y: FieldValue + Drop, Z: FieldValue + Drop>(
        &self,
    ) -> Result<(X, Y, Z), Fault>
        ensures { ReadsThree X.kind Y.kind Z.kind
            X.value_of Y.value_of Z.value_of self.now.bytes result }
    {
        let first = self.field(Field::First)?;
        let second = self.field(Field::Second)?;
        let third = self.field(Field::Third)?;
        self.unused_rest()?;
        Ok((first, second, third))
    }

    // The record of a line with the tag OPEN.
    fn opening(&self) -> Result<Record, Fault>
        ensures { ReadsContents Open self.now.bytes result }
    {
        let (EightDigits(first_date), days, unaccounted) = self.three()?;
        Ok(Record::Opening(Opening {
            first_date,
            days,
            unaccounted,
        }))
    }

    // The record of a line with the tag FACT.
    fn factors(&self) -> Result<Record, Fault>
        ensures { ReadsContents Fact self.now.bytes result }
    {
        let (point, base_load, sensitivity) = self.three()?;
        Ok(Record::Factors(Factors {
            point,
            base_load,
            sensitivity,
        }))
    }

    // The record of a line with the tag ENRL.
    fn enrolment(&self) -> Result<Record, Fault>
        ensures { ReadsContents Enrl self.now.bytes result }
    {
        let (point, retailer, EightDigits(start)) = self.three()?;
        Ok(Record::Enrolment(Enrolment {
            point,
            retailer,
            start,
        }))
    }

    // The record of a line with the tag GATE.
    fn gate_day(&self) -> Result<Record, Fault>
        ensures { ReadsContents Gate self.now.bytes result }
    {
        let (EightDigits(date), energy_in, energy_out) = self.three()?;
        Ok(Record::GateDay(GateDay {
            date,
            energy_in,
            energy_out,
        }))
    }

    // The record of a line with the tag INTV.
    fn interval_energy(&self) -> Result<Record, Fault>
        ensures { ReadsContents Intv self.now.bytes result }
    {
        let (EightDigits(date), meter, energy) = self.three()?;
        Ok(Record::IntervalEnergy(IntervalEnergy {
            date,
            meter,
            energy,
        }))
    }

    // The record of a line with the tag DEGD.
    fn degree_days(&self) -> Result<Record, Fault>
        ensures { ReadsContents Degd self.now.bytes result }
    {
        let (EightDigits(date), count, Blank) = self.three()?;
        Ok(Record::DegreeDays(DegreeDays { date, count }))
    }

    // The record of a line with the tag READ.
    fn reading(&self) -> Result<Record, Fault>
        ensures { ReadsContents Read self.now.bytes result }
    {
        let point = self.field(Field::First)?;
        let EightDigits(start) = self.field(Field::Second)?;
        let EightDigits(end) = self.field(Field::Third)?;
        let energy = self.field(Field::Fourth)?;
        let reading_type = self.letter()?;
        Ok(Record::Reading(Reading {
            point,
            start,
            end,
            energy,
            reading_type,
        }))
    }

    // What a line says under this tag.
    fn record(&self, tag: Tag) -> Result<Record, Fault>
        ensures { ReadsContents tag self.now.bytes result }
    {
        match tag {
            Tag::Open => self.opening(),
            Tag::Fact => self.factors(),
            Tag::Enrl => self.enrolment(),
            Tag::Gate => self.gate_day(),
            Tag::Intv => self.interval_energy(),
            Tag::Degd => self.degree_days(),
            Tag::Read => self.reading(),
        }
    }
}

// Whether the last byte is a line feed.
fn ends_with_line_feed(bytes: &[u8]) -> bool
    ensures { result ≡ ends_with_line_feed bytes.now }
{
    bytes.last() == Some(&b'\n')
}

// The column at fault where the length is wrong: one past the end of a shorter line, else 46.
fn column_past_end(bytes: &[u8]) -> u8
    ensures { result ≡ column_past_end bytes.now }
{
    let line_feed = usize::from(ends_with_line_feed(bytes));
    bytes.len().saturating_sub(line_feed).min(45) as u8 + 1
}

/// The record that a line says, from its bytes of any number, its line feed among them.
///
/// Refuses as malformed (1), at the column at fault: bytes that are not 45 and a line feed at the
/// one past their end, 46 at most; an unknown tag at column 1; else the leftmost field or letter
/// that is not what the tag asks for, at its first column. What is read is, byte for byte, what
/// writing the record gives, so no record has a second writing.
pub fn read_line(bytes: &[u8]) -> Result<Record, Fault>
    ensures read { ReadsLine bytes.now result }
    ensures reads_back { ReadsBack bytes.now result }
    ensures one_column { IfErr result (λ f. (c : ℕ) → IsAtFault bytes.now c → c ≡ f.column) }
{
    let line = Line::try_from(bytes)?;
    let tag = line.tag()?;
    line.record(tag)
}

// The record that a line says, where it is within limits.
fn record_within_limits(bytes: &[u8], limits: Limits) -> Result<Record, Fault>
    ensures { ChecksRecord bytes.now limits result }
{
    let record = read_line(bytes)?;
    check_limits(&record, limits)?;
    Ok(record)
}

/// The record that the line of a number says, from its bytes of any number, its line feed among
/// them. Refuses what `read_line` refuses, and then what `check_limits` does: malformed (1), beyond
/// limits (3), no such date (4).
pub fn check_line(line: u64, bytes: &[u8], limits: Limits) -> Result<Record, LineFault>
    ensures { ChecksLine line bytes.now limits result }
{
    on_line(line, record_within_limits(bytes, limits))
}

/// Writes a record and reads what was written: the same record. Refuses as beyond limits (3) a
/// record of which a value does not fit its columns.
pub fn read_back(record: &Record) -> Result<Record, Refusal>
    ensures { Answers result (record_fits «record».now) «record».now beyond_limits }
{
    let mut line = [0; 46];
    write_record(record, &mut line)?;
    Ok(read_line(&line).unwrap())
}

/// Reads a line and writes what was read: the record, and the same 46 bytes. Refuses what
/// `read_line` refuses.
pub fn write_again(bytes: &[u8]) -> Result<(Record, [u8; 46]), Fault>
    ensures { WritesAgain bytes.now result }
{
    let record = read_line(bytes)?;
    let mut line = [0; 46];
    write_record(&record, &mut line).unwrap();
    Ok((record, line))
}
