ghost use Rattle.std.specs.Prelude.{◌≡◌, true, None, IfOk, OnErr, Option, if◌then◌else◌};
ghost use Rattle.line_format.specs.declared.record.Record.TheVariants as of;
ghost use Rattle.report.specs.Intake.{AcceptsRecord, EntersLine, EntersRecord, InEveryHistory, IsIntakeOf, KeepsEntries, TakesLine, is_turn_at};
ghost use Rattle.report.specs.IntakeHistory.{call_of_record, day_count_of, initial_history, reported_day};
ghost use Rattle.report.specs.RecordRefusal.{IsWithinLimits, is_before_book, turn_refusal, placed_refusal};

use super::day_line::DayLine;
use super::stage::Stage;
use book::Lists;
use estimates::{ByWeather, Factors};
use line_format::{
    self, Fault, LARGEST_BOOK, LAST_LINE_NUMBER, LineFault, Record, check_limits, on_line,
    read_line,
};
use rules::{Call, Delivery};
use std::alloc::{AllocError, Global};
use std::mem;
use terms::Refusal;

// The meters of a day's interval energies.
const METERS: usize = allocation::METERS as usize;

// The places of a book for readings.
const READING_PLACES: usize = 256;

// A record whose turn is over, or has not come.
const OUT_OF_TURN: Fault = Fault {
    refusal: Refusal::OutOfTurn,
    column: 1,
};

/// The lines of one input, as they are entered: how many came, the estimator by weather, and the
/// book once it is opened.
///
/// Factors come before the one accepted opening, which opens a book of at most 62 days, always with
/// 32 points and 256 places for readings; every other record comes after it.
#[derive(Drop)]
pub struct Intake {
    pub(crate) lines: u64,
    pub(crate) weather: ByWeather,
    pub(crate) stage: Stage,
}

// Whether a record belongs before there is a book.
fn is_before_book(record: &Record) -> bool
    ensures { result ≡ is_before_book «record».now }
{
    matches!(record, Record::Opening(_) | Record::Factors(_))
}

impl Intake {
    /// An intake that no line has reached. All memory that its book will need is taken here; the
    /// error is that there is not so much.
    pub fn new(heap: Global) -> Result<Intake, AllocError>
        ensures { IfOk result (IsIntakeOf 0 initial_history) }
    {
        let days = LARGEST_BOOK.days as usize;
        let points = LARGEST_BOOK.points as usize;
        let lists = Lists {
            sheet: vec![in heap; 0; days * points]?,
            intervals: vec![in heap; 0; days * METERS]?,
            readings: vec![in heap; None; READING_PLACES]?,
        };
        Ok(Intake {
            lines: 0,
            weather: ByWeather::new(),
            stage: Stage::Unopened(lists),
        })
    }

    /// Takes the next line, its line feed among its bytes, and enters the record that it says.
    ///
    /// A line is refused as malformed (1), out of its turn (2), with a number beyond its limits (3)
    /// or a date that does not exist (4), or by the book (5 to 13), and then changes nothing but
    /// the count of lines. The fault has the number of the line from 1; from 9,999,999,999 on all
    /// lines share that number.
    pub fn take(&mut self, line: &[u8]) -> Result<(), LineFault>
        ensures refused { OnErr result (KeepsEntries self.old self.new) }
        ensures law { TakesLine line.now result self.old self.new }
    {
        self.lines = self.lines.saturating_add(1).min(LAST_LINE_NUMBER);
        let answer = self.enter(line);
        on_line(self.lines, answer)
    }

    // Enters what a line says, or refuses it at a column.
    fn enter(&mut self, line: &[u8]) -> Result<(), Fault>
        ensures lines { self.new.lines ≡ self.old.lines }
        ensures refused { OnErr result (self.new ≡ self.old) }
        ensures law { EntersLine line.now result self.old self.new }
    {
        let record = read_line(line)?;
        self.judge_turn(&record)?;
        check_limits(&record, LARGEST_BOOK)?;
        self.accept(&record)
    }

    // Refuses a record that is out of its turn.
    fn judge_turn(&self, record: &Record) -> Result<(), Fault>
        ensures { placed_refusal result
            ≡ (if is_turn_at self.now.stage «record».now then None else Option.Some turn_refusal) }
    {
        let is_before_book = is_before_book(record);
        match (&self.stage, is_before_book) {
            (Stage::Unopened(_), true) | (Stage::Opened(_), false) => Ok(()),
            _ => Err(OUT_OF_TURN),
        }
    }

    // Enters a record in its turn and within its limits, so that every number is a small one.
    fn accept(&mut self, record: &Record) -> Result<(), Fault>
        requires within { IsWithinLimits «record».now }
        requires turn { is_turn_at self.old.stage «record».now ≡ true }
        ensures lines { self.new.lines ≡ self.old.lines }
        ensures refused { OnErr result (self.new ≡ self.old) }
        ensures law { EntersRecord «record».now result self.old self.new }
    {
        match *record {
            Record::Factors(factors) => self.enter_factors(factors),
            Record::Opening(opening) => self.open(opening),
            Record::Enrolment(enrolment) => {
                let call = Call::Enrol {
                    point: enrolment.point as u32,
                    retailer: enrolment.retailer as u32,
                    start: enrolment.start,
                };
                self.enter_call(record, call)
            }
            Record::GateDay(gate) => {
                let call = Call::EnterGate {
                    date: gate.date,
                    energy_in: gate.energy_in,
                    energy_out: gate.energy_out,
                };
                self.enter_call(record, call)
            }
            Record::IntervalEnergy(interval) => {
                let call = Call::EnterInterval {
                    date: interval.date,
                    meter: interval.meter as u32,
                    energy: interval.energy,
                };
                self.enter_call(record, call)
            }
            Record::DegreeDays(degrees) => {
                let call = Call::EnterDegreeDays {
                    date: degrees.date,
                    count: degrees.count as u32,
                };
                self.enter_call(record, call)
            }
            Record::Reading(reading) => {
                let call = Call::EnterReading(Delivery {
                    point: reading.point as u32,
                    start: reading.start,
                    end: reading.end,
                    energy: reading.energy,
                    reading_type: reading.reading_type,
                });
                self.enter_call(record, call)
            }
        }
    }

    // Enters factors within their limits, before there is a book.
    fn enter_factors(&mut self, factors: line_format::Factors) -> Result<(), Fault>
        requires within { IsWithinLimits (of.Factors factors) }
        requires turn { is_turn_at self.old.stage (of.Factors factors) ≡ true }
        ensures lines { self.new.lines ≡ self.old.lines }
        ensures refused { OnErr result (self.new ≡ self.old) }
        ensures law { AcceptsRecord (of.Factors factors) result
            self.old.stage self.old.weather self.new.stage self.new.weather }
    {
        let entered = Factors {
            base_load: factors.base_load,
            sensitivity: factors.sensitivity,
        };
        self.weather
            .enter_factors(factors.point as u32, entered)
            .map_err(|refusal| Fault { refusal, column: 5 })
    }

    // Opens the book, by an opening within its limits.
    // Never inlined: a book is made here, and every line would touch a stack of its size.
    #[inline(never)]
    fn open(&mut self, opening: line_format::Opening) -> Result<(), Fault>
        requires within { IsWithinLimits (of.Opening opening) }
        requires turn { is_turn_at self.old.stage (of.Opening opening) ≡ true }
        ensures lines { self.new.lines ≡ self.old.lines }
        ensures refused { OnErr result (self.new ≡ self.old) }
        ensures law { AcceptsRecord (of.Opening opening) result
            self.old.stage self.old.weather self.new.stage self.new.weather }
    {
        let stage = mem::replace(&mut self.stage, Stage::Opening);
        let (stage, answer) = stage.open(opening);
        self.stage = stage;
        answer
    }

    // Enters a record by its call on the book.
    fn enter_call(&mut self, record: &Record, call: Call) -> Result<(), Fault>
        requires call { call_of_record «record».now ≡ Option.Some call }
        requires turn { is_turn_at self.old.stage «record».now ≡ true }
        ensures lines { self.new.lines ≡ self.old.lines }
        ensures refused { OnErr result (self.new ≡ self.old) }
        ensures law { EntersRecord «record».now result self.old self.new }
    {
        match &mut self.stage {
            Stage::Opened(opened) => opened.enter(&mut self.weather, record, call),
            _ => unreachable!(),
        }
    }

    /// How many days the book has; 0 before it is opened.
    pub fn days(&self) -> u32
        ensures { InEveryHistory self.now (λ k t. result ≡ day_count_of t) }
    {
        match &self.stage {
            Stage::Opened(opened) => opened.days.count,
            _ => 0,
        }
    }

    /// What is reported of a day of the book, from 0, if there is such a day and it has a load.
    pub fn day(&self, day: u32) -> Option<DayLine>
        ensures { InEveryHistory self.now (λ k t. result ≡ reported_day t day) }
    {
        match &self.stage {
            Stage::Opened(opened) => opened.day(&self.weather, day),
            _ => None,
        }
    }
}
