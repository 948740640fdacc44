ghost use Rattle.std.specs.Prelude.{◌≡◌};
ghost use Rattle.report.specs.Intake.{InEverySetting};
ghost use Rattle.report.specs.RecordRefusal.{book_column, is_book_date, outside_column};
ghost use Rattle.terms.specs.Refusal.{number_of};

use calendar::day_number_of;
use line_format::Record;
use terms::Refusal;

// The days of a book, and from them the place of a fault that the book finds.
#[derive(Clone, Copy, PartialEq, Eq, Debug)]
pub(crate) struct BookDays {
    pub(crate) first_day_number: u32,
    pub(crate) count: u32,
}

impl BookDays {
    // Whether a date is a day of the book.
    fn contain(self, date: u32) -> bool
        ensures { InEverySetting self (λ s. result ≡ is_book_date s date) }
    {
        day_number_of(date).is_ok_and(|day_number| {
            self.first_day_number <= day_number && day_number - self.first_day_number < self.count
        })
    }

    // The first column of the leftmost date of a record that is outside the book.
    fn outside_column(self, record: &Record) -> u8
        ensures { InEverySetting self (λ s. result ≡ outside_column s «record».now) }
    {
        match *record {
            Record::Enrolment(_) => 25,
            Record::Reading(reading) if self.contain(reading.start) => 25,
            Record::Reading(_) => 15,
            _ => 5,
        }
    }

    // The first column of the field at fault where the book refuses a record.
    pub(crate) fn column(self, record: &Record, refusal: Refusal) -> u8
        ensures { InEverySetting self (λ s. result ≡ book_column s «record».now (number_of refusal)) }
    {
        match refusal {
            Refusal::OutsideBook => self.outside_column(record),
            Refusal::NegativeEnergy => 35,
            Refusal::StartIsNoMark | Refusal::CoveredDayWithoutLoad { .. } => 15,
            Refusal::EndNotAllowed => 25,
            _ => 5,
        }
    }
}
