ghost use Rattle.std.specs.Prelude.{◌≡◌, OnErr, Option};
ghost use Rattle.line_format.specs.declared.record.Record.TheVariants as of;
ghost use Rattle.report.specs.Intake.{InEveryBookHistory, IsOpenedBookOf, OpensByLine};
ghost use Rattle.report.specs.IntakeHistory.{history_with_call, reported_book_day};
ghost use Rattle.report.specs.RecordRefusal.{IsWithinLimits, book_refusal, placed_refusal};

use super::book_days::BookDays;
use super::day_line::DayLine;
use book::{Answer, Book, Lists, OpeningRequest, Unopened};
use calendar::{date_of_day_number, day_number_of};
use estimates::ByWeather;
use line_format::{Fault, LARGEST_BOOK, Opening, Record};
use rules::Call;

// A book that was opened by a line, and its days.
#[derive(Drop)]
pub(crate) struct OpenedBook {
    pub(crate) book: Book,
    pub(crate) days: BookDays,
}

impl OpenedBook {
    // A book in the memory of the lists, for an opening within its limits.
    pub(crate) fn open(opening: Opening, lists: Lists) -> Result<OpenedBook, Unopened<Lists>>
        requires { IsWithinLimits (of.Opening opening) }
        ensures { OpensByLine opening lists result }
    {
        let first_day_number = day_number_of(opening.first_date).unwrap();
        let count = opening.days as u32;
        let request = OpeningRequest {
            first_date: opening.first_date,
            days: count,
            // Each book has all of these points.
            points: LARGEST_BOOK.points,
            unaccounted: opening.unaccounted,
        };
        let book = Book::open(request, lists)?;
        Ok(OpenedBook {
            book,
            days: BookDays {
                first_day_number,
                count,
            },
        })
    }

    // Enters a call that a record makes, or refuses it at a column of the record.
    // The call goes through `serve`, which carries the law over every run.
    pub(crate) fn enter(
        &mut self,
        weather: &mut ByWeather,
        record: &Record,
        call: Call,
    ) -> Result<(), Fault>
        ensures refused { OnErr result ((self.new ≡ self.old) × (weather.new ≡ weather.old)) }
        ensures law { InEveryBookHistory self.old weather.old
            (λ s h. (placed_refusal result ≡ book_refusal s h «record».now (Option.Some call))
            × IsOpenedBookOf s (history_with_call s h (Option.Some call)) self.new weather.new) }
    {
        let mut answers = [Ok(Answer::Accepted)];
        // There is room for the one answer.
        self.book.serve(weather, &[call], &mut answers).unwrap();
        let [answer] = answers;
        match answer {
            Ok(_) => Ok(()),
            Err(refusal) => Err(Fault {
                refusal,
                column: self.days.column(record, refusal),
            }),
        }
    }

    // What is reported of a day of the book, if it has a load.
    pub(crate) fn day(&self, weather: &ByWeather, day: u32) -> Option<DayLine>
        ensures { InEveryBookHistory self.now weather.now
            (λ s h. result ≡ reported_book_day s h day) }
    {
        if day >= self.days.count {
            return None;
        }
        let date = date_of_day_number(self.days.first_day_number.saturating_add(day)).ok()?;
        let figures = self.book.ask_day(weather, date).ok()?;
        Some(DayLine { date, figures })
    }
}
