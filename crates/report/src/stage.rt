ghost use Rattle.std.specs.Prelude.{◌≡◌, true, OnErr};
ghost use Rattle.estimates.specs.declared.by_weather.ByWeather.{ByWeather};
ghost use Rattle.line_format.specs.declared.record.Record.TheVariants as of;
ghost use Rattle.report.specs.Intake.{AcceptsRecord, is_turn_at};
ghost use Rattle.report.specs.RecordRefusal.{IsWithinLimits};

use super::opened_book::OpenedBook;
use book::{Lists, Unopened};
use line_format::{Fault, Opening};

// How far an intake has come: before the opening it has the lists in whose memory the book will be
// kept, from it on the book.
#[derive(Drop)]
pub(crate) enum Stage {
    Unopened(Lists),
    // While the lists are with the opening that is judged.
    Opening,
    Opened(OpenedBook),
}

impl Stage {
    // The stage after an opening within its limits. A refused opening leaves it as it is.
    pub(crate) fn open(self, opening: Opening) -> (Stage, Result<(), Fault>)
        requires within { IsWithinLimits (of.Opening opening) }
        requires turn { is_turn_at self (of.Opening opening) ≡ true }
        ensures refused { OnErr result.1 (result.0 ≡ self) }
        ensures law { (w : ByWeather) → AcceptsRecord (of.Opening opening) result.1 self w result.0 w }
    {
        match self {
            Stage::Unopened(lists) => match OpenedBook::open(opening, lists) {
                Ok(opened) => (Stage::Opened(opened), Ok(())),
                Err(Unopened { refusal, lists }) => {
                    (Stage::Unopened(lists), Err(Fault { refusal, column: 5 }))
                }
            },
            _ => unreachable!(),
        }
    }
}
