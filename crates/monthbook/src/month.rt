ghost use Rattle.std.specs.Prelude.{◌≡◌, length, IfOk, vec_len};
ghost use Rattle.book.specs.Book.{lists_of};

use allocation::METERS;
use book::{Answer, Book, Lists, OpeningRequest};
use estimates::{ByWeather, Factors};
use rules::Call;
use std::alloc::Global;
use terms::Refusal;

// July 2024. From the first to the last, dates are counted by their digits, so both lie in one month.
pub(crate) const FIRST: u32 = 20240701;

pub(crate) const LAST: u32 = 20240731;

pub(crate) const DAYS: usize = 31;

pub(crate) const POINTS: usize = 3;

// 2.5 percent, in ten-thousandths.
const UNACCOUNTED: u64 = 250;

const INTERVAL_METERS: usize = METERS as usize;

const READING_PLACES: usize = 8;

// What each point uses, in kilojoules a day and a degree day.
const FACTORS: [Factors; POINTS] = [
    Factors {
        base_load: 120_000,
        sensitivity: 15_000,
    },
    Factors {
        base_load: 60_000,
        sensitivity: 20_000,
    },
    Factors {
        base_load: 200_000,
        sensitivity: 8_000,
    },
];

// The book of the month, and the estimator that it asks.
#[derive(Drop)]
pub(crate) struct Month {
    book: Book,
    estimator: ByWeather,
}

// Estimates by weather, with the factors of each point.
fn by_factors() -> Result<ByWeather, Refusal> {
    let mut estimator = ByWeather::new();
    for (point, factors) in (1..=POINTS as u32).zip(FACTORS.iter()) {
        estimator.enter_factors(point, *factors)?;
    }
    Ok(estimator)
}

impl Month {
    // A book that has been told nothing yet.
    pub(crate) fn open(heap: Global) -> anyhow::Result<Month> {
        let estimator = by_factors()?;
        let request = OpeningRequest {
            first_date: FIRST,
            days: DAYS as u32,
            points: POINTS as u32,
            unaccounted: UNACCOUNTED,
        };
        let lists = Lists {
            sheet: vec![in heap; 0; DAYS * POINTS]?,
            intervals: vec![in heap; 0; DAYS * INTERVAL_METERS]?,
            readings: vec![in heap; None; READING_PLACES]?,
        };
        let book = Book::open(request, lists)?;
        Ok(Month { book, estimator })
    }

    // The answer to each call, in their order. The law over them stands on the book's own `serve`.
    pub(crate) fn serve(
        &mut self,
        heap: Global,
        calls: &[Call],
    ) -> anyhow::Result<Vec<Result<Answer, Refusal>>>
        ensures { IfOk result (λ answers. vec_len answers ≡ length calls.now) }
    {
        let mut answers = vec![in heap; Ok(Answer::Accepted); calls.len()]?;
        self.book
            .serve(&mut self.estimator, calls, answers.as_mut_slice())?;
        Ok(answers)
    }

    // The figures, day by day and by point.
    pub(crate) fn sheet(&self) -> &[u64]
        ensures { result.now ≡ (lists_of self.now.book).sheet.items }
    {
        self.book.sheet()
    }
}
