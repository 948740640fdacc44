// The book of July 2024, and what it is told.
use allocation::METERS;
use book::{Answer, Book, Lists, OpeningRequest};
use estimates::{ByWeather, Factors};
use rules::Call;
use std::alloc::Global;
use terms::Refusal;

// From the first to the last, dates are counted by their digits, so both lie in one month.
pub(crate) const FIRST: u32 = 20240701;

pub(crate) const LAST: u32 = 20240731;

pub(crate) const DAYS: usize = 31;

const POINTS: usize = 4;

// 2.5 percent, in ten-thousandths.
const UNACCOUNTED: u64 = 250;

const INTERVAL_METERS: usize = METERS as usize;

const READING_PLACES: usize = 8;

// What each point uses, in kilojoules a day and a degree day.
const FACTORS: [Factors; POINTS] = [
    Factors {
        base_load: 120_000,
        sensitivity: 15_000,
    },
    Factors {
        base_load: 60_000,
        sensitivity: 20_000,
    },
    Factors {
        base_load: 200_000,
        sensitivity: 8_000,
    },
    Factors {
        base_load: 0,
        sensitivity: 12_000,
    },
];

// The book, and the estimator that it asks.
#[derive(Drop)]
pub(crate) struct Month {
    pub(crate) book: Book,
    pub(crate) estimator: ByWeather,
}

impl Month {
    // A book that has been told nothing yet.
    pub(crate) fn open(heap: Global) -> anyhow::Result<Month> {
        let mut estimator = ByWeather::new();
        for (point, factors) in (1..=POINTS as u32).zip(FACTORS.iter()) {
            estimator.enter_factors(point, *factors)?;
        }
        let request = OpeningRequest {
            first_date: FIRST,
            days: DAYS as u32,
            points: POINTS as u32,
            unaccounted: UNACCOUNTED,
        };
        let lists = Lists {
            sheet: vec![in heap; 0; DAYS * POINTS]?,
            intervals: vec![in heap; 0; DAYS * INTERVAL_METERS]?,
            readings: vec![in heap; None; READING_PLACES]?,
        };
        let book = Book::open(request, lists)?;
        Ok(Month { book, estimator })
    }

    // Tells the book what has come in. A call that it refuses is the answer, and those after it are served all
    // the same.
    pub(crate) fn tell(&mut self, heap: Global, calls: &[Call]) -> anyhow::Result<()> {
        let mut answers = vec![in heap; Ok(Answer::Accepted); calls.len()]?;
        self.book
            .serve(&mut self.estimator, calls, answers.as_mut_slice())?;
        match answers.iter().find_map(|answer| answer.err()) {
            Some(refusal) => Err(refusal.into()),
            None => Ok(()),
        }
    }
}
