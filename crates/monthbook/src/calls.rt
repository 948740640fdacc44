// What the book is told in July, in the order in which it came, and what it is asked at the end of the month.
use super::month::{DAYS, FIRST, LAST};
use rules::{Call, Delivery};
use std::alloc::{AllocError, Global};
use terms::ReadingType;

// The two retailers.
pub(crate) const NORTHERN: u32 = 4;

pub(crate) const SOUTHERN: u32 = 7;

// How many questions there are for each day.
pub(crate) const QUESTIONS: usize = 3;

// The gate days that come day by day; all others come late.
const ON_TIME: usize = 14;

// Point 2 is enrolled twice.
const ENROLMENTS: [Call; 4] = [
    Call::Enrol {
        point: 1,
        retailer: NORTHERN,
        start: FIRST,
    },
    Call::Enrol {
        point: 2,
        retailer: NORTHERN,
        start: FIRST,
    },
    Call::Enrol {
        point: 3,
        retailer: SOUTHERN,
        start: 20240708,
    },
    Call::Enrol {
        point: 2,
        retailer: SOUTHERN,
        start: FIRST,
    },
];

// The degree-day count of each day but the last, whose weather is not known yet.
const COUNTS: [u32; 30] = [
    1_043, 1_120, 985, 1_210, 1_266, 940, 905, 1_094, 1_181, 1_230, 1_302, 1_275, 1_020, 966,
    1_107, 1_152, 1_190, 1_088, 1_015, 930, 902, 870, 1_005, 1_164, 1_221, 1_140, 984, 895, 1_060,
    1_133,
];

// The energy into and out of the area on each day.
const GATES: [(u64, u64); DAYS] = [
    (1_120, 20),
    (1_160, 20),
    (1_090, 20),
    (1_180, 30),
    (1_210, 30),
    (980, 10),
    (940, 10),
    (1_150, 20),
    (1_190, 20),
    (1_640, 40),
    (1_850, 40),
    (1_600, 40),
    (1_010, 10),
    (960, 10),
    (1_140, 20),
    (1_175, 20),
    (1_205, 30),
    (1_130, 20),
    (1_080, 20),
    (950, 10),
    (925, 10),
    (560, 10),
    (1_045, 20),
    (840, 20),
    (1_230, 30),
    (1_165, 20),
    (985, 10),
    (630, 10),
    (1_075, 20),
    (1_135, 20),
    (1_150, 20),
];

// Readings before all loads are there: that of point 2 covers days without one, and such a day has no account.
const EARLY: [Call; 4] = [
    Call::EnterReading(Delivery {
        point: 1,
        start: FIRST,
        end: 20240715,
        energy: 3_900,
        reading_type: ReadingType::Estimated,
    }),
    Call::EnterReading(Delivery {
        point: 2,
        start: FIRST,
        end: 20240720,
        energy: 5_300,
        reading_type: ReadingType::Actual,
    }),
    Call::AskDay { date: 20240715 },
    Call::AskFigure {
        point: 1,
        date: 20240705,
    },
];

// Interval energies that come late, with one for a day outside the book. They move days that the estimate joins.
const LATE_INTERVALS: [Call; 5] = [
    Call::EnterInterval {
        date: 20240710,
        meter: 1,
        energy: 390,
    },
    Call::EnterInterval {
        date: 20240711,
        meter: 1,
        energy: 390,
    },
    Call::EnterInterval {
        date: 20240711,
        meter: 2,
        energy: 195,
    },
    Call::EnterInterval {
        date: 20240712,
        meter: 1,
        energy: 390,
    },
    Call::EnterInterval {
        date: 20240801,
        meter: 1,
        energy: 390,
    },
];

// The reading of point 2 once more, and an actual reading of point 1 over the days of its estimate, which
// cannot come back.
const REPLACED: [Call; 5] = [
    Call::EnterReading(Delivery {
        point: 2,
        start: FIRST,
        end: 20240720,
        energy: 5_300,
        reading_type: ReadingType::Actual,
    }),
    Call::AskFigure {
        point: 1,
        date: 20240705,
    },
    Call::EnterReading(Delivery {
        point: 1,
        start: FIRST,
        end: 20240715,
        energy: 4_100,
        reading_type: ReadingType::Actual,
    }),
    Call::AskFigure {
        point: 1,
        date: 20240705,
    },
    Call::EnterReading(Delivery {
        point: 1,
        start: FIRST,
        end: 20240715,
        energy: 3_900,
        reading_type: ReadingType::Estimated,
    }),
];

// Readings on to later days; one of them ends between marks. The last supplies more on one day than the load of it.
const ONWARD: [Call; 4] = [
    Call::EnterReading(Delivery {
        point: 1,
        start: 20240715,
        end: 20240725,
        energy: 3_000,
        reading_type: ReadingType::Actual,
    }),
    Call::EnterReading(Delivery {
        point: 1,
        start: 20240715,
        end: 20240720,
        energy: 1_450,
        reading_type: ReadingType::Actual,
    }),
    Call::EnterReading(Delivery {
        point: 3,
        start: 20240708,
        end: 20240724,
        energy: 5_200,
        reading_type: ReadingType::Actual,
    }),
    Call::EnterReading(Delivery {
        point: 3,
        start: 20240724,
        end: 20240725,
        energy: 700,
        reading_type: ReadingType::Substituted,
    }),
];

// A gate day is revised: it moves days that a reading joins to it, and no others. Last, the day with an excess.
const REVISED: [Call; 6] = [
    Call::AskFigure {
        point: 2,
        date: 20240717,
    },
    Call::AskFigure {
        point: 3,
        date: 20240717,
    },
    Call::EnterGate {
        date: 20240703,
        energy_in: 1_390,
        energy_out: 20,
    },
    Call::AskFigure {
        point: 2,
        date: 20240717,
    },
    Call::AskFigure {
        point: 3,
        date: 20240717,
    },
    Call::AskDay { date: 20240724 },
];

// The degree days of the month.
fn enter_counts(calls: &mut Vec<Call>) -> Result<(), AllocError> {
    calls.extend(
        (FIRST..=LAST).zip(COUNTS.iter()).map(|(date, count)| Call::EnterDegreeDays {
            date,
            count: *count,
        }),
    )
}

// The gate days from a first date on.
fn enter_gates(calls: &mut Vec<Call>, first: u32, gates: &[(u64, u64)]) -> Result<(), AllocError> {
    calls.extend(
        (first..=LAST).zip(gates.iter()).map(|(date, (energy_in, energy_out))| Call::EnterGate {
            date,
            energy_in: *energy_in,
            energy_out: *energy_out,
        }),
    )
}

// What the book is told, with a few questions on the way.
pub(crate) fn july_calls(heap: Global) -> Result<Vec<Call>, AllocError> {
    let mut calls = Vec::new(heap);
    calls.extend_from_slice(&ENROLMENTS)?;
    enter_counts(&mut calls)?;
    enter_gates(&mut calls, FIRST, &GATES[0..ON_TIME])?;
    calls.extend_from_slice(&EARLY)?;
    enter_gates(&mut calls, 20240715, &GATES[ON_TIME..DAYS])?;
    calls.extend_from_slice(&LATE_INTERVALS)?;
    calls.extend_from_slice(&REPLACED)?;
    calls.extend_from_slice(&ONWARD)?;
    calls.extend_from_slice(&REVISED)?;
    Ok(calls)
}

// The account of each day, and both retailers' sums.
pub(crate) fn questions(heap: Global) -> Result<Vec<Call>, AllocError> {
    let mut calls = Vec::new(heap);
    for date in FIRST..=LAST {
        let asked: [Call; QUESTIONS] = [
            Call::AskDay { date },
            Call::AskRetailer {
                retailer: NORTHERN,
                date,
            },
            Call::AskRetailer {
                retailer: SOUTHERN,
                date,
            },
        ];
        calls.extend_from_slice(&asked)?;
    }
    Ok(calls)
}
