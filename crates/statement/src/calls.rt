// What the book is told: in July, and before each stage but the first.
use super::month::{DAYS, FIRST, LAST};
use rules::{Call, Delivery};
use std::alloc::{AllocError, Global};
use terms::ReadingType;

// The three retailers.
pub(crate) const NORTHERN: u32 = 4;

pub(crate) const SOUTHERN: u32 = 7;

pub(crate) const SMALL: u32 = 11;

// The points' retailers, by the numbers of the points.
const RETAILERS: [u32; 4] = [NORTHERN, NORTHERN, SOUTHERN, SMALL];

// The degree-day count of each day.
const COUNTS: [u32; DAYS] = [
    1_043, 1_120, 985, 1_210, 1_266, 940, 905, 1_094, 1_181, 1_230, 1_302, 1_275, 1_020, 966,
    1_107, 1_152, 1_190, 1_088, 1_015, 930, 902, 870, 1_005, 1_164, 1_221, 1_140, 984, 895, 1_060,
    1_133, 1_071,
];

// The energy into and out of the area on each day.
const GATES: [(u64, u64); DAYS] = [
    (1_120, 20),
    (1_160, 20),
    (1_090, 20),
    (1_180, 30),
    (1_210, 30),
    (980, 10),
    (940, 10),
    (1_150, 20),
    (1_190, 20),
    (1_640, 40),
    (1_850, 40),
    (1_600, 40),
    (1_010, 10),
    (960, 10),
    (1_140, 20),
    (1_175, 20),
    (1_205, 30),
    (1_130, 20),
    (1_080, 20),
    (950, 10),
    (925, 10),
    (560, 10),
    (1_045, 20),
    (1_150, 20),
    (1_230, 30),
    (1_165, 20),
    (985, 10),
    (630, 10),
    (1_075, 20),
    (1_135, 20),
    (1_150, 20),
];

fn actual(point: u32, end: u32, energy: i64) -> Call {
    Call::EnterReading(Delivery {
        point,
        start: FIRST,
        end,
        energy,
        reading_type: ReadingType::Actual,
    })
}

// Enrolments, weather, gate days, and the one reading that comes in time.
pub(crate) fn july(heap: Global) -> Result<Vec<Call>, AllocError> {
    let mut calls = Vec::new(heap);
    calls.extend(
        (1..).zip(RETAILERS.iter()).map(|(point, retailer)| Call::Enrol {
            point,
            retailer: *retailer,
            start: FIRST,
        }),
    )?;
    calls.extend(
        (FIRST..=LAST).zip(COUNTS.iter()).map(|(date, count)| Call::EnterDegreeDays {
            date,
            count: *count,
        }),
    )?;
    calls.extend(
        (FIRST..=LAST).zip(GATES.iter()).map(|(date, (energy_in, energy_out))| Call::EnterGate {
            date,
            energy_in: *energy_in,
            energy_out: *energy_out,
        }),
    )?;
    calls.extend_from_slice(&[actual(1, 20240801, 8_700)])?;
    Ok(calls)
}

// Before the final: the late reading of point 2, and a gate day that the network operator revises.
pub(crate) fn before_final() -> [Call; 2] {
    [
        actual(2, 20240801, 8_100),
        Call::EnterGate {
            date: 20240716,
            energy_in: 1_475,
            energy_out: 20,
        },
    ]
}

// Before the revision: an interval meter was read too low on one day.
pub(crate) fn before_revision() -> [Call; 1] {
    [Call::EnterInterval {
        date: 20240711,
        meter: 1,
        energy: 390,
    }]
}
