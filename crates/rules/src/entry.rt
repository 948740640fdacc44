//! What a book keeps of the calls that it accepts.

use terms::ReadingType;

/// The energy into and out of the area on a day, in megajoules.
#[derive(Clone, Copy, Debug, PartialEq, Eq)]
pub struct GateDay {
    pub energy_in: u64,
    pub energy_out: u64,
}

/// A point's retailer, and the day of the book from which the point has figures.
#[derive(Clone, Copy, Debug, PartialEq, Eq)]
pub struct Enrolment {
    pub retailer: u32,
    pub start: u32,
}

/// The metered energy of a point, in megajoules, from its start day to the day before its end.
///
/// Days are days of the book, from 0. The end of a held reading may be the day after the book's last.
#[derive(Clone, Copy, Debug, PartialEq, Eq)]
pub struct Reading {
    pub point: u32,
    pub start: u32,
    pub end: u32,
    pub energy: u64,
    pub reading_type: ReadingType,
}

/// One entry that a book accepted. A history is a list of entries, the newest first.
///
/// Days are days of the book, from 0; energies are in megajoules, and degree-day counts in hundredths of a degree day.
#[derive(Clone, Copy, Debug, PartialEq, Eq)]
pub enum Entry {
    /// A point is enrolled.
    Enrolled { point: u32, enrolment: Enrolment },
    /// A day has these gate energies.
    GateEntered { day: u32, gate: GateDay },
    /// An interval meter burnt this on a day.
    IntervalEntered { day: u32, meter: u32, energy: u64 },
    /// A day has this degree-day count.
    DegreeDaysEntered { day: u32, count: u32 },
    /// A reading is taken.
    ReadingTaken(Reading),
}
