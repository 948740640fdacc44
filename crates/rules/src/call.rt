//! What a book can be told and asked.

use terms::ReadingType;

/// A reading of a point as it is delivered: from its start date to the day before its end date.
///
/// Dates are their eight digits, such as 20240701. The energy is in megajoules, as it came, even negative; a negative
/// one is refused by 6.
#[derive(Clone, Copy, Debug, PartialEq, Eq)]
pub struct Delivery {
    pub point: u32,
    pub start: u32,
    pub end: u32,
    pub energy: i64,
    pub reading_type: ReadingType,
}

/// One call of a book: an entry, or a question.
///
/// Points, retailers and interval meters are numbered from 1. Dates are their eight digits, such as 20240701;
/// energies are in megajoules, and degree-day counts in hundredths of a degree day. `specs/Calls` says by which number
/// a call is refused, from 3 to 14.
#[derive(Clone, Copy, Debug, PartialEq, Eq)]
pub enum Call {
    /// A point is enrolled with a retailer, and has figures from its start date on.
    Enrol {
        point: u32,
        retailer: u32,
        start: u32,
    },
    /// The energies that enter and leave the area through its gate on a day.
    EnterGate {
        date: u32,
        energy_in: u64,
        energy_out: u64,
    },
    /// What an interval meter burns on a day.
    EnterInterval {
        date: u32,
        meter: u32,
        energy: u64,
    },
    /// The degree-day count of a day, by which its estimates are made again.
    EnterDegreeDays {
        date: u32,
        count: u32,
    },
    /// A reading is delivered.
    EnterReading(Delivery),
    /// What is a point's figure of a day?
    AskFigure {
        point: u32,
        date: u32,
    },
    /// What are the sums of a day?
    AskDay {
        date: u32,
    },
    /// What do a retailer's points come to on a day?
    AskRetailer {
        retailer: u32,
        date: u32,
    },
}
