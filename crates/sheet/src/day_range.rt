ghost use Rattle.std.specs.Prelude.{◌≡◌, min, max};

use rules::Reading;

// The days of a book from one up to another.
#[derive(Clone, Copy, PartialEq, Eq, Debug)]
pub(crate) struct DayRange {
    pub from: u32,
    pub to: u32,
}

impl DayRange {
    // The days from the first to the last of these and of a reading.
    pub(crate) fn including(self, reading: &Reading) -> DayRange
        ensures from { result.from ≡ min self.from reading.now.start }
        ensures to { result.to ≡ max self.to reading.now.end }
    {
        DayRange {
            from: self.from.min(reading.start),
            to: self.to.max(reading.end),
        }
    }
}

// The days that a reading covers.
impl From<Reading> for DayRange {
    ghost from_gives = { λ reading days. (days.from ≡ reading.start) × (days.to ≡ reading.end) };

    fn from(reading: Reading) -> DayRange {
        DayRange {
            from: reading.start,
            to: reading.end,
        }
    }
}
