// Inputs that a line is added to, with their reports.
use std::alloc::{AllocError, Global};

// Lines, and what is reported of them.
#[derive(Clone, Copy)]
pub(crate) struct ReportedInput {
    pub(crate) lines: &'static str,
    pub(crate) refusals: &'static str,
    pub(crate) days: &'static str,
}

impl ReportedInput {
    // All that is reported of the lines by themselves.
    pub(crate) fn report(&self, heap: Global) -> Result<String, AllocError> {
        format!(in heap; "{}{}", self.refusals, self.days)
    }
}

// Nothing at all.
pub(crate) const NOTHING: ReportedInput = ReportedInput {
    lines: "",
    refusals: "",
    days: "",
};

// Two days and two points: point 1 is read over both days, and point 2 is estimated.
pub(crate) const TWO_DAYS: ReportedInput = ReportedInput {
    lines: "FACT         2     30000         0
OPEN  20240701         2         0
ENRL         1         1  20240701
ENRL         2         2  20240701
GATE  20240701       100         0
GATE  20240702       300         0
DEGD  20240701       500
DEGD  20240702       500
READ         1  20240701  20240703       200A
READ         2  20240702  20240703         5A
",
    refusals: "FAIL        10         3         9        15         0
",
    days: "DAY   20240701       100        50        30        20         0         0
DAY   20240702       300       150        30       120         0         0
",
};

// Five days, of which the first, the third and the fourth have no load; point 1 starts on the second.
pub(crate) const GAPS: ReportedInput = ReportedInput {
    lines: "OPEN  20240701         5         0
ENRL         1         1  20240702
GATE  20240702         1         0
GATE  20240705         1         0
",
    refusals: "",
    days: "DAY   20240702         1         0         0         1         0         1
DAY   20240705         1         0         0         1         0         1
",
};
