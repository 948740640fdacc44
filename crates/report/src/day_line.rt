ghost use Rattle.std.specs.Prelude.{Some};
ghost use Rattle.report.specs.ReportLines.{day_text};

use sheet::Account;
use std::fmt;

/// The line of a day with a load in a report, without its line feed: `DAY`, and in ten columns each
/// the date and the day's account in MJ: load, supplied, generated, remainder, excess, and the
/// count of missing estimates.
#[derive(Clone, Copy, PartialEq, Eq, Debug)]
pub struct DayLine {
    /// The date, as 20240701.
    pub date: u32,
    /// The account of the day.
    pub figures: Account,
}

impl fmt::Display for DayLine {
    ghost output = { λ l. Some (day_text l.date l.figures) };

    fn fmt<W: fmt::Write>(&self, f: &mut fmt::Formatter<W>) -> fmt::Result {
        let date = self.date;
        let Account {
            load,
            supplied,
            generated,
            remainder,
            excess,
            missing,
        } = self.figures;
        write!(
            f,
            "DAY {date:>10}{load:>10}{supplied:>10}{generated:>10}{remainder:>10}{excess:>10}{missing:>10}"
        )
    }
}
