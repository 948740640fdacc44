ghost use Rattle.std.specs.Prelude.{Some};
ghost use Rattle.report.specs.ReportLines.{fault_text};

use line_format::LineFault;
use std::fmt;

/// The line of a refusal in a report, without its line feed: `FAIL`, and in ten columns each the
/// number of the refused line, the layer, the number of the refusal, the first column of the
/// leftmost field at fault, and the date of the day that the refusal names, or 0.
#[derive(Clone, Copy, PartialEq, Eq, Debug)]
pub struct FailLine(pub LineFault);

impl fmt::Display for FailLine {
    ghost output = { λ l. Some (fault_text l.0) };

    fn fmt<W: fmt::Write>(&self, f: &mut fmt::Formatter<W>) -> fmt::Result {
        let LineFault {
            line,
            layer,
            refusal,
            column,
        } = self.0;
        let layer = layer.number();
        let number = refusal.number();
        let day = refusal.date().unwrap_or(0);
        write!(
            f,
            "FAIL{line:>10}{layer:>10}{number:>10}{column:>10}{day:>10}"
        )
    }
}
