// The stages as tables, in megajoules. Retailers without a point have no row.
use super::calls::{NORTHERN, SMALL, SOUTHERN};
use super::settlement::Settlement;
use statements::{LATER_PLACES, RETAILERS, SUMS, Span};
use std::{fmt, io};

// A row of a statement.
#[derive(Clone, Copy, PartialEq, Eq, Debug)]
enum Row {
    Retailer(u32),
    HostRemainder,
}

const ROWS: [Row; 4] = [
    Row::Retailer(NORTHERN),
    Row::Retailer(SOUTHERN),
    Row::Retailer(SMALL),
    Row::HostRemainder,
];

impl fmt::Display for Row {
    fn fmt<W: fmt::Write>(&self, f: &mut fmt::Formatter<W>) -> fmt::Result {
        match self {
            Row::Retailer(number) => write!(f, "retailer {number:<5}"),
            Row::HostRemainder => write!(f, "host remainder"),
        }
    }
}

impl Row {
    // Its number in a row of sums or adjustments.
    fn of(self, numbers: &[i64]) -> i64 {
        let place = match self {
            Row::Retailer(number) => (number as usize).saturating_sub(1),
            Row::HostRemainder => RETAILERS,
        };
        numbers.get(place).copied().unwrap_or(0)
    }
}

// A date by its digits.
#[derive(Clone, Copy, PartialEq, Eq, Debug)]
struct DateShown(u32);

impl fmt::Display for DateShown {
    fn fmt<W: fmt::Write>(&self, f: &mut fmt::Formatter<W>) -> fmt::Result {
        let year = self.0 / 10_000;
        let month = self.0 / 100 % 100;
        let day = self.0 % 100;
        write!(f, "{year}-{month:02}-{day:02}")
    }
}

// The span that is settled.
pub(crate) fn print_span(rt: &HostRuntime, span: Span) -> io::Result<()> {
    let first = DateShown(span.first);
    let last = DateShown(span.last);
    println!(rt; "The settlement of {first} to {last}, in MJ")
}

// The sums of the first stage.
pub(crate) fn print_first(rt: &HostRuntime, sums: &[i64]) -> io::Result<()> {
    println!(rt; "")?;
    println!(rt; "preliminary            sum")?;
    for row in ROWS {
        println!(rt; "{row} {:>11}", row.of(sums))?;
    }
    Ok(())
}

// The adjustments of a later stage, and its sums.
pub(crate) fn print_later(
    rt: &HostRuntime,
    name: &str,
    list: &[i64; LATER_PLACES],
) -> io::Result<()> {
    println!(rt; "")?;
    println!(rt; "{name:<14}  adjustment         sum")?;
    for row in ROWS {
        println!(rt;
            "{row} {:>11} {:>11}",
            row.of(&list[..SUMS]),
            row.of(&list[SUMS..])
        )?;
    }
    Ok(())
}

// The adjustments of all stages together, beside what the last stage has more than the first.
pub(crate) fn print_together(rt: &HostRuntime, settlement: &Settlement) -> io::Result<()> {
    println!(rt; "")?;
    println!(rt; "all stages      adjustment  last less first")?;
    for row in ROWS {
        let adjusted = row
            .of(&settlement.last[..SUMS])
            .saturating_add(row.of(&settlement.revised[..SUMS]));
        let gained = row
            .of(&settlement.revised[SUMS..])
            .saturating_sub(row.of(&settlement.preliminary));
        println!(rt; "{row} {adjusted:>11} {gained:>16}")?;
    }
    Ok(())
}
