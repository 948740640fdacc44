// What the program prints.
use super::answer::{Answer, Half};
use super::reckoning::Reckoning;
use super::samples::before_and_after;
use super::word::Word;
use estimates::HUNDREDTH;
use std::{fmt, io};

// A part of a term in billionths of a hundredth: 1,600,000 of them make a whole.
const BILLIONTHS: u64 = 625;

/// Prints the day, its terms in hundredths of a degree day, and the count that they come to.
pub fn show_reckoning(rt: &HostRuntime, date: u32, reckoning: &Reckoning) -> io::Result<()> {
    let Reckoning {
        day_of_year,
        terms,
        count,
    } = *reckoning;
    let temperature = ShownTerm::Added(terms.temperature);
    let wind_chill = ShownTerm::Added(terms.wind_chill);
    let sunshine = ShownTerm::TakenAway(terms.sunshine);
    let season = ShownTerm::from(terms.season);
    println!(rt; "{date}, day {day_of_year} of its year")?;
    println!(rt; "temperature  {temperature}")?;
    println!(rt; "wind chill   {wind_chill}")?;
    println!(rt; "sunshine     {sunshine}")?;
    println!(rt; "season       {season}")?;
    println!(rt; "count          {count:>5} hundredths of a degree day")
}

/// Prints what the sample points are given before and after the count is entered.
pub fn show_samples(rt: &HostRuntime, date: u32, count: u32) -> anyhow::Result<()> {
    let (before, after) = before_and_after(date, count)?;
    for (point, (old, new)) in (1..4).zip(before.iter().zip(&after)) {
        println!(rt;
            "point {point}: {} before, {} after",
            ShownAnswer(*old),
            ShownAnswer(*new)
        )?;
    }
    Ok(())
}

/// Prints one line that names a word at fault.
pub fn show_fault(rt: &HostRuntime, words: &[&str], word: Word) -> io::Result<()> {
    let Some(text) = words.get(word.index()) else {
        return eprintln!(rt; "degreedays: {word}");
    };
    eprintln!(rt; "degreedays: {text}: {word}")
}

// A term in hundredths of a degree day, exactly, to nine places. Sunshine of 0 is shown as taken away too.
#[derive(Clone, Copy, PartialEq, Eq, Debug)]
enum ShownTerm {
    Added(u64),
    TakenAway(u64),
}

impl From<i64> for ShownTerm {
    fn from(term: i64) -> ShownTerm {
        if term < 0 {
            ShownTerm::TakenAway(term.unsigned_abs())
        } else {
            ShownTerm::Added(term.unsigned_abs())
        }
    }
}

impl fmt::Display for ShownTerm {
    fn fmt<W: fmt::Write>(&self, f: &mut fmt::Formatter<W>) -> fmt::Result {
        let (sign, parts) = match *self {
            ShownTerm::Added(parts) => ('+', parts),
            ShownTerm::TakenAway(parts) => ('-', parts),
        };
        let whole = parts / HUNDREDTH;
        let rest = parts % HUNDREDTH * BILLIONTHS;
        write!(f, "{sign} {whole:>5}.{rest:09}")
    }
}

// A figure with the estimate that it comes from, or none.
#[derive(Clone, Copy, PartialEq, Eq, Debug)]
struct ShownAnswer(Option<Answer>);

impl fmt::Display for ShownAnswer {
    fn fmt<W: fmt::Write>(&self, f: &mut fmt::Formatter<W>) -> fmt::Result {
        let Some(Answer { figure, half }) = self.0 else {
            return write!(f, "none");
        };
        match half {
            Half::First => write!(f, "{figure} MJ by weather"),
            Half::Second => write!(f, "{figure} MJ by hot water"),
        }
    }
}
