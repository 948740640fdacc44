use clap::{Arg, ArgAction, Command};
use std::alloc::{AllocError, Global};
use terms::Refusal;

// One case of each refusal, in the order of the checks; the two that name a day name none here.
const REFUSALS: [Refusal; 15] = [
    Refusal::MalformedLine,
    Refusal::OutOfTurn,
    Refusal::BeyondLimits,
    Refusal::NoSuchDate,
    Refusal::OutsideBook,
    Refusal::NegativeEnergy,
    Refusal::PointNotEnrolled,
    Refusal::PointEnrolledAlready,
    Refusal::StartIsNoMark,
    Refusal::EndNotAllowed,
    Refusal::CoveredDayWithoutLoad { date: 0 },
    Refusal::SoftOverFirm,
    Refusal::ReadingPlacesFull,
    Refusal::AskedDayWithoutLoad { date: 0 },
    Refusal::ListTooShort,
];

const ABOUT: &str =
    "Reads the lines of a book and prints a FAIL line for each that is refused, as it is met,
and then a DAY line for each day with a load.";

const LINES: &str =
    "Lines have 45 columns and a line feed: a tag of four columns, four fields of ten, and the letter of a reading.
Numbers stand at the right of their field, dates as 20240701, and fields without a name here are spaces.
Energies are in MJ, base loads and sensitivities in kJ.
  FACT  point, base load, sensitivity             as many as there are, before OPEN
  OPEN  first date, days, unaccounted-for value   once, and all others after it
  ENRL  point, retailer, start date
  GATE  date, energy in, energy out
  INTV  date, meter, energy
  DEGD  date, count in hundredths
  READ  point, start date, end date, energy, and A, S, E or C

Printed, each number at the right of ten columns:
  FAIL  line number, layer, refusal, first column of the leftmost field at fault, day named or 0
  DAY   date, load, supplied, generated, remainder, excess, missing estimates

Layers: 1 line, 2 record, 3 book. Refusals, by the first check that fails:
";

const STATUS: &str =
    "Exit status: 0 done; 1 a read, a write, a file or memory failed; 2 the words are not understood.";

// What help says behind the words: the lines that are read and printed, and what each refusal means.
pub(crate) fn ending(heap: Global) -> Result<String, AllocError> {
    let mut text = String::from_str(heap, LINES)?;
    for refusal in REFUSALS {
        let number = refusal.number();
        write!(text, "{number:>4}  {refusal}\n")?;
    }
    write!(text, "\n{STATUS}")?;
    Ok(text)
}

// The words of the program, and its help with this ending.
pub(crate) fn command<'a>(heap: Global, ending: &'a str) -> Result<Command<'a>, AllocError> {
    let files = Arg::new(heap, "FILE")
        .action(ArgAction::Append)
        .num_args(0..)
        .help("Files of lines, read in their order as one input; none is standard input");
    Command::new(heap, "daysheet")
        .bin_name("daysheet")?
        .version("0.1.0")
        .about(ABOUT)
        .after_help(ending)
        .arg(files)
}
