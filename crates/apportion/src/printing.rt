use super::fault::Fault;
use super::request::{LARGEST_ENERGY, LARGEST_LOAD};
use super::table::DayLine;
use super::words::WordFault;
use estimators::DAYS;
use std::io;

// How the program is called, and what it does.
pub(crate) fn print_usage(rt: &impl Print) -> io::Result<()> {
    println!(rt; "apportion ENERGY LOAD LOAD ..")?;
    println!(rt;
        "Spreads a metered energy (MJ, 0 to {LARGEST_ENERGY}) over the net system loads (MJ, 0 to {LARGEST_LOAD})"
    )?;
    println!(rt; "of 1 to {DAYS} consecutive days, by their weights: the load, or 1 where it is 0.")
}

// A line for each day, and the sum of the shares.
pub(crate) fn print_table(rt: &impl Print, lines: &[DayLine]) -> io::Result<()> {
    println!(rt; " day        load      weight   running sum       share")?;
    let mut total = 0u64;
    for (i, line) in lines.iter().enumerate() {
        let day = i + 1;
        let DayLine {
            load,
            weight,
            running_sum,
            share,
        } = *line;
        println!(rt; "{day:>4} {load:>11} {weight:>11} {running_sum:>13} {share:>11}")?;
        total = total.saturating_add(share);
    }
    println!(rt; "total {total:>48}")
}

// Why there is no table, in one line.
pub(crate) fn print_fault(rt: &impl Eprint, fault: Fault, words: &[String]) -> io::Result<()> {
    match fault {
        Fault::Word { index, why } => print_word_fault(rt, index, why, words),
        _ => eprintln!(rt; "apportion: {fault}"),
    }
}

// Names the word at fault, counted from 1, and says why.
fn print_word_fault(
    rt: &impl Eprint,
    index: usize,
    why: WordFault,
    words: &[String],
) -> io::Result<()> {
    let word = words.get(index).map_or("", |word| word.as_str());
    let number = index.saturating_add(1);
    // By its index, which is all that a request tells of a word at fault: the energy stands first.
    let (name, most) = if index == 0 {
        ("energy", LARGEST_ENERGY)
    } else {
        ("load", LARGEST_LOAD)
    };
    match why {
        WordFault::NotANumber => {
            eprintln!(rt; "apportion: word {number}, the {name} '{word}', {why}")
        }
        WordFault::BeyondLimit => {
            eprintln!(rt; "apportion: word {number}, the {name} '{word}', {why} of {most} MJ")
        }
    }
}
