//! Counts the degree days of a day from what the weather stations observed, and shows what estimates make of them.
//!
//! Proved: the first word that is beyond its limits is the one that is named, and where none is, the terms and the
//! count are those of the date and its observations; a sample's figure is what the capped fall-back says it is, and the
//! half that it is said to come from is the one that answers. What is printed is compared with a stored run.
#![tactic(auto)]

mod answer;
mod command;
mod day;
mod reckoning;
mod report;
mod samples;
#[cfg(test)]
mod tests;
mod word;

use command::{WORD_COUNT, WORDS, command};
use day::Day;
use reckoning::reckon;
use report::{show_fault, show_reckoning, show_samples};
use std::env;
use std::process::ExitCode;

fn main(rt: HostRuntime) -> anyhow::Result<ExitCode> {
    let line: Vec<String> = env::args(&rt)?.collect(rt.alloc())?;
    let matches = match command(rt.alloc())?.try_get_matches_from(line.as_slice()) {
        Ok(matches) => matches,
        Err(error) => {
            error.print(&rt)?;
            return Ok(ExitCode::from(error.exit_code() as u8));
        }
    };
    let words = matches.get_strs(WORDS).unwrap_or(&[]);
    let count = words.len();
    if count != WORD_COUNT {
        eprintln!(rt; "degreedays: {WORD_COUNT} words are wanted, and there are {count}")?;
        return Ok(ExitCode::FAILURE);
    }
    let day = Day::from_words(words);
    match reckon(day.date, &day.observations) {
        Ok(reckoning) => {
            show_reckoning(&rt, day.date, &reckoning)?;
            show_samples(&rt, day.date, reckoning.count)?;
            Ok(ExitCode::SUCCESS)
        }
        Err(word) => {
            show_fault(&rt, words, word)?;
            Ok(ExitCode::FAILURE)
        }
    }
}
