//! `apportion ENERGY LOAD LOAD ..`: one metered energy spread over the net system loads of consecutive days, as a
//! table. Proved: the words are read as the numbers that they write, or the first word at fault is named; the table's
//! weights, running sums and shares are those of `allocation`.
#![tactic(auto)]

mod fault;
mod printing;
mod request;
mod table;
#[cfg(test)]
mod tests;
mod words;

use fault::Fault;
use printing::{print_fault, print_table, print_usage};
use request::read_request;
use std::alloc::Global;
use std::env;
use std::process::ExitCode;
use table::{DayLine, spread};

fn main(rt: HostRuntime) -> anyhow::Result<ExitCode> {
    let heap = rt.alloc();
    let words: Vec<String> = env::args(&rt)?.skip(1).collect(heap)?;
    if words.is_empty() {
        print_usage(&rt)?;
        return Ok(ExitCode::SUCCESS);
    }
    match lines_of_words(heap, words.as_slice()) {
        Ok(lines) => {
            print_table(&rt, lines.as_slice())?;
            Ok(ExitCode::SUCCESS)
        }
        Err(fault) => {
            print_fault(&rt, fault, words.as_slice())?;
            Ok(ExitCode::FAILURE)
        }
    }
}

// The lines of the table that the words ask for.
fn lines_of_words(heap: Global, words: &[String]) -> Result<Vec<DayLine>, Fault> {
    let request = read_request(heap, words)?;
    spread(heap, request.energy, request.loads.as_slice())
}
