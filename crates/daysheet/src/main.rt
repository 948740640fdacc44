//! daysheet: the lines of a book in, a line for each refusal and each day with a load out.
#![tactic(auto)]

mod command;

use clap::error::ErrorKind;
use command::{command, ending};
use report::Feed;
use std::env;
use std::fs::File;
use std::io::{self, BufWriter, Write};
use std::process::ExitCode;

fn main(rt: HostRuntime) -> anyhow::Result<ExitCode> {
    let heap = rt.alloc();
    let words: Vec<String> = env::args(&rt)?.collect(heap)?;
    let ending = ending(heap)?;
    let mut command = command(heap, ending.as_str())?;
    // Help goes before all else, whatever the other words are.
    if words.iter().skip(1).any(|word| word.as_str() == "--help") {
        let help = command.render_help()?;
        print!(rt; "{help}")?;
        return Ok(ExitCode::SUCCESS);
    }
    match command.try_get_matches_from(words.as_slice()) {
        Ok(matches) => report_files(&rt, matches.get_strs("FILE").unwrap_or(&[])),
        Err(error) => answer_words(&rt, &error),
    }
}

// Help or the version, or in one line why the words are not understood.
fn answer_words(rt: &HostRuntime, error: &clap::Error) -> anyhow::Result<ExitCode> {
    if !error.use_stderr() {
        error.print(rt)?;
        return Ok(ExitCode::SUCCESS);
    }
    if error.kind() == ErrorKind::OutOfMemory {
        eprintln!(rt; "daysheet: out of memory")?;
        return Ok(ExitCode::FAILURE);
    }
    let text = format!(in rt.alloc(); "{error}")?;
    let fault = text.lines().next().unwrap_or("");
    let fault = fault.strip_prefix("error: ").unwrap_or(fault);
    eprintln!(rt; "daysheet: {fault}; 'daysheet --help' says what is")?;
    Ok(ExitCode::from(2))
}

// Reads the files in their order, as if they stood in one, or standard input where there is none,
// and prints the report.
fn report_files(rt: &HostRuntime, paths: &[&str]) -> anyhow::Result<ExitCode> {
    let heap = rt.alloc();
    let mut feed = Feed::new(heap)?;
    let mut output = BufWriter::new(heap, rt.stdout())?;
    if paths.is_empty() {
        feed.read(heap, &mut rt.stdin(), &mut output)?;
    }
    for path in paths {
        match File::open(rt, path) {
            Ok(mut file) => feed.read(heap, &mut file, &mut output)?,
            Err(fault) => {
                eprintln!(rt; "daysheet: {path}: {fault}")?;
                return Ok(ExitCode::FAILURE);
            }
        }
    }
    feed.finish(&mut output)?;
    output.flush()?;
    Ok(ExitCode::SUCCESS)
}
