//! Reads lines on standard input and prints what each says, or its number, layer, refusal and
//! column. A book has at most 62 days and 32 points.
#![tactic(auto)]

mod record_text;

use line_format::{LARGEST_BOOK, LAST_LINE_NUMBER, check_line};
use record_text::RecordText;
use std::io;
use std::io::{BufRead, BufReader};

fn main(rt: HostRuntime) -> io::Result<()> {
    let mut input = BufReader::new(rt.alloc(), rt.stdin())?;
    let mut line = Vec::new(rt.alloc());
    for count in 1..u64::MAX {
        line.clear();
        if input.read_until(b'\n', &mut line)? == 0 {
            break;
        }
        let number = count.min(LAST_LINE_NUMBER);
        match check_line(number, line.as_slice(), LARGEST_BOOK) {
            Ok(record) => println!(rt; "line {number}: {}", RecordText(record))?,
            Err(fault) => println!(rt; "{fault}")?,
        }
    }
    Ok(())
}
