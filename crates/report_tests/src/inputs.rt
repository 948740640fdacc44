// Inputs of lines, and the reports of inputs.
use report::report;
use std::alloc::{AllocError, Global};
use std::io;

// What stands in a line before its line feed.
const COLUMNS: usize = 45;

// Adds a line that is filled with spaces to its last column.
pub(crate) fn push_line(input: &mut Vec<u8>, line: &[u8]) -> Result<(), AllocError> {
    input.extend_from_slice(line)?;
    for _ in line.len()..COLUMNS {
        input.push(b' ')?;
    }
    input.push(b'\n')?;
    Ok(())
}

// An input of lines that are filled with spaces.
pub(crate) fn filled(heap: Global, lines: &str) -> Result<Vec<u8>, AllocError> {
    let mut input = Vec::new(heap);
    for line in lines.lines() {
        push_line(&mut input, line.as_bytes())?;
    }
    Ok(input)
}

// The report of an input that is read as a whole.
pub(crate) fn report_of(heap: Global, input: &[u8]) -> io::Result<Vec<u8>> {
    let mut rest = input;
    let mut text = Vec::new(heap);
    report(heap, &mut rest, &mut text)?;
    Ok(text)
}
