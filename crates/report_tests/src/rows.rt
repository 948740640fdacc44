// Tables of lines, each with what is reported of it after an input.
use super::inputs::{filled, push_line, report_of};
use super::reported_inputs::ReportedInput;
use std::alloc::{AllocError, Global};
use std::process::Abort;
use std::test::Fail;

// How a line comes: to be filled with spaces to its last column, or as bytes just as they are.
#[derive(Clone, Copy)]
enum Line {
    ToFill(&'static str),
    AsIs(&'static [u8]),
}

// What is reported of a line that is refused: for what, and where.
#[derive(Clone, Copy)]
struct Reported {
    layer: u8,
    number: u8,
    column: u8,
    day: u32,
}

// A line, and how it is refused, if it is.
#[derive(Clone, Copy)]
pub(crate) struct Row {
    line: Line,
    refused: Option<Reported>,
}

// A line that is accepted.
pub(crate) fn accepted(line: &'static str) -> Row {
    Row {
        line: Line::ToFill(line),
        refused: None,
    }
}

// A line that is no well-formed one.
pub(crate) fn malformed(line: &'static str, column: u8) -> Row {
    refused(line, 1, 1, column)
}

// Bytes that are no line.
pub(crate) fn no_line(bytes: &'static [u8], column: u8) -> Row {
    Row {
        line: Line::AsIs(bytes),
        refused: Some(Reported {
            layer: 1,
            number: 1,
            column,
            day: 0,
        }),
    }
}

// A line that is refused by a layer and a number, and no day is named.
pub(crate) fn refused(line: &'static str, layer: u8, number: u8, column: u8) -> Row {
    refused_on(line, layer, number, column, 0)
}

// A line that is refused for a day.
pub(crate) fn refused_on(line: &'static str, layer: u8, number: u8, column: u8, day: u32) -> Row {
    Row {
        line: Line::ToFill(line),
        refused: Some(Reported {
            layer,
            number,
            column,
            day,
        }),
    }
}

impl Line {
    // Adds the line to an input.
    fn push_to(self, input: &mut Vec<u8>) -> Result<(), AllocError> {
        match self {
            Line::ToFill(line) => push_line(input, line.as_bytes()),
            Line::AsIs(bytes) => input.extend_from_slice(bytes),
        }
    }
}

// What is reported where a line is refused that comes last: what was reported before, its refusal, and the days as they were.
fn report_with(
    heap: Global,
    before: &ReportedInput,
    refused: Reported,
) -> Result<String, AllocError> {
    let line = before.lines.lines().count().saturating_add(1);
    let Reported {
        layer,
        number,
        column,
        day,
    } = refused;
    format!(in heap;
        "{}FAIL{line:>10}{layer:>10}{number:>10}{column:>10}{day:>10}\n{}",
        before.refusals, before.days
    )
}

// Each line of a table alone, after an input: a refused one is reported as the table has it and changes nothing else;
// of an accepted one no refusal is reported.
pub(crate) fn check_rows(
    rt: &(impl Abort + AllocGlobal),
    before: &ReportedInput,
    rows: &[Row],
) -> Result<(), Fail> {
    let heap = rt.alloc();
    for (i, row) in rows.iter().enumerate() {
        let mut input = filled(heap, before.lines)?;
        row.line.push_to(&mut input)?;
        let text = report_of(heap, input.as_slice())?;
        match row.refused {
            Some(refused) => {
                let wanted = report_with(heap, before, refused)?;
                assert_eq!(rt; text.as_slice(), wanted.as_bytes(), "row {i}");
            }
            None => {
                let rest = text.as_slice().strip_prefix(before.refusals.as_bytes());
                let is_accepted = rest.is_some_and(|rest| !rest.starts_with(b"FAIL"));
                assert!(rt; is_accepted, "row {i}");
            }
        }
    }
    Ok(())
}
