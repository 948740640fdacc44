use line_format::{Fault, Limits, check_line, write_record};
use std::process::Abort;
use std::test::Fail;
use terms::Refusal;

// A line, and what it is answered.
#[derive(Clone, Copy)]
pub(crate) struct Row(pub(crate) &'static [u8], pub(crate) Result<(), Fault>);

// What a good line is answered.
pub(crate) const GOOD: Result<(), Fault> = Ok(());

// What a malformed line is answered, by the column at fault.
pub(crate) fn malformed(column: u8) -> Result<(), Fault> {
    refused(Refusal::MalformedLine, column)
}

// The same of a line with a number beyond its limits.
pub(crate) fn beyond_limits(column: u8) -> Result<(), Fault> {
    refused(Refusal::BeyondLimits, column)
}

// The same of a line with a date that does not exist.
pub(crate) fn no_such_date(column: u8) -> Result<(), Fault> {
    refused(Refusal::NoSuchDate, column)
}

fn refused(refusal: Refusal, column: u8) -> Result<(), Fault> {
    Err(Fault { refusal, column })
}

const LIMITS: Limits = Limits {
    days: 62,
    points: 32,
};

// Each line is answered as the table has it, and a good one is written again with the same bytes.
pub(crate) fn check_rows(rt: &impl Abort, rows: &[Row]) -> Result<(), Fail> {
    for Row(line, expected) in rows {
        match expected {
            Ok(()) => check_good(rt, line)?,
            Err(expected) => check_refused(rt, line, *expected)?,
        }
    }
    Ok(())
}

fn check_good(rt: &impl Abort, line: &[u8]) -> Result<(), Fail> {
    let Ok(record) = check_line(1, line, LIMITS) else {
        return Err(Fail::new("a good line is refused"));
    };
    let mut again = [0; 46];
    assert!(rt; write_record(&record, &mut again).is_ok());
    assert_eq!(rt; &again[..], line);
    Ok(())
}

fn check_refused(rt: &impl Abort, line: &[u8], expected: Fault) -> Result<(), Fail> {
    let Err(fault) = check_line(1, line, LIMITS) else {
        return Err(Fail::new("a line that is to be refused is taken"));
    };
    assert_eq!(rt; fault.refusal, expected.refusal);
    assert_eq!(rt; fault.column, expected.column);
    Ok(())
}
