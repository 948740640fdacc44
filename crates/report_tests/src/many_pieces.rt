// Inputs of more than 1,000 pieces, and pieces of 4,096 bytes and more.
use super::inputs::{filled, push_line};
use super::readers::{Drips, Step, Steps};
use super::reported_inputs::TWO_DAYS;
use report::report;
use std::alloc::{AllocError, Global};
use std::io::ErrorKind;
use std::test::Fail;

// Two days, 1,500 lines that are accepted and change nothing, and at the end other loads and a line that is refused.
fn long_input(heap: Global) -> Result<Vec<u8>, AllocError> {
    let mut input = filled(heap, TWO_DAYS.lines)?;
    for _ in 0..1_500 {
        push_line(&mut input, b"DEGD  20240701       500")?;
    }
    push_line(&mut input, b"GATE  20240701       200         0")?;
    push_line(&mut input, b"GATE  20240702       600         0")?;
    input.extend_from_slice(b"GATE\n")?;
    Ok(input)
}

// The last line is 10 + 1,500 + 2 + 1 = 1,513.
const LONG_REFUSALS: &str = "FAIL        10         3         9        15         0
FAIL      1513         1         1         5         0
";

// Of 200 MJ over both days 200 x 200 / 800 = 50 and 200 x 600 / 800 = 150 are supplied; the remainders are
// 200 - 50 - 30 = 120 and 600 - 150 - 30 = 420.
const LONG_DAYS: &str = "DAY   20240701       200        50        30       120         0         0
DAY   20240702       600       150        30       420         0         0
";

// From 69,557 pieces of one byte down to two pieces.
#[test]
fn many_pieces_and_long_ones(rt: HostRuntime) -> Result<(), Fail> {
    let heap = rt.alloc();
    let input = long_input(heap)?;
    assert_eq!(rt; input.len(), 1_512 * 46 + 5);
    let wanted = format!(in heap; "{LONG_REFUSALS}{LONG_DAYS}")?;
    for most in [
        1, 46, 68, 69, 4_095, 4_096, 4_097, 8_192, 65_535, 65_536, 70_000,
    ] {
        let mut drips = Drips {
            rest: input.as_slice(),
            most,
        };
        let mut text = Vec::new(heap);
        report(heap, &mut drips, &mut text)?;
        assert_eq!(rt; text.as_slice(), wanted.as_bytes(), "{most}");
    }
    Ok(())
}

// What was refused in 1,513 good pieces is reported, then the read fails, and no day is reported.
#[test]
fn a_read_that_fails_late(rt: HostRuntime) -> Result<(), Fail> {
    let heap = rt.alloc();
    let input = long_input(heap)?;
    let mut steps = Vec::new(heap);
    for line in input.as_slice().chunks(46) {
        steps.push(Step::Gives(line))?;
    }
    assert_eq!(rt; steps.len(), 1_513);
    steps.push(Step::Fails(ErrorKind::ConnectionReset))?;
    let mut text = Vec::new(heap);
    let answer = report(heap, &mut Steps::new(steps.as_slice()), &mut text);
    let kind = answer.err().map(|error| error.kind());
    assert_eq!(rt; kind, Some(ErrorKind::ConnectionReset));
    assert_eq!(rt; text.as_slice(), LONG_REFUSALS.as_bytes());
    Ok(())
}
