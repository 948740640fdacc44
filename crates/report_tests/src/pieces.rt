// The report of an input does not depend on the pieces in which it is read.
use super::inputs::{filled, report_of};
use super::readers::{Drips, OneLine, Step, Steps};
use super::reported_inputs::TWO_DAYS;
use report::{Feed, report};
use std::alloc::{AllocError, Global};
use std::io::ErrorKind;
use std::test::Fail;

// A good input, and after it lines that are too short and too long, and a last piece without a line feed.
fn mixed_input(heap: Global) -> Result<Vec<u8>, AllocError> {
    let mut input = filled(heap, TWO_DAYS.lines)?;
    input.extend_from_slice(b"\nGATE\n")?;
    for _ in 0..300 {
        input.push(b'x')?;
    }
    input.extend_from_slice(b"\n\nEND")?;
    Ok(input)
}

const MIXED_REPORT: &str = "FAIL        10         3         9        15         0
FAIL        11         1         1         1         0
FAIL        12         1         1         5         0
FAIL        13         1         1        46         0
FAIL        14         1         1         1         0
FAIL        15         1         1         4         0
DAY   20240701       100        50        30        20         0         0
DAY   20240702       300       150        30       120         0         0
";

#[test]
fn pieces_of_any_size(rt: HostRuntime) -> Result<(), Fail> {
    let heap = rt.alloc();
    let input = mixed_input(heap)?;
    for most in [1, 2, 3, 44, 45, 46, 47, 91, 92, 65_536] {
        let mut drips = Drips {
            rest: input.as_slice(),
            most,
        };
        let mut text = Vec::new(heap);
        report(heap, &mut drips, &mut text)?;
        assert_eq!(rt; text.as_slice(), MIXED_REPORT.as_bytes(), "{most}");
    }
    Ok(())
}

// Two inputs, one after another, are one, wherever the cut is.
#[test]
fn two_inputs_are_one(rt: HostRuntime) -> Result<(), Fail> {
    let heap = rt.alloc();
    let input = mixed_input(heap)?;
    for cut in 0..=input.len() {
        let (mut first, mut second) = input.as_slice().split_at(cut);
        let mut text = Vec::new(heap);
        let mut feed = Feed::new(heap)?;
        feed.read(heap, &mut first, &mut text)?;
        feed.read(heap, &mut second, &mut text)?;
        feed.finish(&mut text)?;
        assert_eq!(rt; text.as_slice(), MIXED_REPORT.as_bytes(), "{cut}");
    }
    Ok(())
}

// A read that is interrupted is tried again, and loses nothing.
#[test]
fn interrupted_reads(rt: HostRuntime) -> Result<(), Fail> {
    let heap = rt.alloc();
    let input = mixed_input(heap)?;
    assert!(rt; input.len() >= 50);
    let (start, end) = input.as_slice().split_at(50);
    let again = Step::Fails(ErrorKind::Interrupted);
    let steps = [
        again,
        Step::Gives(start),
        again,
        again,
        Step::Gives(end),
        again,
    ];
    let mut text = Vec::new(heap);
    report(heap, &mut Steps::new(&steps), &mut text)?;
    assert_eq!(rt; text.as_slice(), MIXED_REPORT.as_bytes());
    Ok(())
}

// A line of megabytes ends where the input does.
#[test]
fn line_without_an_end(rt: HostRuntime) -> Result<(), Fail> {
    let heap = rt.alloc();
    let mut text = Vec::new(heap);
    report(heap, &mut OneLine { left: 8_000_000 }, &mut text)?;
    let wanted: &[u8] = b"FAIL         1         1         1        46         0\n";
    assert_eq!(rt; text.as_slice(), wanted);
    Ok(())
}

// The input that other lines are added to, by itself.
#[test]
fn sample(rt: HostRuntime) -> Result<(), Fail> {
    let input = filled(rt.alloc(), TWO_DAYS.lines)?;
    let text = report_of(rt.alloc(), input.as_slice())?;
    let wanted = TWO_DAYS.report(rt.alloc())?;
    assert_eq!(rt; text.as_slice(), wanted.as_bytes());
    Ok(())
}
