// A book holds 256 readings at most.
use super::inputs::{push_line, report_of};
use std::alloc::{AllocError, Global};
use std::io;
use std::test::Fail;

// The days of the book: its first 33 days have loads.
const DATES: [u32; 33] = [
    20240701, 20240702, 20240703, 20240704, 20240705, 20240706, 20240707, 20240708, 20240709,
    20240710, 20240711, 20240712, 20240713, 20240714, 20240715, 20240716, 20240717, 20240718,
    20240719, 20240720, 20240721, 20240722, 20240723, 20240724, 20240725, 20240726, 20240727,
    20240728, 20240729, 20240730, 20240731, 20240801, 20240802,
];

// Lines after which eight points hold 32 readings of a day each, and point 9 is enrolled and holds none.
fn full_book(heap: Global) -> Result<Vec<u8>, AllocError> {
    let mut input = Vec::new(heap);
    push_line(&mut input, b"OPEN  20240701        62         0")?;
    for date in DATES {
        let gate = format!(in heap; "GATE{date:>10}      1000         0")?;
        push_line(&mut input, gate.as_bytes())?;
    }
    for point in 1..10 {
        let enrolment = format!(in heap; "ENRL{point:>10}         1  20240701")?;
        push_line(&mut input, enrolment.as_bytes())?;
    }
    for point in 1..9 {
        for (start, end) in DATES.iter().zip(DATES.iter().skip(1)) {
            let reading = format!(in heap; "READ{point:>10}{start:>10}{end:>10}         1A")?;
            push_line(&mut input, reading.as_bytes())?;
        }
    }
    Ok(input)
}

// The lines of refusals in a report after the full book and these lines.
fn refusals_after(heap: Global, lines: &[&str]) -> io::Result<Vec<u8>> {
    let mut input = full_book(heap)?;
    for line in lines {
        push_line(&mut input, line.as_bytes())?;
    }
    let text = report_of(heap, input.as_slice())?;
    let mut refusals = Vec::new(heap);
    for line in text.split(|byte| *byte == b'\n') {
        if line.starts_with(b"FAIL") {
            refusals.extend_from_slice(line)?;
        }
    }
    Ok(refusals)
}

// One more reading is refused, until one over two days takes the place of two; one over what is held needs no place.
#[test]
fn places_for_readings(rt: HostRuntime) -> Result<(), Fail> {
    let one_more = "READ         9  20240701  20240702         1A";
    let again = "READ         8  20240701  20240702         2A";
    let over_two = "READ         8  20240701  20240703         1A";
    let heap = rt.alloc();
    let none: &[u8] = b"";
    let refused: &[u8] = b"FAIL       300         3        13         5         0";
    assert_eq!(rt; refusals_after(heap, &[])?.as_slice(), none);
    assert_eq!(rt; refusals_after(heap, &[one_more])?.as_slice(), refused);
    assert_eq!(rt; refusals_after(heap, &[again])?.as_slice(), none);
    assert_eq!(rt;
        refusals_after(heap, &[one_more, over_two, one_more])?.as_slice(),
        refused
    );
    Ok(())
}
