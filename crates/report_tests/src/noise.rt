// Inputs that are drawn at random end well, with as many refusals as lines at most.
use super::draws::Draws;
use super::inputs::report_of;
use std::alloc::{AllocError, Global};
use std::test::Fail;

const INPUTS: u64 = 100;

// Pieces of lines, which make tags and fields now and then.
const PARTS: [&[u8]; 16] = [
    b"OPEN",
    b"FACT",
    b"ENRL",
    b"GATE",
    b"INTV",
    b"DEGD",
    b"READ",
    b"  20240701",
    b"  20240702",
    b"         1",
    b"         0",
    b"          ",
    b"           \n",
    b" \n",
    b"A\n",
    b"\n",
];

// Any bytes, a line feed among them at each tenth byte or so.
fn bytes_at_random(heap: Global, draws: &mut Draws) -> Result<Vec<u8>, AllocError> {
    let mut bytes = Vec::new(heap);
    for _ in 0..draws.below(1_000) {
        let byte = match draws.below(10) {
            0 => b'\n',
            _ => u8::try_from(draws.below(256)).unwrap_or(0),
        };
        bytes.push(byte)?;
    }
    Ok(bytes)
}

fn parts_at_random(heap: Global, draws: &mut Draws) -> Result<Vec<u8>, AllocError> {
    let mut bytes = Vec::new(heap);
    for _ in 0..draws.below(400) {
        let part = PARTS.get(draws.below(16) as usize).copied().unwrap_or(b"");
        bytes.extend_from_slice(part)?;
    }
    Ok(bytes)
}

// Whether a line of a report is one of a refusal or of a day, by its tag and its length.
fn is_report_line(line: &[u8]) -> bool {
    (line.starts_with(b"FAIL") && line.len() == 54)
        || (line.starts_with(b"DAY ") && line.len() == 74)
}

// Whether a text has lines of refusals and days alone, and no more refusals than the input has lines and a last piece.
fn is_report_of(text: &[u8], input: &[u8]) -> bool {
    let Some(lines) = text.strip_suffix(b"\n") else {
        return text.is_empty();
    };
    let are_lines = lines.split(|byte| *byte == b'\n').all(is_report_line);
    let refusals = lines
        .split(|byte| *byte == b'\n')
        .filter(|line| line.starts_with(b"FAIL"));
    are_lines && refusals.count() <= input.split(|byte| *byte == b'\n').count()
}

#[test]
fn bytes_of_any_kind(rt: HostRuntime) -> Result<(), Fail> {
    let heap = rt.alloc();
    let mut draws = Draws::new(1);
    for i in 0..INPUTS {
        let input = bytes_at_random(heap, &mut draws)?;
        let text = report_of(heap, input.as_slice())?;
        assert!(rt; is_report_of(text.as_slice(), input.as_slice()), "{i}");
    }
    Ok(())
}

#[test]
fn parts_of_lines(rt: HostRuntime) -> Result<(), Fail> {
    let heap = rt.alloc();
    let mut draws = Draws::new(2);
    for i in 0..INPUTS {
        let input = parts_at_random(heap, &mut draws)?;
        let text = report_of(heap, input.as_slice())?;
        assert!(rt; is_report_of(text.as_slice(), input.as_slice()), "{i}");
    }
    Ok(())
}
