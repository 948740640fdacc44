// Lines of wrong length: nothing else of them is looked at.
use super::inputs::{filled, report_of};
use super::reported_inputs::TWO_DAYS;
use super::rows::{check_rows, no_line};
use std::test::Fail;

#[test]
fn lines_of_wrong_length(rt: HostRuntime) -> Result<(), Fail> {
    check_rows(
        &rt,
        &TWO_DAYS,
        &[
            no_line(b"\n", 1),
            no_line(b"x\n", 2),
            no_line(b"GATE\n", 5),
            no_line(b"GATE  20240701       100         0\n", 35),
            no_line(b"GATE  20240701       100         0          \n", 45),
            no_line(b"GATE  20240701       100         0            \n", 46),
            no_line(b"GATE  20240701       100         0             \n", 46),
            no_line(b"GATE  20240701       100         0           \r\n", 46),
            no_line(b"xxxxxxxxxxxxxxxxxxxxxxxxxxxxxxxxxxxxxxxxxxxx\n", 45),
            no_line(b"xxxxxxxxxxxxxxxxxxxxxxxxxxxxxxxxxxxxxxxxxxxxxx\n", 46),
        ],
    )
}

// A last piece without a line feed is a line of wrong length, and has a number.
#[test]
fn last_piece(rt: HostRuntime) -> Result<(), Fail> {
    check_rows(
        &rt,
        &TWO_DAYS,
        &[
            no_line(b"x", 2),
            no_line(b"GATE  20240701       100         0          ", 45),
            no_line(b"GATE  20240701       100         0           ", 46),
            no_line(b"GATE  20240701       100         0            ", 46),
            no_line(b"GATE  20240701       100         0             ", 46),
            no_line(b"GATE  20240701       100         0              ", 46),
        ],
    )
}

#[test]
fn empty_input(rt: HostRuntime) -> Result<(), Fail> {
    let text = report_of(rt.alloc(), b"")?;
    assert!(rt; text.is_empty());
    Ok(())
}

// Every line counts, malformed and empty ones too.
#[test]
fn lines_are_counted(rt: HostRuntime) -> Result<(), Fail> {
    let mut input = filled(rt.alloc(), "OPEN  20240701         2         0")?;
    input.extend_from_slice(b"\n\nGATE\n\n")?;
    let text = report_of(rt.alloc(), input.as_slice())?;
    let wanted = "FAIL         2         1         1         1         0
FAIL         3         1         1         1         0
FAIL         4         1         1         5         0
FAIL         5         1         1         1         0
";
    assert_eq!(rt; text.as_slice(), wanted.as_bytes());
    Ok(())
}
