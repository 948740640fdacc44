// A read, a write or a flush that fails ends the report with its error, and nothing more is read or written.
use super::inputs::{filled, report_of};
use super::readers::{Drips, Step, Steps};
use super::reported_inputs::TWO_DAYS;
use super::writers::{Narrow, Withholds};
use report::{Feed, report};
use std::alloc::Global;
use std::io;
use std::io::ErrorKind;
use std::process::Abort;
use std::test::Fail;

#[test]
fn failed_writes(rt: HostRuntime) -> Result<(), Fail> {
    let heap = rt.alloc();
    let input = filled(heap, TWO_DAYS.lines)?;
    let whole = report_of(heap, input.as_slice())?;
    for room in 0..whole.len() {
        let mut output = Narrow {
            taken: Vec::new(heap),
            room,
            failed: 0,
        };
        let mut rest = input.as_slice();
        let answer = report(heap, &mut rest, &mut output);
        let kind = answer.err().map(|error| error.kind());
        assert_eq!(rt; kind, Some(ErrorKind::StorageFull), "{room}");
        assert_eq!(rt; output.failed, 1, "{room}");
        assert_eq!(rt;
            Some(output.taken.as_slice()),
            whole.as_slice().get(..room),
            "{room}"
        );
    }
    Ok(())
}

// What was refused before a read failed is reported, and no day is.
#[test]
fn failed_reads(rt: HostRuntime) -> Result<(), Fail> {
    let heap = rt.alloc();
    let input = filled(heap, TWO_DAYS.lines)?;
    let fails = Step::Fails(ErrorKind::ConnectionReset);
    let at_once = [fails, Step::Gives(input.as_slice())];
    let later = [
        Step::Gives(input.as_slice()),
        Step::Gives(b"GATE"),
        fails,
        Step::Gives(b"\n"),
    ];
    for (steps, wanted) in [(&at_once[..], ""), (&later[..], TWO_DAYS.refusals)] {
        let mut text = Vec::new(heap);
        let answer = report(heap, &mut Steps::new(steps), &mut text);
        let kind = answer.err().map(|error| error.kind());
        assert_eq!(rt; kind, Some(ErrorKind::ConnectionReset));
        assert_eq!(rt; text.as_slice(), wanted.as_bytes());
    }
    Ok(())
}

// The report of an input that is read line by line.
fn report_by_lines(heap: Global, input: &[u8], output: &mut Withholds) -> io::Result<()> {
    let mut lines = Drips {
        rest: input,
        most: 46,
    };
    report(heap, &mut lines, output)
}

// A feed reads an input line by line, and is not ended.
fn feed_by_lines(heap: Global, input: &[u8], output: &mut Withholds) -> io::Result<()> {
    let mut lines = Drips {
        rest: input,
        most: 46,
    };
    Feed::new(heap)?.read(heap, &mut lines, output)
}

// The flush after so many is the one that failed, and the last that was asked for.
fn check_flush_failed(rt: &impl Abort, answer: io::Result<()>, output: &Withholds, before: usize) {
    let kind = answer.err().map(|error| error.kind());
    assert_eq!(rt; kind, Some(ErrorKind::StorageFull), "{before}");
    assert_eq!(rt; output.flushes.checked_sub(1), Some(before));
}

// The first flush, each between, and the last, after which nothing is written any more.
#[test]
fn failed_flushes(rt: HostRuntime) -> Result<(), Fail> {
    let heap = rt.alloc();
    let input = filled(heap, TWO_DAYS.lines)?;
    let mut good = Withholds::new(heap, None);
    report_by_lines(heap, input.as_slice(), &mut good)?;
    assert!(rt; good.flushes >= 3);
    for before in 0..good.flushes {
        let mut output = Withholds::new(heap, Some(before));
        let answer = report_by_lines(heap, input.as_slice(), &mut output);
        check_flush_failed(&rt, answer, &output, before);
    }
    Ok(())
}

#[test]
fn failed_flushes_of_a_feed(rt: HostRuntime) -> Result<(), Fail> {
    let heap = rt.alloc();
    let input = filled(heap, TWO_DAYS.lines)?;
    let mut good = Withholds::new(heap, None);
    feed_by_lines(heap, input.as_slice(), &mut good)?;
    assert!(rt; good.flushes >= 3);
    for before in 0..good.flushes {
        let mut output = Withholds::new(heap, Some(before));
        let answer = feed_by_lines(heap, input.as_slice(), &mut output);
        check_flush_failed(&rt, answer, &output, before);
    }
    Ok(())
}
