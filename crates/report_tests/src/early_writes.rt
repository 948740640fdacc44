// What was reported leaves before each wait for more input, and before the answer.
use super::inputs::filled;
use super::reported_inputs::TWO_DAYS;
use super::writers::Withholds;
use report::report;
use std::cell::Cell;
use std::io;
use std::io::{BufWriter, Read, Write};
use std::test::Fail;

const REFUSAL_LENGTH: usize = 55;

// Gives an empty line at each read, and notes at each whether the refusals of all lines before have arrived.
#[derive(Drop)]
struct Asks<'a> {
    arrived: &'a Cell<usize>,
    late: &'a Cell<usize>,
    given: usize,
}

// Counts the bytes that arrive.
#[derive(Drop)]
struct Counts<'a> {
    arrived: &'a Cell<usize>,
}

impl Read for Asks<'_> {
    fn read(&mut self, piece: &mut [u8]) -> io::Result<usize> {
        if self.arrived.get() != self.given.saturating_mul(REFUSAL_LENGTH) {
            self.late.set(self.late.get().saturating_add(1));
        }
        if self.given == 20 || piece.is_empty() {
            return Ok(0);
        }
        self.given = self.given.saturating_add(1);
        piece[0] = b'\n';
        Ok(1)
    }
}

impl Write for Counts<'_> {
    fn write(&mut self, bytes: &[u8]) -> io::Result<usize> {
        self.arrived
            .set(self.arrived.get().saturating_add(bytes.len()));
        Ok(bytes.len())
    }

    fn flush(&mut self) -> io::Result<()> {
        Ok(())
    }
}

// The writer is behind a buffer that would hold all of the report.
#[test]
fn refusals_leave_before_each_read(rt: HostRuntime) -> Result<(), Fail> {
    let (arrived, late) = (Cell::new(0), Cell::new(0));
    let mut input = Asks {
        arrived: &arrived,
        late: &late,
        given: 0,
    };
    let mut output = BufWriter::new(rt.alloc(), Counts { arrived: &arrived })?;
    report(rt.alloc(), &mut input, &mut output)?;
    assert_eq!(rt; late.get(), 0);
    assert_eq!(rt; arrived.get(), 20 * REFUSAL_LENGTH);
    Ok(())
}

// Where the answer is good, the lines of the days are not in a buffer any more.
#[test]
fn days_leave_before_the_answer(rt: HostRuntime) -> Result<(), Fail> {
    let heap = rt.alloc();
    let input = filled(heap, TWO_DAYS.lines)?;
    let wanted = TWO_DAYS.report(heap)?;
    let mut output = Withholds::new(heap, None);
    report(heap, &mut input.as_slice(), &mut output)?;
    assert_eq!(rt; output.arrived.as_slice(), wanted.as_bytes());
    let arrived = Cell::new(0);
    let mut buffered = BufWriter::new(heap, Counts { arrived: &arrived })?;
    report(heap, &mut input.as_slice(), &mut buffered)?;
    assert_eq!(rt; arrived.get(), wanted.len());
    Ok(())
}
