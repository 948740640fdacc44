ghost use Rattle.std.specs.Prelude.{length, [], IfOk, OnOk};
ghost use Rattle.std.specs.Io.{ReadsAtMost};
ghost use Rattle.std.specs.Io.KnownBytes.{ReadConsumes};
ghost use Rattle.report.specs.Feed.{EndsInput, EndsLine, IsFeedOf, ReadsAll, ReadsPiece, TakesBytes, WritesDayLine, WritesDayLines};

use crate::{FailLine, Intake, LineStart};
use std::alloc::{AllocError, Global};
use std::io;
use std::io::{ErrorKind, Read, Write};

// How many bytes are read at once.
const PIECE: usize = 65_536;

/// An input as it comes, in pieces of any size: the intake of the lines that ended, and the start
/// of the line that has no end yet.
///
/// Where a method answers an error of the writer or the reader, what was taken and written until
/// then is open.
#[derive(Drop)]
pub struct Feed {
    pub(crate) intake: Intake,
    pub(crate) line: LineStart,
}

// Reads once more, as often as a read is interrupted.
fn read_piece<R: Read>(input: &mut R, piece: &mut [u8]) -> io::Result<usize>
    ensures bound { ReadsAtMost result piece.new }
    ensures bytes { ReadConsumes (R.remaining input.old) (R.remaining input.new) result piece.new }
{
    // Counted, since nothing says that the interruptions end.
    for _ in 0..u64::MAX {
        match input.read(piece) {
            Err(e) if e.kind() == ErrorKind::Interrupted => {}
            answer => return answer,
        }
    }
    Err(io::Error::from(ErrorKind::Interrupted))
}

impl Feed {
    /// A feed that no byte has reached. All memory that its book will need is taken here; the error
    /// is that there is not so much.
    pub fn new(heap: Global) -> Result<Feed, AllocError>
        ensures { IfOk result (IsFeedOf [] []) }
    {
        let intake = Intake::new(heap)?;
        let line = LineStart::new();
        Ok(Feed { intake, line })
    }

    /// Takes all bytes of an input, piece by piece, and writes the refusals of the lines that end
    /// in them. What was written leaves the writer before each wait for more.
    pub fn read<R: Read, W: Write>(
        &mut self,
        heap: Global,
        input: &mut R,
        output: &mut W,
    ) -> io::Result<()>
        ensures { OnOk result (ReadsAll (R.remaining input.old) (R.remaining input.new)
            self.old self.new (W.contents output.old) (W.contents output.new)) }
    {
        let mut piece = vec![in heap; 0; PIECE]?;
        // Counted, since nothing says that a reader ends.
        for _ in 0..u64::MAX {
            if self.take_piece(input, piece.as_mut_slice(), output)? == 0 {
                return Ok(());
            }
        }
        Err(io::Error::from(ErrorKind::Other))
    }

    // Takes one piece of an input, and answers how many bytes it had. What was written so far
    // leaves the writer before the wait.
    fn take_piece<R: Read, W: Write>(
        &mut self,
        input: &mut R,
        piece: &mut [u8],
        output: &mut W,
    ) -> io::Result<usize>
        ensures { IfOk result (λ n. ReadsPiece n (length piece.old)
            (R.remaining input.old) (R.remaining input.new)
            self.old self.new (W.contents output.old) (W.contents output.new)) }
    {
        output.flush()?;
        let count = read_piece(input, piece)?;
        self.take(&piece[..count], output)?;
        Ok(count)
    }

    /// Takes the next bytes of the input, and writes the refusals of the lines that end in them. A
    /// line feed ends a line.
    pub fn take<W: Write>(&mut self, bytes: &[u8], output: &mut W) -> io::Result<()>
        ensures { OnOk result
            (TakesBytes bytes.now self.old self.new (W.contents output.old) (W.contents output.new)) }
    {
        for byte in bytes {
            self.line.push(*byte);
            if *byte == b'\n' {
                self.end_line(output)?;
            }
        }
        Ok(())
    }

    // Takes the line that ended, and writes its refusal if it is refused.
    fn end_line<W: Write>(&mut self, output: &mut W) -> io::Result<()>
        ensures { OnOk result
            (EndsLine self.old self.new (W.contents output.old) (W.contents output.new)) }
    {
        let answer = self.intake.take(self.line.bytes());
        self.line.clear();
        match answer {
            Ok(()) => Ok(()),
            Err(fault) => writeln!(output, "{}", FailLine(fault)),
        }
    }

    /// Ends the input: bytes behind its last line feed are a line too. Then it writes the line of
    /// each day that has a load, in the order of their dates.
    pub fn finish<W: Write>(mut self, output: &mut W) -> io::Result<()>
        ensures { OnOk result (EndsInput self (W.contents output.old) (W.contents output.new)) }
    {
        if !self.line.is_empty() {
            self.end_line(output)?;
        }
        self.write_days(output)
    }

    // Writes the lines of the days with a load, in the order of their dates.
    fn write_days<W: Write>(&self, output: &mut W) -> io::Result<()>
        ensures { OnOk result
            (WritesDayLines self.now (W.contents output.old) (W.contents output.new)) }
    {
        for day in 0..self.intake.days() {
            self.write_day(day, output)?;
        }
        Ok(())
    }

    // Writes the line of a day of the book, if it has a load.
    fn write_day<W: Write>(&self, day: u32, output: &mut W) -> io::Result<()>
        ensures { OnOk result
            (WritesDayLine day self.now (W.contents output.old) (W.contents output.new)) }
    {
        match self.intake.day(day) {
            Some(line) => writeln!(output, "{line}"),
            None => Ok(()),
        }
    }
}
