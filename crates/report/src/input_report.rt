ghost use Rattle.std.specs.Prelude.{OnOk};
ghost use Rattle.report.specs.Feed.{ReportsAll};
ghost use Rattle.report.specs.Report.{OneReport};

use super::feed::Feed;
use std::alloc::Global;
use std::io;
use std::io::{Read, Write};

/// Reads an input to its end and writes its report. An error is that of memory, of the reader or of
/// the writer; what was read and written until then is open.
pub fn report<R: Read, W: Write>(heap: Global, input: &mut R, output: &mut W) -> io::Result<()>
    ensures { OnOk result (ReportsAll (R.remaining input.old) (R.remaining input.new)
        (W.contents output.old) (W.contents output.new)) }
{
    let mut feed = Feed::new(heap)?;
    feed.read(heap, input, output)?;
    feed.finish(output)?;
    output.flush()
}

/// A law, with no work to do: a line has one content, and an input has one report, whatever the
/// pieces in which it came.
pub fn each_input_has_one_report()
    ensures { OneReport }
{}
