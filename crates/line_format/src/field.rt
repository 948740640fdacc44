ghost use Rattle.std.specs.Prelude.{◌≡◌, ◌+◌, take, drop};
ghost use Rattle.line_format.specs.Segment.{bytes_before};

/// One of the four fields of ten columns, by the number of columns before it.
#[derive(Clone, Copy, PartialEq, Eq, Debug)]
pub enum Field {
    /// Columns 5 to 14.
    First = 4,
    /// Columns 15 to 24.
    Second = 14,
    /// Columns 25 to 34.
    Third = 24,
    /// Columns 35 to 44.
    Fourth = 34,
}

impl Field {
    /// The first column of the field, counted from 1: 5, 15, 25 or 35.
    pub fn column(self) -> u8
        ensures { result ≡ bytes_before self + 1 }
    {
        self as u8 + 1
    }

    // The ten columns of the field in a line.
    pub(crate) fn columns(self, line: &[u8; 46]) -> &[u8]
        ensures { result.now ≡ take 10 (drop (bytes_before self) line.now) }
    {
        let start = self as usize;
        &line[start..start + 10]
    }
}
