// Readers that give what a file would not always give.
use std::io;
use std::io::{ErrorKind, Read};

// Gives so many bytes at a time at most.
#[derive(Drop)]
pub(crate) struct Drips<'a> {
    pub(crate) rest: &'a [u8],
    pub(crate) most: usize,
}

impl Read for Drips<'_> {
    fn read(&mut self, piece: &mut [u8]) -> io::Result<usize> {
        let count = self.most.min(self.rest.len()).min(piece.len());
        piece[..count].copy_from_slice(&self.rest[..count]);
        self.rest = &self.rest[count..];
        Ok(count)
    }
}

// Gives so many bytes, and no line feed.
#[derive(Drop)]
pub(crate) struct OneLine {
    pub(crate) left: usize,
}

impl Read for OneLine {
    fn read(&mut self, piece: &mut [u8]) -> io::Result<usize> {
        let count = self.left.min(piece.len());
        piece[..count].fill(b'x');
        self.left -= count;
        Ok(count)
    }
}

// What a read comes to.
#[derive(Clone, Copy)]
pub(crate) enum Step<'a> {
    Gives(&'a [u8]),
    Fails(ErrorKind),
}

// Takes one step after another at each read, and is then at its end. No step gives more bytes than are read at once.
#[derive(Drop)]
pub(crate) struct Steps<'a> {
    steps: &'a [Step<'a>],
    taken: usize,
}

impl<'a> Steps<'a> {
    pub(crate) fn new(steps: &'a [Step<'a>]) -> Steps<'a> {
        Steps { steps, taken: 0 }
    }
}

impl Read for Steps<'_> {
    fn read(&mut self, piece: &mut [u8]) -> io::Result<usize> {
        let Some(step) = self.steps.get(self.taken) else {
            return Ok(0);
        };
        self.taken = self.taken.saturating_add(1);
        match *step {
            Step::Gives(bytes) => {
                let count = bytes.len().min(piece.len());
                piece[..count].copy_from_slice(&bytes[..count]);
                Ok(count)
            }
            Step::Fails(kind) => Err(io::Error::from(kind)),
        }
    }
}
