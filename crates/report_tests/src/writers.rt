// Writers that fail, and one that keeps what it takes until it is flushed.
use std::alloc::Global;
use std::io;
use std::io::{ErrorKind, Write};

// Takes so many bytes, and then fails at each write.
#[derive(Drop)]
pub(crate) struct Narrow {
    pub(crate) taken: Vec<u8>,
    pub(crate) room: usize,
    // How many writes failed.
    pub(crate) failed: usize,
}

impl Write for Narrow {
    fn write(&mut self, bytes: &[u8]) -> io::Result<usize> {
        let count = self.room.min(bytes.len());
        if count == 0 && !bytes.is_empty() {
            self.failed = self.failed.saturating_add(1);
            return Err(io::Error::from(ErrorKind::StorageFull));
        }
        self.taken.extend_from_slice(&bytes[..count])?;
        self.room -= count;
        Ok(count)
    }

    fn flush(&mut self) -> io::Result<()> {
        Ok(())
    }
}

// Keeps what is written until a flush, at which it arrives. One flush may fail, and then nothing arrives.
#[derive(Drop)]
pub(crate) struct Withholds {
    pub(crate) arrived: Vec<u8>,
    withheld: Vec<u8>,
    // How many flushes were asked for.
    pub(crate) flushes: usize,
    // How many flushes succeed before the one that fails.
    failing: Option<usize>,
}

impl Withholds {
    pub(crate) fn new(heap: Global, failing: Option<usize>) -> Withholds {
        Withholds {
            arrived: Vec::new(heap),
            withheld: Vec::new(heap),
            flushes: 0,
            failing,
        }
    }
}

impl Write for Withholds {
    fn write(&mut self, bytes: &[u8]) -> io::Result<usize> {
        self.withheld.extend_from_slice(bytes)?;
        Ok(bytes.len())
    }

    fn flush(&mut self) -> io::Result<()> {
        let before = self.flushes;
        self.flushes = before.saturating_add(1);
        if self.failing == Some(before) {
            return Err(io::Error::from(ErrorKind::StorageFull));
        }
        self.arrived.extend_from_slice(self.withheld.as_slice())?;
        self.withheld.clear();
        Ok(())
    }
}
