//! Readers, writers and sinks that fail or take little.
use plist_devices::{DeviceFault, Sink};
use std::io::{self, ErrorKind, Read, Write};

/// A reader that gives two bytes and then fails.
#[derive(Drop)]
pub struct BrokenReader {
    has_given: bool,
}

impl BrokenReader {
    pub fn new() -> BrokenReader {
        BrokenReader { has_given: false }
    }
}

impl Read for BrokenReader {
    fn read(&mut self, buf: &mut [u8]) -> io::Result<usize> {
        if self.has_given {
            return Err(io::Error::from(ErrorKind::BrokenPipe));
        }
        self.has_given = true;
        let mut two: &[u8] = b"ab";
        two.read(buf)
    }
}

/// A writer that takes one byte at a time, up to `room` bytes.
#[derive(Drop)]
pub struct Narrow {
    pub room: usize,
}

impl Write for Narrow {
    fn write(&mut self, buf: &[u8]) -> io::Result<usize> {
        let taken = self.room.min(buf.len()).min(1);
        self.room -= taken;
        Ok(taken)
    }

    fn flush(&mut self) -> io::Result<()> {
        Ok(())
    }
}

/// A writer that always fails.
#[derive(Drop)]
pub struct BrokenWriter;

impl Write for BrokenWriter {
    fn write(&mut self, _buf: &[u8]) -> io::Result<usize> {
        Err(io::Error::from(ErrorKind::Other))
    }

    fn flush(&mut self) -> io::Result<()> {
        Ok(())
    }
}

/// A sink that takes everything, and records the longest piece and the number of bytes.
#[derive(Drop)]
pub struct Noting {
    pub longest: usize,
    pub all: usize,
}

impl Sink for Noting {
    ghost use Rattle.std.specs.Prelude.{None};

    ghost taken = { λ _. None };

    ghost failures = { λ _. 0 };

    ghost longest = { λ sink. sink.longest };

    fn put(&mut self, piece: &[u8]) -> Result<usize, DeviceFault> {
        self.longest = self.longest.max(piece.len());
        self.all = self.all.saturating_add(piece.len());
        Ok(piece.len())
    }

    fn failures(&self) -> u64 {
        0
    }
}
