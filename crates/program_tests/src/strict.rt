//! Devices that are used in one way alone or fail once, and a host whose files are such.
ghost use Rattle.std.specs.Prelude.{◌≤◌, IfOk};

use std::alloc::Allocator;
use std::cell::Cell;
use std::fs::{Files, Metadata, OpenFile, OpenOptions};
use std::io::{self, ErrorKind, Read, Seek, SeekFrom, Write};
use std::random::RandomSource;

// The number of bytes that a take asks for.
pub(crate) const TAKE: usize = 4096;

// How the reads and writes of a device end.
#[derive(Clone, Copy)]
pub(crate) struct Transfers<'a> {
    // The most bytes that one of them moves.
    pub(crate) most: usize,
    // The number of the one that fails, counted from 1, and how.
    pub(crate) failing: Option<(usize, ErrorKind)>,
    // Counts the bytes that were read.
    pub(crate) given: Option<&'a Cell<usize>>,
    // Counts how often what was written was to be synchronised.
    pub(crate) synchronised: Option<&'a Cell<usize>>,
}

impl Transfers<'_> {
    // Transfers that all end well.
    pub(crate) const GOOD: Transfers<'static> = Transfers {
        most: usize::MAX,
        failing: None,
        given: None,
        synchronised: None,
    };

    // Returns transfers of which one fails.
    pub(crate) fn failing(number: usize, kind: ErrorKind) -> Transfers<'static> {
        Transfers {
            failing: Some((number, kind)),
            ..Transfers::GOOD
        }
    }
}

// A device whose reads fail if they ask for more than [`TAKE`] bytes, and that is never to be
// flushed: it fails then, and has one more byte.
#[derive(Drop)]
pub(crate) struct Strict<'a, D> {
    pub(crate) device: D,
    pub(crate) longest: usize,
    transfers: Transfers<'a>,
    made: usize,
}

impl<'a, D> Strict<'a, D> {
    // Returns the device, from which nothing was read.
    pub(crate) fn over(device: D) -> Strict<'a, D> {
        Strict::with(device, Transfers::GOOD)
    }

    // Returns the device with these transfers.
    pub(crate) fn with(device: D, transfers: Transfers<'a>) -> Strict<'a, D> {
        Strict {
            device,
            longest: 0,
            transfers,
            made: 0,
        }
    }

    // Begins a transfer of up to `count` bytes. Returns how many it may move.
    fn begin(&mut self, count: usize) -> io::Result<usize>
        ensures { IfOk result (λ most. most ≤ count) }
    {
        self.made = self.made.saturating_add(1);
        match self.transfers.failing {
            Some((number, kind)) if number == self.made => Err(io::Error::from(kind)),
            _ => Ok(self.transfers.most.min(count)),
        }
    }
}

fn refused() -> io::Error {
    io::Error::from(ErrorKind::Other)
}

// Adds to a counter, if there is one.
fn count(counter: Option<&Cell<usize>>, more: usize) {
    if let Some(all) = counter {
        all.set(all.get().saturating_add(more));
    }
}

impl<D: Read> Read for Strict<'_, D> {
    fn read(&mut self, buf: &mut [u8]) -> io::Result<usize> {
        self.longest = self.longest.max(buf.len());
        if self.longest > TAKE {
            return Err(refused());
        }
        let most = self.begin(buf.len())?;
        let given = self.device.read(&mut buf[..most])?;
        count(self.transfers.given, given);
        Ok(given)
    }
}

impl<D: Write> Write for Strict<'_, D> {
    fn write(&mut self, buf: &[u8]) -> io::Result<usize> {
        let most = self.begin(buf.len())?;
        self.device.write(&buf[..most])
    }

    fn flush(&mut self) -> io::Result<()> {
        self.device.write(b"!")?;
        Err(refused())
    }
}

impl<D: Seek> Seek for Strict<'_, D> {
    fn seek(&mut self, to: SeekFrom) -> io::Result<u64> {
        self.device.seek(to)
    }
}

impl<D: OpenFile> OpenFile for Strict<'_, D> {
    fn metadata(&self) -> io::Result<Metadata> {
        self.device.metadata()
    }

    fn set_len(&self, size: u64) -> io::Result<()> {
        self.device.set_len(size)
    }

    fn sync_all(&self) -> io::Result<()> {
        count(self.transfers.synchronised, 1);
        Err(refused())
    }

    fn sync_data(&self) -> io::Result<()> {
        count(self.transfers.synchronised, 1);
        Err(refused())
    }
}

// The file that the key of the hasher is read from.
const KEY: &str = "/dev/urandom";

// The files of the host, each of them strict, without a source of random bytes.
#[derive(Drop)]
pub(crate) struct StrictHost<'a> {
    pub(crate) rt: &'a HostRuntime,
    // The transfers of files that are opened to be read, and of those that are created.
    pub(crate) read: Transfers<'a>,
    pub(crate) written: Transfers<'a>,
    // How each attempt to open a file to be read fails, or to create one.
    pub(crate) unopened: Option<ErrorKind>,
    pub(crate) uncreated: Option<ErrorKind>,
    // Whether a path is removed once it is open to be read.
    pub(crate) removes: bool,
    // Counts the files that are opened to be read, and those that are opened otherwise.
    pub(crate) opened: Option<&'a Cell<usize>>,
    pub(crate) created: Option<&'a Cell<usize>>,
}

impl<'a> StrictHost<'a> {
    // Returns a host whose files do not fail.
    pub(crate) fn over(rt: &'a HostRuntime) -> StrictHost<'a> {
        StrictHost {
            rt,
            read: Transfers::GOOD,
            written: Transfers::GOOD,
            unopened: None,
            uncreated: None,
            removes: false,
            opened: None,
            created: None,
        }
    }
}

impl RandomSource for StrictHost<'_> {
    fn fill_bytes(&self, _buf: &mut [u8]) -> io::Result<()> {
        Err(io::Error::from(ErrorKind::Unsupported))
    }
}

impl<'a> Files for StrictHost<'a> {
    type File = Strict<'a, <HostRuntime as Files>::File>;

    type Dir = <HostRuntime as Files>::Dir;

    fn open_file(&self, how: &OpenOptions, path: &str) -> io::Result<Self::File> {
        let (fails, transfers, counter) = if how.asks_write() {
            (self.uncreated, self.written, self.created)
        } else {
            (self.unopened, self.read, self.opened)
        };
        let is_key = path == KEY;
        if !is_key {
            count(counter, 1);
        }
        if let Some(kind) = fails {
            return Err(io::Error::from(kind));
        }
        let file = self.rt.open_file(how, path)?;
        if self.removes && !how.asks_write() && !is_key {
            Files::remove_file(self.rt, path)?;
        }
        Ok(Strict::with(file, transfers))
    }

    fn open_dir(&self, path: &str) -> io::Result<Self::Dir> {
        self.rt.open_dir(path)
    }

    fn metadata(&self, path: &str) -> io::Result<Metadata> {
        Files::metadata(self.rt, path)
    }

    fn symlink_metadata(&self, path: &str) -> io::Result<Metadata> {
        Files::symlink_metadata(self.rt, path)
    }

    fn copy(&self, from: &str, to: &str) -> io::Result<u64> {
        Files::copy(self.rt, from, to)
    }

    fn rename(&self, from: &str, to: &str) -> io::Result<()> {
        Files::rename(self.rt, from, to)
    }

    fn remove_file(&self, path: &str) -> io::Result<()> {
        Files::remove_file(self.rt, path)
    }

    fn create_dir(&self, path: &str) -> io::Result<()> {
        Files::create_dir(self.rt, path)
    }

    fn remove_dir(&self, path: &str) -> io::Result<()> {
        Files::remove_dir(self.rt, path)
    }

    fn remove_dir_all<B: Allocator>(&self, alloc: B, path: &str) -> io::Result<()> {
        Files::remove_dir_all(self.rt, alloc, path)
    }
}
