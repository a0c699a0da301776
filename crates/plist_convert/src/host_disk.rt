//! The files of the host.
ghost use Rattle.std.specs.Prelude.{◌≡◌, IfOk, None, OnErr};
ghost use Rattle.plist_convert.specs.Files.{SameFiles};
ghost use Rattle.plist_convert.specs.Opens.{Puts};

use crate::file_disk::FileDisk;
use crate::opens::{Created, Opens, Steady};
use plist_devices::ReaderSource;
use plist_value::FixedHasher;
use std::alloc::{AllocError, Global};
use std::hash::BuildHasher;
use std::io::{ErrorKind, Write};
use std::rt::Files;
use std::{fs, io};

/// The files of the host, by path. Contracts know nothing about their contents.
pub type HostDisk<'a, R, H = FixedHasher> = FileDisk<HostFiles<'a, R>, H>;

/// Opens the files of the host.
#[derive(Drop)]
pub struct HostFiles<'a, R> {
    rt: &'a R,
}

impl<'a, R: Files> Opens for HostFiles<'a, R> {
    type Reader = ReaderSource<R::File>;

    type Writer = R::File;

    ghost files = { λ _. None };

    ghost limit = { λ _. 0 };

    fn open(&self, _alloc: Global, path: &str) -> io::Result<ReaderSource<R::File>> {
        match fs::open(self.rt, path) {
            Ok(file) => Ok(ReaderSource::new(file)),
            // A file of the host that cannot be opened is 50, even if the host is out of memory.
            Err(_) => Err(io::Error::from(ErrorKind::Other)),
        }
    }

    fn create<'p>(&mut self, _alloc: Global, path: &'p str) -> io::Result<Created<'p, R::File>> {
        match fs::create(self.rt, path) {
            Ok(writer) => Ok(Created { path, writer }),
            // A file of the host that cannot be created or written is 51, like 50 above.
            Err(_) => Err(io::Error::from(ErrorKind::Other)),
        }
    }

    fn append(&self, writer: &mut R::File, piece: &[u8]) -> io::Result<usize> {
        match writer.write(piece) {
            Ok(taken) => Ok(taken),
            Err(_) => Err(io::Error::from(ErrorKind::Other)),
        }
    }

    fn keep(&mut self, _alloc: Global, created: Created<'_, R::File>) -> Result<(), AllocError>
        ensures kept { IfOk result (λ _. Puts created.entry.path.now
            (R.File.contents created.entry.writer) None None) }
        ensures unchanged { OnErr result (SameFiles None None) }
    {
        drop(created);
        Ok(())
    }
}

impl<R: Files> Steady for HostFiles<'_, R> {
    ghost steady = { λ _. tt };
}

impl<'a, R: Files, H: BuildHasher + Copy> FileDisk<HostFiles<'a, R>, H> {
    ghost use Rattle.plist_convert.specs.FileDisk.{disk_failures};

    /// Returns the files that this runtime can access. The hasher is used as in
    /// [`over`](FileDisk::over).
    pub fn new(rt: &'a R, hasher: H) -> FileDisk<HostFiles<'a, R>, H>
        ensures { disk_failures result ≡ 0 }
    {
        FileDisk::over(HostFiles { rt }, hasher)
    }
}
