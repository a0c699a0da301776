//! Files in memory.
ghost use Rattle.std.specs.Prelude.{◌≡◌, ◌^◌, ◌-◌, ℕ, IfErr, IfOk, OnErr, None, Some};
ghost use Rattle.std.specs.Prelude.{option_map};
ghost use Rattle.std.specs.IoError.{error_kind};
ghost use Rattle.plist_convert.specs.Files.{FileName, SameBeside, SameFiles};
ghost use Rattle.plist_convert.specs.Opens.{IsUnopened, Puts, ReadsAll};

use plist_convert::opens::{Created, Opens, Steady};
use plist_devices::{DeviceFault, Source};
use std::alloc::{AllocError, Global};
use std::collections::BTreeMap;
use std::io;
use std::io::{Cursor, ErrorKind, Read};

/// Files in memory, by path. The contents of each path are known, and what is written to it has at
/// most `limit` bytes. A [`FileDisk`](plist_convert::FileDisk) over them is a disk.
#[derive(Drop)]
pub struct MemoryFiles {
    files: BTreeMap<String, Vec<u8>>,
    limit: usize,
}

impl MemoryFiles {
    ghost use Rattle.test_files.specs.MemoryFiles.{bytes_at, limit_of};

    /// Returns an opener without files, which take any number of bytes.
    pub fn new(alloc: Global) -> MemoryFiles
        ensures empty { (path : FileName) → bytes_at result path ≡ None }
        ensures limit { limit_of result ≡ 2 ^ 64 - 1 }
    {
        MemoryFiles::with_limit(alloc, usize::MAX)
    }

    /// Returns an opener without files, which take up to `limit` bytes each.
    pub fn with_limit(alloc: Global, limit: usize) -> MemoryFiles
        ensures empty { (path : FileName) → bytes_at result path ≡ None }
        ensures limit { limit_of result ≡ limit }
    {
        MemoryFiles {
            files: BTreeMap::new(alloc),
            limit,
        }
    }

    /// Writes a file with these bytes to the path, in place of one that is there.
    ///
    /// # Errors
    ///
    /// [`AllocError`] if out of memory. No file is changed then.
    pub fn put(&mut self, alloc: Global, path: &str, octets: Vec<u8>) -> Result<(), AllocError>
        ensures put { IfOk result (λ _. bytes_at self.new path.now ≡ Some octets.items) }
        ensures others { SameBeside path.now (Some (bytes_at self.old)) (Some (bytes_at self.new)) }
        ensures unchanged { OnErr result ((other : FileName)
            → bytes_at self.new other ≡ bytes_at self.old other) }
        ensures limit { limit_of self.new ≡ limit_of self.old }
    {
        let key = String::from_str(alloc, path)?;
        self.files.insert(key, octets)?;
        Ok(())
    }

    /// Returns the bytes of the file at the path.
    pub fn at(&self, path: &str) -> Option<&[u8]>
        ensures { option_map (λ octets. octets.now) result ≡ bytes_at self.now path.now }
    {
        self.files.get(path).map(|octets| octets.as_slice())
    }
}

impl Opens for MemoryFiles {
    ghost use Rattle.std.specs.Io.Cursor.{cursor_remaining};
    ghost use Rattle.test_files.specs.MemoryFiles.{bytes_at, limit_of};

    type Reader = MemoryReader;

    type Writer = Vec<u8>;

    ghost files = { λ opener. Some (bytes_at opener) };

    ghost limit = { limit_of };

    fn open(&self, alloc: Global, path: &str) -> io::Result<MemoryReader>
        ensures all { IfOk result (λ reader. ReadsAll (Some (bytes_at self.now)) path.now
            (cursor_remaining (λ v. Some v.items) reader.octets)) }
        ensures unfailed { IfOk result (λ _. ◌≡◌ {A = ℕ} 0 0) }
        ensures missing { IfErr result (IsUnopened (Some (bytes_at self.now)) path.now) }
        ensures kind { bytes_at self.now path.now ≡ None
            → IfErr result (λ error. error_kind error ≡ ErrorKind.NotFound) }
    {
        let Some(octets) = self.at(path) else {
            return Err(io::Error::from(ErrorKind::NotFound));
        };
        let octets = Vec::from_slice(alloc, octets)?;
        Ok(MemoryReader {
            octets: Cursor::new(octets),
        })
    }

    fn create<'p>(&mut self, alloc: Global, path: &'p str) -> io::Result<Created<'p, Vec<u8>>> {
        self.put(alloc, path, Vec::new(alloc))?;
        Ok(Created {
            path,
            writer: Vec::new(alloc),
        })
    }

    fn append(&self, writer: &mut Vec<u8>, piece: &[u8]) -> io::Result<usize> {
        let left = self.limit.saturating_sub(writer.len());
        let taken = left.min(piece.len());
        writer.extend_from_slice(&piece[..taken])?;
        Ok(taken)
    }

    fn keep(&mut self, alloc: Global, created: Created<'_, Vec<u8>>) -> Result<(), AllocError>
        ensures kept { IfOk result (λ _.
            Puts created.entry.path.now (Some created.entry.writer.items)
            (Some (bytes_at self.old)) (Some (bytes_at self.new))) }
        ensures unchanged { OnErr result
            (SameFiles (Some (bytes_at self.old)) (Some (bytes_at self.new))) }
        ensures limit { limit_of self.new ≡ limit_of self.old }
    {
        self.put(alloc, created.path, created.writer)
    }
}

impl Steady for MemoryFiles {
    ghost use Rattle.std.specs.Prelude.{refl};

    ghost steady = { λ _ _. refl };
}

/// Reads a file in memory. No take fails.
#[derive(Drop)]
pub struct MemoryReader {
    octets: Cursor<Vec<u8>>,
}

impl Source for MemoryReader {
    ghost use Rattle.std.specs.Io.Cursor.{cursor_remaining};

    ghost remaining = { λ reader. cursor_remaining (λ v. Some v.items) reader.octets };

    ghost failures = { λ _. 0 };

    fn take(&mut self, into: &mut [u8]) -> Result<usize, DeviceFault> {
        match self.octets.read(into) {
            Ok(given) => Ok(given),
            Err(_) => Err(DeviceFault),
        }
    }

    fn failures(&self) -> u64 {
        0
    }
}
