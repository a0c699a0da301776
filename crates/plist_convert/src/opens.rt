//! Opens files by path.
ghost use Rattle.std.specs.Prelude.{◌≡◌, ◌<◌, ℕ, [], IfErr, IfOk, IfSome, OnErr};
ghost use Rattle.std.specs.Prelude.{Option, Some, length};
ghost use Rattle.std.specs.Io.{WritesAtMost};
ghost use Rattle.std.specs.Io.KnownBytes.{WriteAppends};
ghost use Rattle.plist_convert.specs.Files.{Files, SameFiles};
ghost use Rattle.plist_convert.specs.Opens.{IsNew, IsUnopened, MayEmpty, NeedsMemory, Puts};
ghost use Rattle.plist_convert.specs.Opens.{ReachesLimit, ReadsAll, StaysWithin};

use plist_devices::Source;
use std::alloc::{AllocError, Global};
use std::io;
use std::io::Write;

/// A file that was created or emptied, and the writer of its contents.
#[derive(Drop)]
pub struct Created<'p, W> {
    pub path: &'p str,
    pub writer: W,
}

/// Opens and creates files by path.
///
/// An opener in memory knows the contents of each path. The host's files do not, but what is proved
/// for every opener is true of the same code with them.
pub trait Opens {
    type Reader: Source + Drop;

    type Writer: Write + Drop;

    // The contents of each path, if the opener knows them.
    ghost files: { Self → Option Files };

    // The maximum size of a file, if the opener knows the files.
    ghost limit: { Self → ℕ };

    /// Opens the file at the path to read it from its start. Fails if there is none, or if out of
    /// memory.
    fn open(&self, alloc: Global, path: &str) -> io::Result<Self::Reader>
        ensures all { IfOk result (λ reader.
            ReadsAll (files self.now) path.now (Self.Reader.remaining reader)) }
        ensures unfailed { IfOk result (λ reader. Self.Reader.failures reader ≡ 0) }
        ensures missing { IfErr result (IsUnopened (files self.now) path.now) };

    /// Creates or empties the file at the path, to write it from its start. If that fails, the file
    /// is unchanged or empty. No other file changes. The error is out of memory if the opener knows
    /// the files, and otherwise another.
    fn create<'p>(&mut self, alloc: Global, path: &'p str) -> io::Result<Created<'p, Self::Writer>>
        ensures path { IfOk result (λ created. created.path.now ≡ path.entry.now) }
        ensures new { IfOk result (λ created.
            IsNew (files self.new) (Self.Writer.contents created.writer)) }
        ensures emptied { IfOk result (λ _.
            Puts path.entry.now (Some []) (files self.old) (files self.new)) }
        ensures failed { OnErr result
            (MayEmpty path.entry.now (files self.old) (files self.new)) }
        ensures limit { limit self.new ≡ limit self.old }
        ensures memory { IfErr result (NeedsMemory (files self.old)) };

    /// Appends the start of `piece` to a created file and returns the number of bytes appended. If
    /// the opener knows the files, that is 0 only for an empty piece or a file of the maximum size.
    /// The error is as for `create`.
    fn append(&self, writer: &mut Self::Writer, piece: &[u8]) -> io::Result<usize>
        ensures within { WritesAtMost result piece.now }
        ensures octets { WriteAppends (Self.Writer.contents writer.old)
            (Self.Writer.contents writer.new) result piece.now }
        ensures fits { IfOk result (λ taken. 0 < taken →
            StaysWithin (files self.now) (limit self.now) (Self.Writer.contents writer.new)) }
        ensures full { IfOk result (λ taken. taken ≡ 0 → 0 < length piece.now →
            ReachesLimit (files self.now) (limit self.now) (Self.Writer.contents writer.old)) }
        ensures memory { IfErr result (NeedsMemory (files self.now)) };

    /// Closes the file, which then contains what its writer wrote. If out of memory, no file
    /// changes.
    fn keep(&mut self, alloc: Global, created: Created<'_, Self::Writer>) -> Result<(), AllocError>
        ensures kept { IfOk result (λ _.
            Puts created.entry.path.now (Self.Writer.contents created.entry.writer)
            (files self.old) (files self.new)) }
        ensures unchanged { OnErr result (SameFiles (files self.old) (files self.new)) }
        ensures limit { limit self.new ≡ limit self.old };
}

/// An opener whose readers have never failed, if it knows the files.
pub trait Steady: Opens {
    ghost steady: { (opener : Self) → IfSome (Self.files opener)
        (λ _. (reader : Self.Reader) → Self.Reader.failures reader ≡ 0) };
}
