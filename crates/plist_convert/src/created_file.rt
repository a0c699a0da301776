//! A file that is unchanged before its first put.
ghost use Rattle.std.specs.Prelude.{◌≡◌, ◌<◌, ◌≤◌, ℕ, None, Option, Some, option_map, length, true};
ghost use Rattle.std.specs.Prelude.{◌↔◌, [], IfErr, IfOk, IsTrue, false, take};
ghost use Rattle.std.specs.IoError.{error_kind};
ghost use Rattle.std.specs.Option.{ForSome};
ghost use Rattle.std.specs.Io.KnownBytes.{WriteAppends};
ghost use Rattle.plist_convert.specs.Files.{FileName, Files};
ghost use Rattle.plist_convert.specs.Opens.{BlamesDevice, HasWritten, IsFilled, IsUntouched};
ghost use Rattle.plist_convert.specs.Opens.{IsUnwritten};
ghost use Rattle.plist_convert.specs.Opens.{IsWithin, MayEmpty, StaysWithin, is_begun};
ghost use Rattle.plist_convert.specs.Opens.{taken_by, written_of};
ghost use Rattle.plist_convert.specs.OneProof.{IsWithin-prop, MayEmpty-prop, full-prop};
ghost use Rattle.plist_convert.specs.OneProof.{same-prop};

use crate::opens::{Created, Opens};
use plist_devices::{DeviceFault, Sink};
use plist_forms::Form;
use std::alloc::Global;
use std::io;
use std::io::ErrorKind;
use std::marker::{Brand, PhantomData};

// The path of a file that is to be created, and the form of its contents.
#[derive(Drop)]
pub(crate) struct Target<'p> {
    pub(crate) path: &'p str,
    pub(crate) form: Form,
}

// What a type knows of a file that is to be created.
pub(crate) trait KnownTarget {
    // Its path.
    ghost path: { FileName };

    // The files of its opener before it is created.
    ghost files: { Option Files };

    // Its maximum size, if its opener knows the files.
    ghost limit: { ℕ };
}

impl KnownTarget for Brand {
    ghost path = { [] };

    ghost files = { None };

    ghost limit = { 0 };
}

// The file at a path. It is created or emptied by the first put of a piece that is not empty. Once
// a put has failed, every put fails; `needs_memory` tells whether the first ran out of memory.
#[derive(Drop)]
pub(crate) struct CreatedFile<'o, 'p, O: Opens, K: KnownTarget> {
    alloc: Global,
    pub(crate) opener: &'o mut O,
    path: &'p str,
    pub(crate) created: Option<Created<'p, O::Writer>>,
    failures: u64,
    pub(crate) needs_memory: bool,
    target: PhantomData<K>,
    ghost known: { path.now ≡ K.path },
    ghost placed: { ForSome created (λ created. created.path.now ≡ K.path) },
    ghost begun: { is_begun K.files (option_map (written_of O.Writer.contents) created) ≡ true },
    ghost emptied: { MayEmpty K.path K.files (O.files opener.now) } by { MayEmpty-prop _ _ _ },
    ghost same: { IsUntouched created failures K.files (O.files opener.now) } by { same-prop _ _ },
    ghost limited: { O.limit opener.now ≡ K.limit },
    ghost within: { IsWithin K.limit
        (taken_by O.Writer.contents K.files created) } by { IsWithin-prop _ _ },
    ghost full: { 0 < failures → needs_memory ≡ false → IsFilled K.limit
        (taken_by O.Writer.contents K.files created) } by { full-prop _ _ },
    ghost memory: { O.files opener.now ≡ None → needs_memory ≡ false },
}

impl<'o, 'p, O: Opens, K: KnownTarget> CreatedFile<'o, 'p, O, K> {
    // Returns the file at the path, which is unchanged so far.
    pub(crate) fn new(alloc: Global, opener: &'o mut O, path: &'p str) -> CreatedFile<'o, 'p, O, K>
        requires path { path.now ≡ K.path }
        requires files { O.files opener.old ≡ K.files }
        requires limit { O.limit opener.old ≡ K.limit }
        ensures opener { result.opener.ghost_name ≡ opener.entry.ghost_name }
        ensures created { result.created ≡ None }
        ensures failures { result.failures ≡ 0 }
    {
        CreatedFile {
            alloc,
            opener,
            path,
            created: None,
            failures: 0,
            needs_memory: false,
            target: PhantomData,
        }
    }
}

impl<O: Opens, K: KnownTarget> Sink for CreatedFile<'_, '_, O, K> {
    ghost taken = { λ file. taken_by O.Writer.contents K.files file.created };

    ghost failures = { λ file. file.failures };

    ghost device = { λ file. Some file.opener.ghost_name };

    fn put(&mut self, piece: &[u8]) -> Result<usize, DeviceFault> {
        if self.failures > 0 {
            self.failures = self.failures.saturating_add(1);
            return Err(DeviceFault);
        }
        if piece.is_empty() {
            return Ok(0);
        }
        // Unless it ends well, the put has failed.
        self.failures = 1;
        match &mut self.created {
            Some(created) => match write_some(&*self.opener, &mut created.writer, piece) {
                Ok(taken) => {
                    self.failures = 0;
                    Ok(taken)
                }
                Err(error) => {
                    self.needs_memory = is_out_of_memory(&error);
                    Err(DeviceFault)
                }
            },
            None => match begin(self.opener, self.alloc, self.path, piece) {
                Ok(begun) => {
                    let (created, taken) = begun;
                    self.created = Some(created);
                    self.failures = 0;
                    Ok(taken)
                }
                Err(error) => {
                    self.needs_memory = is_out_of_memory(&error);
                    Err(DeviceFault)
                }
            },
        }
    }

    fn failures(&self) -> u64 {
        self.failures
    }
}

// Creates or empties the file at the path and writes the start of the piece to it. Returns the
// file and the number of bytes written, which is above 0.
//
// # Errors
//
// Fails if the file cannot be created or takes nothing. It is unchanged or empty then.
fn begin<'p, O: Opens>(
    opener: &mut O,
    alloc: Global,
    path: &'p str,
    piece: &[u8],
) -> io::Result<(Created<'p, O::Writer>, usize)>
    ensures path { IfOk result (λ begun. begun.0.path.now ≡ path.entry.now) }
    ensures some { IfOk result (λ begun. 0 < begun.1) }
    ensures within { IfOk result (λ begun. begun.1 ≤ length piece.now) }
    ensures written { IfOk result (λ begun. HasWritten (O.files opener.old)
        (O.Writer.contents begun.0.writer) (take begun.1 piece.now)) }
    ensures fits { IfOk result (λ begun. StaysWithin (O.files opener.old) (O.limit opener.old)
        (O.Writer.contents begun.0.writer)) }
    ensures emptied { MayEmpty path.entry.now (O.files opener.old) (O.files opener.new) }
    ensures limit { O.limit opener.new ≡ O.limit opener.old }
    ensures full { IfErr result (λ error. 0 < length piece.now →
        IsUnwritten (O.files opener.old) (O.limit opener.old) (Some []) error) }
    ensures memory { IfErr result (BlamesDevice (O.files opener.new)) }
{
    let created = opener.create(alloc, path)?;
    let mut created = created;
    let taken = write_some(&*opener, &mut created.writer, piece)?;
    Ok((created, taken))
}

// Writes the start of the piece and returns the number of bytes written, which is above 0.
//
// # Errors
//
// Fails if the write fails or takes nothing.
fn write_some<O: Opens>(opener: &O, writer: &mut O::Writer, piece: &[u8]) -> io::Result<usize>
    ensures some { IfOk result (λ taken. 0 < taken) }
    ensures within { IfOk result (λ taken. taken ≤ length piece.now) }
    ensures octets { WriteAppends (O.Writer.contents writer.old) (O.Writer.contents writer.new)
        result piece.now }
    ensures fits { IfOk result (λ _. StaysWithin (O.files opener.now) (O.limit opener.now)
        (O.Writer.contents writer.new)) }
    ensures full { IfErr result (λ error. 0 < length piece.now →
        IsUnwritten (O.files opener.now) (O.limit opener.now) (O.Writer.contents writer.old)
        error) }
    ensures memory { IfErr result (BlamesDevice (O.files opener.now)) }
{
    match opener.append(writer, piece)? {
        0 => Err(io::Error::from(ErrorKind::WriteZero)),
        taken => Ok(taken),
    }
}

// Returns whether the error is that memory ran out.
pub(crate) fn is_out_of_memory(error: &io::Error) -> bool
    ensures { IsTrue result ↔ (error_kind error.now ≡ ErrorKind.OutOfMemory) }
{
    match error.kind() {
        ErrorKind::OutOfMemory => true,
        _ => false,
    }
}
