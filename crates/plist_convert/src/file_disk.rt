//! Loads and stores files.
ghost use Rattle.std.specs.Prelude.{◌≡◌, ◌≤◌, IfErr, IfOk, IfSome, None, OnErr, OnOk};
ghost use Rattle.std.specs.Prelude.{IsErrOf, ℕ};
ghost use Rattle.plist_forms.specs.Load.{octets_or};
ghost use Rattle.plist_convert.specs.FileDisk.{IsFullAt, result_of};
ghost use Rattle.plist_convert.specs.Files.{CountsFailure, FileHolds, LoadsFile, SameFiles, Stores};
ghost use Rattle.plist_convert.specs.Opens.{HasFailing, IsUnfound, Settles};

use crate::created_file::{CreatedFile, KnownTarget, Target, is_out_of_memory};
use crate::opens::{Created, Opens, Steady};
use plist_forms::{Fault, Form, convert_octets, load_unless};
use std::alloc::{AllocError, Global};
use std::hash::BuildHasher;
use std::marker::Brand;

/// The files of an opener by path, with a count of the failures of their devices and the hasher for
/// scalars. It knows their contents and their maximum size if the opener does: then 51 occurs only
/// if an output is longer. Without that, as for the host's files, contracts say nothing about them.
#[derive(Drop)]
pub struct FileDisk<O, H> {
    opener: O,
    pub(crate) hasher: H,
    failures: u64,
}

impl<O: Opens, H: BuildHasher + Copy> FileDisk<O, H> {
    ghost use Rattle.plist_convert.specs.FileDisk.{disk_failures, files_of, limit_of};

    /// Returns a disk with the files of this opener. Scalars are hashed with the hasher of this
    /// builder. If somebody else chooses what is converted, compared or checked, pass a
    /// [`RandomState`](std::hash::RandomState): scalars chosen to collide under
    /// [`FixedHasher`](plist_value::FixedHasher) then cost no more than others.
    pub fn over(opener: O, hasher: H) -> FileDisk<O, H>
        ensures files { files_of O.files result ≡ O.files opener }
        ensures limit { limit_of O.limit result ≡ O.limit opener }
        ensures failures { disk_failures result ≡ 0 }
    {
        FileDisk {
            opener,
            hasher,
            failures: 0,
        }
    }
}

impl<O: Steady, H: BuildHasher + Copy> FileDisk<O, H> {
    ghost use Rattle.plist_convert.specs.FileDisk.{disk_failures, files_of, limit_of};

    /// Returns all bytes of the file at the path. No file is changed.
    ///
    /// # Errors
    ///
    /// [`Fault::ReadFailed`] (50) if there is no file, or it cannot be opened or read;
    /// [`Fault::InputTooLarge`] (52) if it has more than [`MAX_INPUT`](plist_forms::MAX_INPUT)
    /// bytes; [`Fault::OutOfMemory`] (60).
    pub fn load(&mut self, alloc: Global, path: &str) -> Result<Vec<u8>, Fault>
        ensures loads { LoadsFile (λ octets. octets.items)
            (files_of O.files self.old) (files_of O.files self.new)
            path.now (disk_failures self.old) (disk_failures self.new) result }
        ensures missing { IfSome (files_of O.files self.old)
            (λ at. at path.now ≡ None → IsErrOf result Fault.ReadFailed) }
        ensures limit { limit_of O.limit self.new ≡ limit_of O.limit self.old }
    {
        match self.load_unless(alloc, path, &[])? {
            Some(octets) => Ok(octets),
            None => Ok(Vec::new(alloc)),
        }
    }

    /// Returns all bytes of the file at the path, or `None` if they are the known ones, which are
    /// then not allocated a second time.
    ///
    /// # Errors
    ///
    /// Fails like [`load`](FileDisk::load).
    pub fn load_unless(
        &mut self,
        alloc: Global,
        path: &str,
        known: &[u8],
    ) -> Result<Option<Vec<u8>>, Fault>
        ensures loads { LoadsFile (octets_or known.now)
            (files_of O.files self.old) (files_of O.files self.new)
            path.now (disk_failures self.old) (disk_failures self.new) result }
        ensures missing { IfSome (files_of O.files self.old)
            (λ at. at path.now ≡ None → IsErrOf result Fault.ReadFailed) }
        ensures limit { limit_of O.limit self.new ≡ limit_of O.limit self.old }
    {
        let found = octets_at(&self.opener, alloc, path, known);
        self.failures = failures_after(self.failures, &found);
        found
    }

    /// Converts the bytes to this form and writes the output to the file at the path. The file is
    /// created or emptied when the first byte is put. Returns its size. Takes ownership
    /// of the bytes, so that their memory can be freed early.
    ///
    /// # Errors
    ///
    /// Fails like [`convert_octets`](plist_forms::convert_octets). If the bytes are refused or the
    /// form cannot encode their value, it fails before anything is put, and no file is changed.
    /// [`Fault::WriteFailed`] (51) if the file cannot be created or written, and
    /// [`Fault::OutOfMemory`] (60). After these two the file has exactly the first `sent` bytes; if
    /// `sent` is 0, it may be unchanged. No other file is changed.
    pub fn store(
        &mut self,
        alloc: Global,
        path: &str,
        octets: Vec<u8>,
        form: Form,
    ) -> Result<u64, Fault>
        ensures stores { Stores form octets.items
            (files_of O.files self.old) (files_of O.files self.new)
            (disk_failures self.old) (disk_failures self.new) path.now result }
        ensures limit { limit_of O.limit self.new ≡ limit_of O.limit self.old }

        // A file never exceeds its maximum size, and the device fails only if an output does.
        ensures fits { IfOk result (λ count.
            IfSome (files_of O.files self.old) (λ _. count ≤ limit_of O.limit self.old)) }
        ensures full { IfErr result (λ fault. IfSome (files_of O.files self.old)
            (λ _. IsFullAt form octets.items (limit_of O.limit self.old) fault)) }
    {
        let target = Target { path, form };
        let stored = write_target::<O, H, Brand>(
            &mut self.opener,
            alloc,
            self.hasher,
            target,
            octets,
        );
        self.failures = failures_after(self.failures, &stored);
        stored
    }

    /// Returns the number of devices that failed so far, up to `u64::MAX`.
    pub fn failures(&self) -> u64
        ensures { result ≡ disk_failures self.now }
    {
        self.failures
    }
}

// Returns all bytes of the file at the path, or `None` if they are the known ones.
//
// # Errors
//
// [`Fault::OutOfMemory`] (60) if out of memory; [`Fault::ReadFailed`] (50) if the file cannot be
// opened or a read fails. Otherwise fails like [`load_unless`].
fn octets_at<O: Opens>(
    opener: &O,
    alloc: Global,
    path: &str,
    known: &[u8],
) -> Result<Option<Vec<u8>>, Fault>
    ensures found { IfOk result (λ found.
        FileHolds (O.files opener.now) path.now (octets_or known.now found)) }
    ensures refused { IfErr result
        (IsUnfound (O.files opener.now) path.now (HasFailing O.Reader.failures)) }
    ensures missing { IfSome (O.files opener.now)
        (λ at. at path.now ≡ None → IsErrOf result Fault.ReadFailed) }
{
    match opener.open(alloc, path) {
        Ok(reader) => {
            let mut reader = reader;
            load_unless(alloc, &mut reader, known)
        }
        Err(error) if is_out_of_memory(&error) => Err(Fault::OutOfMemory { sent: 0 }),
        Err(_) => Err(Fault::ReadFailed),
    }
}

// Returns the count of failures after this result: one more if a device failed.
fn failures_after<T>(failures: u64, ended: &Result<T, Fault>) -> u64
    ensures { CountsFailure failures result ended.now }
{
    match ended {
        Err(Fault::ReadFailed | Fault::WriteFailed { .. }) => failures.saturating_add(1),
        _ => failures,
    }
}

// Converts the bytes to the form of the target and writes the output to its file, which is created
// at the first write and closed after the last.
//
// # Errors
//
// Fails like [`FileDisk::store`].
fn write_target<O: Opens, H: BuildHasher + Copy, K: KnownTarget>(
    opener: &mut O,
    alloc: Global,
    hasher: H,
    target: Target,
    octets: Vec<u8>,
) -> Result<u64, Fault>
    requires path { target.path.now ≡ K.path }
    requires files { O.files opener.old ≡ K.files }
    requires limit { O.limit opener.old ≡ K.limit }
    ensures stores { (before : ℕ) (after : ℕ) → CountsFailure before after result
        → Stores target.entry.form octets.items (O.files opener.old) (O.files opener.new)
        before after target.entry.path.now result }
    ensures limit { O.limit opener.new ≡ O.limit opener.old }
    ensures fits { IfOk result (λ count.
        IfSome (O.files opener.old) (λ _. count ≤ O.limit opener.old)) }
    ensures full { IfErr result (λ fault. IfSome (O.files opener.old)
        (λ _. IsFullAt target.entry.form octets.items (O.limit opener.old) fault)) }
{
    let mut file: CreatedFile<O, K> = CreatedFile::new(alloc, opener, target.path);
    let sent = convert_octets(alloc, hasher, octets, &mut file, target.form);
    let CreatedFile {
        opener,
        created,
        needs_memory,
        ..
    } = file;
    close(opener, alloc, created)?;
    told(sent, needs_memory)
}

// Closes the file, if it was created. If out of memory, no file changes.
fn close<O: Opens>(
    opener: &mut O,
    alloc: Global,
    created: Option<Created<'_, O::Writer>>,
) -> Result<(), AllocError>
    ensures settles { IfOk result (λ _.
        Settles O.Writer.contents created.entry (O.files opener.old) (O.files opener.new)) }
    ensures unchanged { OnErr result (SameFiles (O.files opener.old) (O.files opener.new)) }
    ensures limit { O.limit opener.new ≡ O.limit opener.old }
{
    match created {
        Some(created) => opener.keep(alloc, created),
        None => Ok(()),
    }
}

// Returns the result of a store: if memory ran out for the file, the device has not failed.
fn told(sent: Result<u64, Fault>, needs_memory: bool) -> Result<u64, Fault>
    ensures { result ≡ result_of sent needs_memory }
{
    match sent {
        Err(Fault::WriteFailed { sent }) if needs_memory => Err(Fault::OutOfMemory { sent }),
        _ => sent,
    }
}
