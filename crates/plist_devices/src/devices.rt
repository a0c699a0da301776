//! Readers and writers whose reads and writes contracts can name as relations.
ghost use Rattle.std.specs.Prelude.{ℕ, List, Option, Result};
ghost use Rattle.std.specs.Io.{ReadsAtMost, WritesAtMost};
ghost use Rattle.std.specs.Io.KnownBytes.{ReadConsumes, WriteAppends};
ghost use Rattle.plist_devices.specs.Device.{Reads, Writes};
ghost use Rattle.plist_devices.specs.declared.faults.DeviceFault.{DeviceFault};

use crate::DeviceFault;
use std::io::{Read, Write};

/// A device that is read. Every `Read` is one.
pub trait ReadDevice {
    // The bytes still to come, if the device knows them.
    ghost remaining: { Self → Option (List ℕ) };

    // Relates the device before and after a read to the buffer after it and the result.
    ghost read_gives: { Self → Self → List ℕ → Result ℕ DeviceFault → Type 0 };

    /// Reads once into the start of `into` and returns the number of bytes read.
    fn read_once(&mut self, into: &mut [u8]) -> Result<usize, DeviceFault>
        ensures within { ReadsAtMost result into.new }
        ensures octets { ReadConsumes (remaining self.old) (remaining self.new) result into.new }
        ensures gives { read_gives self.old self.new into.new result };
}

impl<R: Read> ReadDevice for R {
    ghost remaining = { R.remaining };

    ghost read_gives = { Reads R.remaining };

    fn read_once(&mut self, into: &mut [u8]) -> Result<usize, DeviceFault> {
        match self.read(into) {
            Ok(given) => Ok(given),
            Err(_) => Err(DeviceFault),
        }
    }
}

/// A device that is written. Every `Write` is one.
pub trait WriteDevice {
    // The bytes taken, if the device knows them.
    ghost contents: { Self → Option (List ℕ) };

    // Relates the device before and after a write to the piece and the result.
    ghost write_gives: { Self → Self → List ℕ → Result ℕ DeviceFault → Type 0 };

    /// Writes once from the start of `piece` and returns the number of bytes taken.
    fn write_once(&mut self, piece: &[u8]) -> Result<usize, DeviceFault>
        ensures within { WritesAtMost result piece.now }
        ensures octets { WriteAppends (contents self.old) (contents self.new) result piece.now }
        ensures gives { write_gives self.old self.new piece.now result };
}

impl<W: Write> WriteDevice for W {
    ghost contents = { W.contents };

    ghost write_gives = { Writes W.contents };

    fn write_once(&mut self, piece: &[u8]) -> Result<usize, DeviceFault> {
        match self.write(piece) {
            Ok(taken) => Ok(taken),
            Err(_) => Err(DeviceFault),
        }
    }
}
