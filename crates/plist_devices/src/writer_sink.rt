//! A sink over an owned writer of the standard library.
ghost use Rattle.std.specs.Prelude.{◌≡◌, ◌<◌};
ghost use Rattle.plist_devices.specs.Count.{count_limit};
ghost use Rattle.plist_devices.specs.Sink.{IsOneWrite, IsPut};

use crate::{DeviceFault, Sink, WriteDevice};
use std::io::Write;

/// A sink over a writer of the standard library. A put fails if the write fails, or takes none of a
/// piece that is not empty.
///
/// The bytes taken are known if the writer knows them, as one into memory does.
#[derive(Debug, Drop)]
pub struct WriterSink<W> {
    device: W,
    failures: u64,
}

impl<W: Write> WriterSink<W> {
    ghost use Rattle.plist_devices.specs.WriterSink.{writer_taken, writer_failures};

    /// Creates a sink that writes to `device`.
    pub fn new(device: W) -> WriterSink<W>
        ensures taken { writer_taken W.contents result ≡ W.contents device }
        ensures failures { writer_failures result ≡ 0 }
    {
        WriterSink {
            device,
            failures: 0,
        }
    }
}

impl<D: WriteDevice> Sink for WriterSink<D> {
    ghost use Rattle.plist_devices.specs.WriterSink.{writer_device, writer_taken, writer_failures};

    ghost taken = { writer_taken D.contents };

    ghost failures = { writer_failures };

    fn put(&mut self, piece: &[u8]) -> Result<usize, DeviceFault>
        ensures put { IsPut (writer_taken D.contents self.old) (writer_taken D.contents self.new)
            (writer_failures self.old) (writer_failures self.new) result piece.now }
        // A put is one write of the device. It fails if the write fails or the count is at its
        // maximum.
        ensures write { writer_failures self.old < count_limit
            → IsOneWrite D.write_gives (writer_device self.old)
            (writer_device self.new) piece.now result }
    {
        put_on(&mut self.device, &mut self.failures, piece)
    }

    fn failures(&self) -> u64 {
        self.failures
    }
}

// Writes to the device once and counts a failure.
pub(crate) fn put_on<D: WriteDevice>(
    device: &mut D,
    failures: &mut u64,
    piece: &[u8],
) -> Result<usize, DeviceFault>
    ensures put { IsPut (D.contents device.old) (D.contents device.new)
        failures.old failures.new result piece.now }
    ensures write { failures.old < count_limit
        → IsOneWrite D.write_gives device.old device.new piece.now result }
{
    if *failures == u64::MAX {
        return Err(DeviceFault);
    }
    match device.write_once(piece) {
        Ok(taken) if taken > 0 || piece.is_empty() => Ok(taken),
        _ => {
            *failures += 1;
            Err(DeviceFault)
        }
    }
}
