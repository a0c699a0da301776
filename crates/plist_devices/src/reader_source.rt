//! A source over a reader of the standard library.
ghost use Rattle.std.specs.Prelude.{◌≡◌, ◌<◌};
ghost use Rattle.plist_devices.specs.Count.{count_limit};
ghost use Rattle.plist_devices.specs.Source.{IsTake};

use crate::{DeviceFault, ReadDevice, Source};
use std::io::Read;

/// Adapts a reader of the standard library to a [`Source`]. Each take is one read, and fails if the
/// read fails.
///
/// The remaining bytes are known if the reader knows them, as one over memory does.
#[derive(Debug, Drop)]
pub struct ReaderSource<R> {
    device: R,
    failures: u64,
}

impl<R: Read> ReaderSource<R> {
    ghost use Rattle.plist_devices.specs.ReaderSource.{octets_to_come, reader_failures};

    /// Creates a source that reads from `device`.
    pub fn new(device: R) -> ReaderSource<R>
        ensures octets { octets_to_come R.remaining result ≡ R.remaining device }
        ensures failures { reader_failures result ≡ 0 }
    {
        ReaderSource {
            device,
            failures: 0,
        }
    }
}

impl<D: ReadDevice> Source for ReaderSource<D> {
    ghost use Rattle.plist_devices.specs.ReaderSource.{reader_device, octets_to_come};
    ghost use Rattle.plist_devices.specs.ReaderSource.{reader_failures};

    ghost remaining = { octets_to_come D.remaining };

    ghost failures = { reader_failures };

    fn take(&mut self, into: &mut [u8]) -> Result<usize, DeviceFault>
        ensures take { IsTake (octets_to_come D.remaining self.old)
            (octets_to_come D.remaining self.new)
            (reader_failures self.old) (reader_failures self.new) result into.new }
        // A take is one read of the device. It fails if the read fails or the count is at its
        // maximum.
        ensures read { reader_failures self.old < count_limit
            → D.read_gives (reader_device self.old) (reader_device self.new) into.new result }
    {
        take_from(&mut self.device, &mut self.failures, into)
    }

    fn failures(&self) -> u64 {
        self.failures
    }
}

// Reads from the device once and counts a failure.
pub(crate) fn take_from<D: ReadDevice>(
    device: &mut D,
    failures: &mut u64,
    into: &mut [u8],
) -> Result<usize, DeviceFault>
    ensures take { IsTake (D.remaining device.old) (D.remaining device.new)
        failures.old failures.new result into.new }
    ensures read { failures.old < count_limit
        → D.read_gives device.old device.new into.new result }
{
    if *failures == u64::MAX {
        return Err(DeviceFault);
    }
    let result = device.read_once(into);
    if result.is_err() {
        *failures += 1;
    }
    result
}
