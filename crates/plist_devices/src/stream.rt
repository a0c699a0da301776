//! A source or sink over a borrowed reader or writer of the standard library.
ghost use Rattle.std.specs.Prelude.{◌≡◌, ◌<◌, Some};
ghost use Rattle.plist_devices.specs.Count.{count_limit};
ghost use Rattle.plist_devices.specs.Sink.{IsOneWrite, IsPut};
ghost use Rattle.plist_devices.specs.Source.{IsTake};

use crate::reader_source::take_from;
use crate::writer_sink::put_on;
use crate::{DeviceFault, ReadDevice, Sink, Source, WriteDevice};

/// A source over a borrowed reader of the standard library, or a sink over a borrowed writer.
///
/// Like [`ReaderSource`](crate::ReaderSource) and [`WriterSink`](crate::WriterSink), but the lender
/// of the device knows what is left of it, or what was put on it.
#[derive(Drop)]
pub struct Stream<'a, D> {
    device: &'a mut D,
    failures: u64,
}

impl<'a, D> Stream<'a, D> {
    ghost use Rattle.plist_devices.specs.Stream.{device_now, stream_device, stream_failures};

    /// Creates a source that reads from `device`, or a sink that writes to it.
    pub fn new(device: &'a mut D) -> Stream<'a, D>
        ensures device { stream_device result ≡ Some device.entry.ghost_name }
        ensures now { device_now result ≡ device.old }
        ensures failures { stream_failures result ≡ 0 }
    {
        Stream {
            device,
            failures: 0,
        }
    }
}

impl<D: ReadDevice> Source for Stream<'_, D> {
    ghost use Rattle.plist_devices.specs.Stream.{device_now, stream_device, stream_failures};
    ghost use Rattle.plist_devices.specs.Stream.{stream_view};

    ghost remaining = { stream_view D.remaining };

    ghost failures = { stream_failures };

    ghost device = { stream_device };

    fn take(&mut self, into: &mut [u8]) -> Result<usize, DeviceFault>
        ensures take { IsTake (stream_view D.remaining self.old)
            (stream_view D.remaining self.new)
            (stream_failures self.old) (stream_failures self.new) result into.new }
        ensures same { stream_device self.new ≡ stream_device self.old }
        // A take is one read of the device. It fails if the read fails or the count is at its
        // maximum.
        ensures read { stream_failures self.old < count_limit
            → D.read_gives (device_now self.old) (device_now self.new) into.new result }
    {
        take_from(self.device, &mut self.failures, into)
    }

    fn failures(&self) -> u64 {
        self.failures
    }
}

impl<D: WriteDevice> Sink for Stream<'_, D> {
    ghost use Rattle.plist_devices.specs.Stream.{device_now, stream_device, stream_failures};
    ghost use Rattle.plist_devices.specs.Stream.{stream_view};

    ghost taken = { stream_view D.contents };

    ghost failures = { stream_failures };

    ghost device = { stream_device };

    fn put(&mut self, piece: &[u8]) -> Result<usize, DeviceFault>
        ensures put { IsPut (stream_view D.contents self.old) (stream_view D.contents self.new)
            (stream_failures self.old) (stream_failures self.new) result piece.now }
        ensures same { stream_device self.new ≡ stream_device self.old }
        // A put is one write of the device. It fails if the write fails or the count is at its
        // maximum.
        ensures write { stream_failures self.old < count_limit
            → IsOneWrite D.write_gives (device_now self.old) (device_now self.new)
            piece.now result }
    {
        put_on(self.device, &mut self.failures, piece)
    }

    fn failures(&self) -> u64 {
        self.failures
    }
}
