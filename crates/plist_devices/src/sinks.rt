//! The trait of sinks.
ghost use Rattle.std.specs.Prelude.{◌≡◌, ℕ, List, None, Option, length};
ghost use Rattle.std.specs.Borrow.{GName};
ghost use Rattle.plist_devices.specs.Sink.{IsPut, IsLongest};

use crate::DeviceFault;

/// A device that takes bytes and counts the puts that failed.
///
/// The bytes that a device over memory took are known. Of a file or a pipe no contract says which
/// bytes it holds. A sink that borrows its device keeps that device.
pub trait Sink {
    // The bytes taken, if the device knows them.
    ghost taken: { Self → Option (List ℕ) };

    // The number of puts that failed, up to `u64::MAX`.
    ghost failures: { Self → ℕ };

    // The borrowed device, if there is one.
    ghost device: { Self → Option GName } = { λ _. None };

    // The length of the longest piece put so far, if the device records it.
    ghost longest: { Self → ℕ } = { λ _. 0 };

    /// Takes some bytes from the start of `piece` and returns their number, which is 0 only for an
    /// empty piece. A put that fails takes nothing and adds one to the count of failures. Once that
    /// is `u64::MAX` every put fails.
    fn put(&mut self, piece: &[u8]) -> Result<usize, DeviceFault>
        ensures put { IsPut (taken self.old) (taken self.new)
            (failures self.old) (failures self.new) result piece.now }
        ensures same { device self.new ≡ device self.old }
        ensures longest { IsLongest (longest self.old) (longest self.new) (length piece.now) };

    /// Returns the number of puts that failed so far, which stays at `u64::MAX` once it is reached.
    fn failures(&self) -> u64
        ensures { result ≡ failures self.now };
}
