//! The trait of sources.
ghost use Rattle.std.specs.Prelude.{◌≡◌, ℕ, List, None, Option};
ghost use Rattle.std.specs.Borrow.{GName};
ghost use Rattle.plist_devices.specs.Source.{IsTake};

use crate::DeviceFault;

/// A device that gives bytes and counts the takes that failed.
///
/// The bytes that a device over memory will give are known. Of a file or a pipe no contract says
/// which bytes it gives. A source that borrows its device keeps that device.
pub trait Source {
    // The bytes still to come, if the device knows them.
    ghost remaining: { Self → Option (List ℕ) };

    // The number of takes that failed, up to `u64::MAX`.
    ghost failures: { Self → ℕ };

    // The borrowed device, if there is one.
    ghost device: { Self → Option GName } = { λ _. None };

    /// Writes some of the remaining bytes to the start of `into` and returns their number, which is
    /// 0 only at the end or if `into` is empty. The rest of `into` is then unspecified. A take that
    /// fails gives nothing and adds one to the count of failures. Once that is `u64::MAX` every
    /// take fails.
    fn take(&mut self, into: &mut [u8]) -> Result<usize, DeviceFault>
        ensures take { IsTake (remaining self.old) (remaining self.new)
            (failures self.old) (failures self.new) result into.new }
        ensures same { device self.new ≡ device self.old };

    /// Returns the number of takes that failed so far, which stays at `u64::MAX` once it is
    /// reached.
    fn failures(&self) -> u64
        ensures { result ≡ failures self.now };
}
