//! A sink in memory that grows.
ghost use Rattle.std.specs.Prelude.{◌≡◌, [], Some, IfOk, length};
ghost use Rattle.plist_devices.specs.Sink.{IsPut};

use crate::{DeviceFault, Sink};
use std::alloc::Global;

/// A sink that appends each piece to a vector. A put fails only if out of memory, or if the count
/// of failures is `u64::MAX`.
#[derive(Drop)]
pub struct GrowingSink {
    octets: Vec<u8>,
    failures: u64,
}

impl GrowingSink {
    ghost use Rattle.plist_devices.specs.GrowingSink.{growing_sink_taken, growing_sink_failures};

    /// Creates an empty sink.
    pub fn new(alloc: Global) -> GrowingSink
        ensures taken { growing_sink_taken result ≡ [] }
        ensures failures { growing_sink_failures result ≡ 0 }
    {
        GrowingSink {
            octets: Vec::new(alloc),
            failures: 0,
        }
    }

    /// Returns the bytes taken.
    pub fn into_octets(self) -> Vec<u8>
        ensures { result.items ≡ growing_sink_taken self }
    {
        self.octets
    }
}

impl Sink for GrowingSink {
    ghost use Rattle.plist_devices.specs.GrowingSink.{growing_sink_taken, growing_sink_failures};

    ghost taken = { λ sink. Some (growing_sink_taken sink) };

    ghost failures = { growing_sink_failures };

    fn put(&mut self, piece: &[u8]) -> Result<usize, DeviceFault>
        ensures put { IsPut
            (Some (growing_sink_taken self.old)) (Some (growing_sink_taken self.new))
            (growing_sink_failures self.old) (growing_sink_failures self.new) result piece.now }
        ensures whole { IfOk result (λ n. n ≡ length piece.now) }
    {
        let failures = self.failures;
        if failures == u64::MAX || self.octets.extend_from_slice(piece).is_err() {
            self.failures = failures.saturating_add(1);
            return Err(DeviceFault);
        }
        Ok(piece.len())
    }

    fn failures(&self) -> u64 {
        self.failures
    }
}
