//! A sink over memory.
ghost use Rattle.std.specs.Prelude.{◌≡◌, ◌+◌, ◌-◌, ◌<◌, ◌≤◌, ◌↔◌, ◌++◌, [], None, Some, IsErr};
ghost use Rattle.std.specs.Prelude.{IsTrue, IfOk, min, length, take, vec_len, vec_capacity};
ghost use Rattle.plist_devices.specs.Sink.{IsPut};

use crate::{DeviceFault, Sink};
use std::alloc::{AllocError, Global};

/// A sink over memory that holds up to `room` bytes and takes at most `step` of them per put.
#[derive(Debug, Drop)]
pub struct ListSink {
    octets: Vec<u8>,
    room: usize,
    step: usize,
    failures: u64,
    ghost forward: { 0 < step },
    ghost within: { vec_len octets ≤ room },
    ghost reserved: { room ≤ vec_capacity octets },
    ghost full: { 0 < failures → vec_len octets ≡ room },
}

impl ListSink {
    ghost use Rattle.plist_devices.specs.ListSink.{list_sink_taken, sink_room, sink_step};
    ghost use Rattle.plist_devices.specs.ListSink.{list_sink_failures};
    ghost use Rattle.plist_devices.specs.ListSink.{FailsAt};

    /// Creates an empty sink and reserves memory for `room` bytes. `step` must be above 0.
    ///
    /// # Errors
    ///
    /// Fails if out of memory.
    pub fn new(alloc: Global, room: usize, step: usize) -> Result<ListSink, AllocError>
        requires { 0 < step }
        ensures taken { IfOk result (λ sink. list_sink_taken sink ≡ []) }
        ensures room { IfOk result (λ sink. sink_room sink ≡ room) }
        ensures step { IfOk result (λ sink. sink_step sink ≡ step) }
        ensures failures { IfOk result (λ sink. list_sink_failures sink ≡ 0) }
    {
        Ok(ListSink {
            octets: Vec::with_capacity(alloc, room)?,
            room,
            step,
            failures: 0,
        })
    }

    /// Returns the bytes taken so far.
    pub fn taken(&self) -> &[u8]
        ensures { result.now ≡ list_sink_taken self.now }
    {
        self.octets.as_slice()
    }

    fn fails_at(&self, piece: &[u8]) -> bool
        ensures { IsTrue result ↔ FailsAt self.now piece.now }
    {
        let failures = self.failures;
        let is_full = self.octets.len() == self.room;
        failures == u64::MAX || (is_full && !piece.is_empty())
    }
}

impl Sink for ListSink {
    ghost use Rattle.plist_devices.specs.ListSink.{list_sink_taken, sink_room, sink_step};
    ghost use Rattle.plist_devices.specs.ListSink.{list_sink_failures};
    ghost use Rattle.plist_devices.specs.ListSink.{FailsAt};

    ghost taken = { λ sink. Some (list_sink_taken sink) };

    ghost failures = { list_sink_failures };

    fn put(&mut self, piece: &[u8]) -> Result<usize, DeviceFault>
        ensures put { IsPut (Some (list_sink_taken self.old)) (Some (list_sink_taken self.new))
            (list_sink_failures self.old) (list_sink_failures self.new) result piece.now }
        ensures fails { IsErr result ↔ FailsAt self.old piece.now }
        ensures count { IfOk result (λ n. n
            ≡ min (min (sink_step self.old) (length piece.now))
            (sink_room self.old - length (list_sink_taken self.old))) }
        ensures room { sink_room self.new ≡ sink_room self.old }
        ensures step { sink_step self.new ≡ sink_step self.old }
    {
        if self.fails_at(piece) {
            self.failures = self.failures.saturating_add(1);
            return Err(DeviceFault);
        }
        let left = self.room - self.octets.len();
        let taken = self.step.min(piece.len()).min(left);
        self.octets.extend_from_slice(&piece[..taken]).unwrap();
        Ok(taken)
    }

    fn failures(&self) -> u64 {
        self.failures
    }
}
