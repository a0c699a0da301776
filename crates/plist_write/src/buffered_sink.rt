//! A buffered writer over a sink.
ghost use Rattle.std.specs.Prelude.{◌≡◌, ◌+◌, ◌≤◌, ◌^◌, ◌∷◌, ◌++◌, [], length, IfErr, IfOk};
ghost use Rattle.std.specs.Prelude.{IsErr, OnErr, OnOk, ◌<◌};
ghost use Rattle.plist_write.specs.declared.faults.WriteFault.TheVariants.{OutOfMemory};
ghost use Rattle.plist_write.specs.declared.faults.WriteFault.TheVariants.{WriteFailed};
ghost use Rattle.plist_write.specs.Sending.{sent_of};
ghost use Rattle.plist_write.specs.BufferedSink.{CanTake, Emits, KeepsShort, sink_state};

use crate::WriteFault;
use plist_devices::{Sink, put_all};
use std::alloc::AllocError;

// The number of buffered bytes from which on the buffer is flushed. No piece of a canonical file
// has more, unless a single object has.
pub(crate) const PIECE: u64 = 4096;

/// A buffered writer over a sink. `sent` counts the bytes that the sink took.
#[derive(Drop)]
pub struct BufferedSink<'a, W> {
    pub sink: &'a mut W,
    pub waiting: &'a mut Vec<u8>,
    pub sent: u64,
}

impl<'a, W: Sink> BufferedSink<'a, W> {
    /// Writes a few bytes through the buffer.
    ///
    /// # Errors
    ///
    /// [`WriteFault::OutOfMemory`] (60) if there is no memory for the bytes. Otherwise, fails like
    /// [`flush_if_full`](BufferedSink::flush_if_full).
    pub fn put(&mut self, octets: &[u8]) -> Result<(), WriteFault>
        ensures emits { Emits octets.now
            (sink_state W.Sink self.old) (sink_state W.Sink self.new) result }
        ensures short { OnOk result
            (0 < length octets.now → length self.new.waiting.now.items < 4096) }
    {
        if octets.is_empty() {
            return Ok(());
        }
        let gathered = gather(self.waiting, octets);
        self.grown(gathered)?;
        self.flush_if_full()
    }

    /// Returns the value of a call that needs memory, such as one that appends to the buffer.
    ///
    /// # Errors
    ///
    /// [`WriteFault::OutOfMemory`] (60) exactly if `growth` is an error.
    pub fn grown<T>(&self, growth: Result<T, AllocError>) -> Result<T, WriteFault>
        ensures value { IfOk result (λ value. growth ≡ Ok value) }
        ensures refused { IfErr result
            (λ fault. IsErr growth × (fault ≡ OutOfMemory self.now.sent)) }
    {
        match growth {
            Ok(value) => Ok(value),
            Err(AllocError) => Err(WriteFault::OutOfMemory { sent: self.sent }),
        }
    }

    /// Flushes the buffer if it has 4,096 bytes or more.
    ///
    /// # Errors
    ///
    /// Fails like [`flush`](BufferedSink::flush).
    pub fn flush_if_full(&mut self) -> Result<(), WriteFault>
        ensures emits { Emits [] (sink_state W.Sink self.old) (sink_state W.Sink self.new) result }
        ensures short { OnOk result (length self.new.waiting.now.items < 4096) }
        ensures cause { IfErr result (λ fault. fault ≡ OutOfMemory (sent_of fault)
            → 2 ^ 64 ≤ self.old.sent + length self.old.waiting.now.items) }
    {
        if (self.waiting.len() as u64) < PIECE {
            return Ok(());
        }
        self.flush()
    }

    /// Flushes the buffer, whatever its length.
    ///
    /// # Errors
    ///
    /// [`WriteFault::WriteFailed`] (51) if the sink fails, and [`WriteFault::OutOfMemory`] (60) if
    /// the output would exceed `u64::MAX` bytes.
    pub fn flush(&mut self) -> Result<(), WriteFault>
        ensures emits { Emits [] (sink_state W.Sink self.old) (sink_state W.Sink self.new) result }
        ensures none { OnOk result (self.new.waiting.now.items ≡ []) }
        ensures cause { IfErr result (λ fault. fault ≡ OutOfMemory (sent_of fault)
            → 2 ^ 64 ≤ self.old.sent + length self.old.waiting.now.items) }
    {
        if self.waiting.len() as u64 > u64::MAX - self.sent {
            return Err(WriteFault::OutOfMemory { sent: self.sent });
        }
        self.flush_unchecked()
    }

    /// Sends the buffered bytes.
    ///
    /// # Errors
    ///
    /// [`WriteFault::WriteFailed`] (51) if the sink fails.
    pub fn flush_unchecked(&mut self) -> Result<(), WriteFault>
        requires { CanTake [] (sink_state W.Sink self.old) }
        ensures emits { Emits [] (sink_state W.Sink self.old) (sink_state W.Sink self.new) result }
        ensures none { OnOk result (self.new.waiting.now.items ≡ []) }
        ensures cause { IfErr result (λ fault. fault ≡ WriteFailed (sent_of fault)) }
        ensures failed { OnErr result (self.new.waiting.now.items ≡ self.old.waiting.now.items) }
        ensures counted { OnErr result (self.new.sent ≡ self.old.sent) }
        ensures pieces { KeepsShort [] 0
            (sink_state W.Sink self.old) (sink_state W.Sink self.new) result }
    {
        match put_all(self.waiting, self.sink) {
            Ok(()) => {
                self.sent += self.waiting.len() as u64;
                self.waiting.clear();
                Ok(())
            }
            Err(taken) => Err(WriteFault::WriteFailed {
                sent: self.sent + taken as u64,
            }),
        }
    }

    // Flushes the buffer, and then sends these bytes without a copy.
    //
    // # Errors
    //
    // Fails like [`flush_unchecked`](BufferedSink::flush_unchecked).
    pub(crate) fn send_long(&mut self, octets: &[u8]) -> Result<(), WriteFault>
        requires { CanTake octets.now (sink_state W.Sink self.old) }
        ensures emits { Emits octets.now
            (sink_state W.Sink self.old) (sink_state W.Sink self.new) result }
        ensures pieces { KeepsShort (octets.now ∷ []) 0
            (sink_state W.Sink self.old) (sink_state W.Sink self.new) result }
    {
        self.flush_unchecked()?;
        self.send(octets)
    }

    // Sends these bytes without a copy. The buffer must be empty.
    fn send(&mut self, octets: &[u8]) -> Result<(), WriteFault>
        requires none { self.old.waiting.now.items ≡ [] }
        requires room { CanTake octets.now (sink_state W.Sink self.old) }
        ensures emits { Emits octets.now
            (sink_state W.Sink self.old) (sink_state W.Sink self.new) result }
        ensures pieces { KeepsShort (octets.now ∷ []) 0
            (sink_state W.Sink self.old) (sink_state W.Sink self.new) result }
    {
        match put_all(octets, self.sink) {
            Ok(()) => {
                self.sent += octets.len() as u64;
                Ok(())
            }
            Err(more) => Err(WriteFault::WriteFailed {
                sent: self.sent + more as u64,
            }),
        }
    }

    // Flushes the buffer if `more` bytes would make it longer than a piece.
    //
    // # Errors
    //
    // Fails like [`flush_unchecked`](BufferedSink::flush_unchecked).
    pub(crate) fn make_room(&mut self, more: u64) -> Result<(), WriteFault>
        requires { CanTake [] (sink_state W.Sink self.old) }
        ensures emits { Emits [] (sink_state W.Sink self.old) (sink_state W.Sink self.new) result }
        ensures pieces { KeepsShort [] more
            (sink_state W.Sink self.old) (sink_state W.Sink self.new) result }
    {
        let held = self.waiting.len() as u64;
        if held == 0 {
            return Ok(());
        }
        if held <= PIECE && more <= PIECE - held {
            return Ok(());
        }
        self.flush_unchecked()
    }
}

fn gather(out: &mut Vec<u8>, octets: &[u8]) -> Result<(), AllocError>
    ensures { OnOk result (out.new.items ≡ out.old.items ++ octets.now) }
{
    out.extend_from_slice(octets)
}
