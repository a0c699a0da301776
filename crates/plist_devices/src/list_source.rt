//! A source over memory.
ghost use Rattle.std.specs.Prelude.{◌≡◌, ◌<◌, ◌≤◌, ◌↔◌, ◌++◌, Some, IsErr};
ghost use Rattle.std.specs.Prelude.{IsTrue, IfOk, OnErr, min, length, take, drop};
ghost use Rattle.plist_devices.specs.Count.{one_more};
ghost use Rattle.plist_devices.specs.Source.{IsTake};

use crate::{DeviceFault, Source};

/// A source over a slice, for tests: it gives the bytes in small pieces, and one take can be made
/// to fail.
#[derive(Debug, Drop)]
pub struct ListSource<'a> {
    rest: &'a [u8],
    step: usize,
    fail_at: Option<u64>,
    takes: u64,
    failures: u64,
    ghost forward: { 0 < step },
    ghost counted: { failures ≤ takes },
}

impl<'a> ListSource<'a> {
    ghost use Rattle.plist_devices.specs.ListSource.{octets_left, source_step, failing_take};
    ghost use Rattle.plist_devices.specs.ListSource.{takes_made, list_source_failures, FailsNext};

    /// Creates a source of `octets` that gives at most `step` bytes per take. Take number
    /// `fail_at`, counted from 1, fails, and so does every take after number 2^64 - 1.
    pub fn new(octets: &'a [u8], step: usize, fail_at: Option<u64>) -> ListSource<'a>
        requires { 0 < step }
        ensures octets { octets_left result ≡ octets.entry.now }
        ensures step { source_step result ≡ step }
        ensures fail_at { failing_take result ≡ fail_at }
        ensures takes { takes_made result ≡ 0 }
        ensures failures { list_source_failures result ≡ 0 }
    {
        ListSource {
            rest: octets,
            step,
            fail_at,
            takes: 0,
            failures: 0,
        }
    }

    fn fails_next(&self) -> bool
        ensures { IsTrue result ↔ FailsNext self.now }
    {
        match self.takes.checked_add(1) {
            Some(number) => self.fail_at == Some(number),
            None => true,
        }
    }
}

impl Source for ListSource<'_> {
    ghost use Rattle.plist_devices.specs.ListSource.{octets_left, source_step, failing_take};
    ghost use Rattle.plist_devices.specs.ListSource.{takes_made, list_source_failures, FailsNext};

    ghost remaining = { λ source. Some (octets_left source) };

    ghost failures = { list_source_failures };

    fn take(&mut self, into: &mut [u8]) -> Result<usize, DeviceFault>
        ensures take { IsTake (Some (octets_left self.old)) (Some (octets_left self.new))
            (list_source_failures self.old) (list_source_failures self.new) result into.new }
        ensures fails { IsErr result ↔ FailsNext self.old }
        ensures given { IfOk result (λ given. given
            ≡ min (min (source_step self.old) (length into.old)) (length (octets_left self.old))) }
        ensures buffer { IfOk result (λ given.
            into.new ≡ take given (octets_left self.old) ++ drop given into.old) }
        ensures untouched { OnErr result (into.new ≡ into.old) }
        ensures takes { takes_made self.new ≡ one_more (takes_made self.old) }
        ensures step { source_step self.new ≡ source_step self.old }
        ensures fail_at { failing_take self.new ≡ failing_take self.old }
    {
        let fails = self.fails_next();
        self.takes = self.takes.saturating_add(1);
        if fails {
            self.failures = self.failures.saturating_add(1);
            return Err(DeviceFault);
        }
        let given = self.step.min(into.len()).min(self.rest.len());
        let (piece, rest) = self.rest.split_at(given);
        into[..given].copy_from_slice(piece);
        self.rest = rest;
        Ok(given)
    }

    fn failures(&self) -> u64 {
        self.failures
    }
}
