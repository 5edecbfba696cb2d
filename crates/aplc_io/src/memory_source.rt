//! A source whose bytes lie in memory, for tests: it tells what is left, and fails when it is told to.
//! It knows nothing of what the bytes mean.
ghost use Rattle.std.specs.Prelude.{◌≡◌, ◌<◌, ◌≤◌, ◌↔◌, length, take, drop, min, false, IsErr, IfOk, OnErr};
ghost use Rattle.aplc_io.specs.Outside.{SourceGives, SourceFails, IsAtEnd, later_read};
ghost use Rattle.aplc_io.specs.Memory.{source_state, SourceCallFails, source_failed, source_gave};

use crate::{Failed, Source};
use std::marker::Model;

/// A source in memory. It answers `Failed` to the calls whose numbers, counted from 1, stand in `fails`.
/// A call's number and the count of faults stay at `u64::MAX` once they are there.
#[derive(Drop)]
pub struct MemSource {
    bytes: Vec<u8>,
    at: usize,
    fails: Vec<u64>,
    calls: u64,
    faults: u64,
    met: bool,
    late: u64,
}

impl Model for MemSource {
    ghost use Rattle.std.specs.Prelude.{◌≤◌, length, drop};
    ghost use Rattle.aplc_io.specs.Memory.{SourceMemory};

    ghost Value = { SourceMemory };

    ghost view = { λ s. record { left = drop s.at s.bytes.items; fails = s.fails.items; calls = s.calls; faults = s.faults; met = s.met; late = s.late } };

    ghost invariant = { λ s. s.at ≤ length s.bytes.items };
}

// How many reads were made behind the end, with one more.
pub(crate) fn later_read(met: bool, late: u64) -> u64
    ensures { result ≡ later_read met late }
{
    if met { late.saturating_add(1) } else { late }
}

impl MemSource {
    /// A source that gives these bytes, and fails at these calls.
    pub fn new(bytes: Vec<u8>, fails: Vec<u64>) -> MemSource
        ensures { result ≡ record { left = bytes.items; fails = fails.items; calls = 0; faults = 0; met = false; late = 0 } }
    {
        MemSource {
            bytes,
            at: 0,
            fails,
            calls: 0,
            faults: 0,
            met: false,
            late: 0,
        }
    }

    /// The faults so far.
    pub fn faults(&self) -> u64
        ensures { result ≡ self.now.faults }
    {
        self.faults
    }
}

impl Source for MemSource {
    ghost state = { source_state };

    ghost met = { λ s. s.met };

    ghost late = { λ s. s.late };

    /// Gives as many bytes as are left and fit into `buf`.
    fn read(&mut self, buf: &mut [u8]) -> Result<usize, Failed>
        requires { 0 < length buf.old }
        ensures gives { IfOk result
            (λ n. SourceGives (take n buf.new) (source_state self.old) (source_state self.new)) }
        ensures end { IfOk result (λ n. n ≡ 0 → IsAtEnd (source_state self.new)) }
        ensures fails { OnErr result (SourceFails (source_state self.old) (source_state self.new)) }
        ensures failed { IsErr result ↔ SourceCallFails self.old }
        ensures count { IfOk result (λ n. n ≡ min (length self.old.left) (length buf.old)) }
        ensures rest { IfOk result (λ n. drop n buf.new ≡ drop n buf.old) }
        ensures ok { IfOk result (λ n. self.new ≡ source_gave self.old n) }
        ensures err { OnErr result (self.new ≡ source_failed self.old) }
        ensures untouched { OnErr result (buf.new ≡ buf.old) }
    {
        self.calls = self.calls.saturating_add(1);
        self.late = later_read(self.met, self.late);
        if self.fails.contains(&self.calls) {
            self.faults = self.faults.saturating_add(1);
            return Err(Failed);
        }
        let rest = &self.bytes[self.at..];
        let count = rest.len().min(buf.len());
        buf[..count].copy_from_slice(&rest[..count]);
        self.at += count;
        self.met = self.met || count == 0;
        Ok(count)
    }
}
