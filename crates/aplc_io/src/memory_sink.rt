//! A sink whose bytes lie in memory, for tests: it tells what was written, and fails when it is told to.
//! It knows nothing of what the bytes mean.
ghost use Rattle.std.specs.Prelude.{◌≡◌, ◌<◌, ◌↔◌, [], length, take, IsErr, IfOk, OnErr};
ghost use Rattle.aplc_io.specs.Outside.{SinkFails};
ghost use Rattle.aplc_io.specs.Memory.{sink_state, SinkCallFails, sink_failed, sink_takes, sink_took};

use crate::{Failed, Sink};
use std::alloc::{AllocError, Global};
use std::marker::Model;

/// A sink in memory, of a fixed room. It answers `Failed` to the calls whose numbers, counted from 1, stand
/// in `fails`, and where its room is full. A call's number and the count of faults stay at `u64::MAX` once
/// they are there.
#[derive(Drop)]
pub struct MemSink {
    bytes: Vec<u8>,
    room: usize,
    fails: Vec<u64>,
    calls: u64,
    faults: u64,
}

impl Model for MemSink {
    ghost use Rattle.std.specs.Prelude.{◌≤◌, length, vec_capacity};
    ghost use Rattle.aplc_io.specs.Memory.{SinkMemory};

    ghost Value = { SinkMemory };

    ghost view = { λ s. record { bytes = s.bytes.items; room = s.room; fails = s.fails.items; calls = s.calls; faults = s.faults } };

    ghost invariant = { λ s. (length s.bytes.items ≤ s.room) × (s.room ≤ vec_capacity s.bytes) };
}

impl MemSink {
    /// An empty sink, with memory for `room` bytes. No later call takes memory.
    pub fn new(alloc: Global, room: usize, fails: Vec<u64>) -> Result<MemSink, AllocError>
        ensures { IfOk result (λ s. s ≡
            record { bytes = []; room = room; fails = fails.items; calls = 0; faults = 0 }) }
    {
        let bytes = Vec::with_capacity(alloc, room)?;
        Ok(MemSink {
            bytes,
            room,
            fails,
            calls: 0,
            faults: 0,
        })
    }

    /// What was written.
    pub fn bytes(&self) -> &[u8]
        ensures { result.now ≡ self.now.bytes }
    {
        self.bytes.as_slice()
    }

    /// The faults so far.
    pub fn faults(&self) -> u64
        ensures { result ≡ self.now.faults }
    {
        self.faults
    }
}

impl Sink for MemSink {
    ghost state = { sink_state };

    /// Takes as many bytes as fit.
    fn write(&mut self, bytes: &[u8]) -> Result<usize, Failed>
        requires { 0 < length bytes.now }
        ensures fails { OnErr result (SinkFails (sink_state self.old) (sink_state self.new)) }
        ensures failed { IsErr result ↔ SinkCallFails self.old }
        ensures count { IfOk result (λ n. n ≡ sink_takes self.old (length bytes.now)) }
        ensures ok { IfOk result (λ n. self.new ≡ sink_took self.old (take n bytes.now)) }
        ensures err { OnErr result (self.new ≡ sink_failed self.old) }
    {
        self.calls = self.calls.saturating_add(1);
        if self.bytes.len() >= self.room || self.fails.contains(&self.calls) {
            self.faults = self.faults.saturating_add(1);
            return Err(Failed);
        }
        let count = bytes.len().min(self.room - self.bytes.len());
        match self.bytes.extend_from_slice(&bytes[..count]) {
            Ok(()) => Ok(count),
            Err(_) => unreachable!(),
        }
    }
}
