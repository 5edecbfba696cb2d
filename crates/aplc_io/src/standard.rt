//! Readers and writers of the runtime as a source and a sink: they pass on the bytes of what they hold, and count the
//! faults. Their users are not told the bytes.
ghost use Rattle.std.specs.Prelude.{◌≡◌, ◌<◌, ◌≤◌, None, length, take, false, IfOk, OnErr, ◌||◌};
ghost use Rattle.std.specs.Io.KnownBytes.{ReadConsumes, WriteAppends};
ghost use Rattle.aplc_io.specs.Outside.{next, is_end, later_read, SourceGives, SourceFails, IsAtEnd, SinkFails, sink_with};
ghost use Rattle.aplc_io.specs.Adapters.{reading_state, writing_state};

use crate::{Failed, Sink, Source};
use std::io::{Read, Write};
use std::marker::Model;

/// A reader as a source, as the standard input. It answers `Failed` to each error of a read.
#[derive(Drop)]
pub struct StdSource<R: Read + Drop> {
    reader: R,
    faults: u64,
    met: bool,
    late: u64,
}

impl<R: Read + Drop> Model for StdSource<R> {
    ghost use Rattle.aplc_io.specs.Adapters.{Reading};

    ghost Value = { Reading };

    ghost view = { λ s. record { known = R.remaining s.reader; faults = s.faults; met = s.met; late = s.late } };
}

impl<R: Read + Drop> StdSource<R> {
    /// A source that has met no fault.
    pub fn new(reader: R) -> StdSource<R>
        ensures { result ≡ record { known = R.remaining reader; faults = 0; met = false; late = 0 } }
    {
        StdSource {
            reader,
            faults: 0,
            met: false,
            late: 0,
        }
    }
}

impl<R: Read + Drop> Source for StdSource<R> {
    ghost use Rattle.aplc_io.specs.Adapters.{reading_state};

    ghost state = { reading_state };

    ghost met = { λ s. s.met };

    ghost late = { λ s. s.late };

    fn read(&mut self, buf: &mut [u8]) -> Result<usize, Failed>
        requires { 0 < length buf.old }
        ensures bound { IfOk result (λ n. n ≤ length buf.new) }
        ensures gives { IfOk result
            (λ n. SourceGives (take n buf.new) (reading_state self.old) (reading_state self.new)) }
        ensures end { IfOk result (λ n. n ≡ 0 → IsAtEnd (reading_state self.new)) }
        ensures fails { OnErr result (SourceFails (reading_state self.old) (reading_state self.new)) }
        ensures known { ReadConsumes self.old.known self.new.known result buf.new }
        ensures counted { OnErr result (self.new.faults ≡ next self.old.faults) }
        ensures meets { self.new.met ≡ (self.old.met || is_end result) }
        ensures asked { self.new.late ≡ later_read self.old.met self.old.late }
    {
        if self.met {
            self.late = self.late.saturating_add(1);
        }
        match self.reader.read(buf) {
            Ok(count) => {
                self.met = self.met || count == 0;
                Ok(count)
            }
            Err(_) => {
                self.faults = self.faults.saturating_add(1);
                Err(Failed)
            }
        }
    }
}

/// A writer as a sink, as the standard output or the standard error. It answers `Failed` to each error of a
/// write, and to a write that takes nothing.
#[derive(Drop)]
pub struct StdSink<W: Write + Drop> {
    writer: W,
    faults: u64,
}

impl<W: Write + Drop> Model for StdSink<W> {
    ghost use Rattle.aplc_io.specs.Adapters.{Writing};

    ghost Value = { Writing };

    ghost view = { λ s. record { known = W.contents s.writer; faults = s.faults } };
}

impl<W: Write + Drop> StdSink<W> {
    /// A sink that has met no fault.
    pub fn new(writer: W) -> StdSink<W>
        ensures { result ≡ record { known = W.contents writer; faults = 0 } }
    {
        StdSink { writer, faults: 0 }
    }
}

impl<W: Write + Drop> Sink for StdSink<W> {
    ghost use Rattle.aplc_io.specs.Adapters.{writing_state};

    ghost state = { writing_state };

    fn write(&mut self, bytes: &[u8]) -> Result<usize, Failed>
        requires { 0 < length bytes.now }
        ensures bound { IfOk result (λ n. (0 < n) × (n ≤ length bytes.now)) }
        ensures takes { IfOk result
            (λ n. writing_state self.new ≡ sink_with (writing_state self.old) (take n bytes.now)) }
        ensures fails { OnErr result (SinkFails (writing_state self.old) (writing_state self.new)) }
        ensures known { WriteAppends self.old.known self.new.known result bytes.now }
        ensures counted { OnErr result (self.new.faults ≡ next self.old.faults) }
    {
        let written = write_some(&mut self.writer, bytes);
        if written.is_err() {
            self.faults = self.faults.saturating_add(1);
        }
        written
    }
}

/// Writes some bytes from the front. An error is a fault, and so is a write that takes nothing.
pub(crate) fn write_some<W: Write>(writer: &mut W, bytes: &[u8]) -> Result<usize, Failed>
    ensures some { IfOk result (λ n. (0 < n) × (n ≤ length bytes.now)) }
    ensures bytes { WriteAppends (W.contents writer.old) (W.contents writer.new) result bytes.now }
{
    match writer.write(bytes) {
        Ok(count) if count > 0 => Ok(count),
        _ => Err(Failed),
    }
}
