//! The three traits of the outside: a source of bytes, a sink of bytes, and a host with files and one text.
//! They say what each answer means, and nothing of where the bytes come from or go.
ghost use Rattle.std.specs.Prelude.{◌≡◌, ◌+◌, ◌<◌, ◌≤◌, ℕ, length, take, IfOk, IfErr, OnOk, OnErr, IsErrOf, option_map, Bool, ◌||◌};
ghost use Rattle.aplc_io.specs.Outside.{next, is_end, later_read, SourceState, SinkState, HostState, sink_with, SinkFails, SourceGives, SourceFails, IsAtEnd, IsFile, FetchStops, text_begun, TextNotBegun, text_with, TextFails};

use std::alloc::Global;
use thiserror::Error;

/// A call met a fault, and its object counted it.
#[derive(Clone, Copy, Debug, PartialEq, Eq)]
pub struct Failed;

/// Bytes to read. The count of faults never falls: each answer keeps it, and `Failed` alone may raise it.
pub trait Source {
    /// The bytes that are left, where they are told, and the faults so far.
    ghost state: { Self → SourceState };

    /// Whether a read has answered 0.
    ghost met: { Self → Bool };

    /// How many reads were made after one that answered 0; it stays at its last value.
    ghost late: { Self → ℕ };

    /// Reads the next bytes into the front of `buf`, and tells how many. None is the end of the input.
    ///
    /// It answers `Failed` for no other reason than a fault, which the count tells unless it is at its end; no byte
    /// is taken then.
    fn read(&mut self, buf: &mut [u8]) -> Result<usize, Failed>
        requires { 0 < length buf.old }
        ensures bound { IfOk result (λ n. n ≤ length buf.new) }
        ensures gives { IfOk result
            (λ n. SourceGives (take n buf.new) (state self.old) (state self.new)) }
        ensures end { IfOk result (λ n. n ≡ 0 → IsAtEnd (state self.new)) }
        ensures fails { OnErr result (SourceFails (state self.old) (state self.new)) }
        ensures meets { met self.new ≡ (met self.old || is_end result) }
        ensures asked { late self.new ≡ later_read (met self.old) (late self.old) };
}

/// A place to write bytes to. The count of faults never falls: each answer keeps it, and `Failed` alone may
/// raise it.
pub trait Sink {
    /// The bytes that were written, where they are told, and the faults so far.
    ghost state: { Self → SinkState };

    /// Writes some of the bytes from the front, at least one, and tells how many.
    ///
    /// It answers `Failed` for no other reason than a fault, which the count tells unless it is at its end; nothing
    /// is written then.
    fn write(&mut self, bytes: &[u8]) -> Result<usize, Failed>
        requires { 0 < length bytes.now }
        ensures bound { IfOk result (λ n. (0 < n) × (n ≤ length bytes.now)) }
        ensures takes { IfOk result
            (λ n. state self.new ≡ sink_with (state self.old) (take n bytes.now)) }
        ensures fails { OnErr result (SinkFails (state self.old) (state self.new)) };
}

/// Why a file was not fetched.
#[derive(Debug, Drop, Error)]
pub enum FetchFault {
    /// The host met a fault, or has no file of the name.
    #[error("the file could not be read")]
    Failed,
    /// The file has more bytes than were asked for.
    #[error("the file is too long")]
    TooLong,
    /// No memory was left for the bytes.
    #[error("no memory is left")]
    Memory,
}

/// Files to fetch, and one text to hand over. It counts the faults of `fetch`, and those of the text.
/// Neither count falls: each answer keeps both, and a fault alone may raise one.
pub trait Host {
    /// The files by name, the text and its target, where they are told, the faults so far, the calls of `text_to`,
    /// and the bytes of text that were taken. Neither of the last two ever falls; both stay at their last value.
    ghost state: { Self → HostState };

    /// How many bytes of a file the last `fetch` took.
    ghost taken: { Self → ℕ };

    /// How many times `fetch` was called; it stays at its last value.
    ghost fetches: { Self → ℕ };

    /// The bytes of a file, at most `limit` of them. It takes at most `limit + 1` bytes of the file.
    ///
    /// It answers `TooLong` for a file that goes on behind `limit` bytes, as the last byte taken shows, and `Failed`
    /// for a fault, which the count of fetch faults tells unless it is at its end, or for a name that none of the
    /// told files has. Nothing but that count changes.
    fn fetch(&mut self, alloc: Global, name: &str, limit: u64) -> Result<Vec<u8>, FetchFault>
        ensures bound { IfOk result (λ v. length v.items ≤ limit) }
        ensures bytes { IfOk result (λ v. IsFile (state self.old) name.now v.items) }
        ensures kept { OnOk result (state self.new ≡ state self.old) }
        ensures stops { IfErr result
            (λ fault. FetchStops fault name.now limit (state self.old) (state self.new)) }
        ensures whole { IfOk result (λ v. taken self.new ≡ length v.items) }
        ensures long { IsErrOf result FetchFault.TooLong → taken self.new ≡ limit + 1 }
        ensures within { taken self.new ≤ limit + 1 }
        ensures asked { fetches self.new ≡ next (fetches self.old) };

    /// Begins the text anew, and says where it goes: to the file `name`, or, without a name, to the standard
    /// output, or nowhere where `run` is true. Without a call of this a text goes to the standard output.
    ///
    /// What was asked for is kept as the target once this was Ok, the name cut to 255 bytes; before there is none.
    /// `Failed` is for a fault, which the count of text faults tells unless it is at its end, and leaves an empty
    /// text as well.
    fn text_to(&mut self, name: Option<&str>, run: bool) -> Result<(), Failed>
        ensures begun { OnOk result (state self.new ≡ text_begun (state self.old)
            (option_map (λ s. s.now) name.entry) run) }
        ensures fails { OnErr result (TextNotBegun (state self.old) (state self.new)) }
        ensures no_fetch { taken self.new ≡ taken self.old }
        ensures unasked { fetches self.new ≡ fetches self.old };

    /// Writes some bytes of the text from the front, at least one, and tells how many.
    ///
    /// It answers `Failed` for no other reason than a fault, which the count of text faults tells unless it is at
    /// its end; nothing is written then.
    fn put_text(&mut self, bytes: &[u8]) -> Result<usize, Failed>
        requires { 0 < length bytes.now }
        ensures bound { IfOk result (λ n. (0 < n) × (n ≤ length bytes.now)) }
        ensures takes { IfOk result
            (λ n. state self.new ≡ text_with (state self.old) (take n bytes.now)) }
        ensures fails { OnErr result (TextFails (state self.old) (state self.new)) }
        ensures no_fetch { taken self.new ≡ taken self.old }
        ensures unasked { fetches self.new ≡ fetches self.old };
}
