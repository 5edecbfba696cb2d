//! The host of the runtime: files, and the standard output for a text without a name.
//! It passes on the bytes of what it opens, and counts the faults; its users are told neither files nor text.
ghost use Rattle.std.specs.Prelude.{None, false, ◌≡◌, ◌+◌, ◌<◌, ◌≤◌, length, take, Ok, IsNone, IsOk, IsErr, IfOk, IfErr, IfSome, OnOk, OnErr, IsErrOf, option_map};
ghost use Rattle.aplc_io.specs.Outside.{next, more, IsFile, FetchStops, text_begun, TextNotBegun, text_with, TextFails};
ghost use Rattle.aplc_io.specs.Adapters.{route_of, runtime_state, Took};
ghost use Rattle.aplc_io.specs.Adapters.Route.{ToNowhere, ToFault};

use crate::standard::write_some;
use crate::{Failed, FetchFault, Host};
use std::alloc::Global;
use std::fs::File;
use std::io::Read;
use std::marker::Model;

const PIECE: usize = 4096;

// Where the text goes.
#[derive(Drop)]
enum Place {
    Output,
    File(File),
    Nowhere,
    Broken,
}

/// The host of the runtime. Each error is a fault to it, and so is a file that is not there, a write of the text
/// that takes nothing, and a `put_text` with no place to write to, since `text_to` failed. It counts them.
#[derive(Drop)]
pub struct FsHost<'a> {
    rt: &'a HostRuntime,
    place: Place,
    fetch_faults: u64,
    text_faults: u64,
    taken: u128,
    fetches: u64,
    begun: u64,
    put: u64,
}

impl<'a> Model for FsHost<'a> {
    ghost use Rattle.aplc_io.specs.Adapters.{RuntimeHost};
    ghost use Rattle.aplc_io.specs.Places.{route};

    ghost Value = { RuntimeHost };

    ghost view = { λ h. record { route = route h.place; fetch_faults = h.fetch_faults; text_faults = h.text_faults; taken = h.taken; fetches = h.fetches; begun = h.begun; put = h.put } };
}

// All that a reader has, read to one byte past the limit at most, which `taken` counts.
fn read_within<R: Read>(
    alloc: Global,
    reader: &mut R,
    limit: u64,
    taken: &mut u128,
) -> Result<Vec<u8>, FetchFault>
    ensures bound { IfOk result (λ v. length v.items ≤ limit) }
    ensures whole { IfOk result (λ v. taken.new ≡ length v.items) }
    ensures long { IsErrOf result FetchFault.TooLong → taken.new ≡ limit + 1 }
    ensures within { taken.new ≤ limit + 1 }
    ensures took { Took (R.remaining reader.old) (R.remaining reader.new) taken.new }
    ensures bytes { IfOk result (λ v. IfSome (R.remaining reader.old) (λ xs. v.items ≡ xs)) }
    ensures more { IsErrOf result FetchFault.TooLong → IfSome (R.remaining reader.old) (λ xs. limit < length xs) }
{
    let mut bytes = Vec::new(alloc);
    let mut piece = [0u8; PIECE];
    let mut room = limit;
    *taken = 0;
    loop {
        let most = room.min(PIECE as u64 - 1) as usize + 1;
        let count = match reader.read(&mut piece[..most]) {
            Ok(count) => count,
            Err(_) => return Err(FetchFault::Failed),
        };
        if count == 0 {
            return Ok(bytes);
        }
        *taken += count as u128;
        if count as u64 > room {
            return Err(FetchFault::TooLong);
        }
        room -= count as u64;
        if bytes.extend_from_slice(&piece[..count]).is_err() {
            return Err(FetchFault::Memory);
        }
    }
}

impl<'a> FsHost<'a> {
    /// A host that has met no fault. A text goes to the standard output, as after `text_to(None, false)`.
    pub fn new(rt: &'a HostRuntime) -> FsHost<'a>
        ensures { result ≡ record { route = route_of None false; fetch_faults = 0; text_faults = 0; taken = 0; fetches = 0; begun = 0; put = 0 } }
    {
        FsHost {
            rt,
            place: Place::Output,
            fetch_faults: 0,
            text_faults: 0,
            taken: 0,
            fetches: 0,
            begun: 0,
            put: 0,
        }
    }
}

impl Host for FsHost<'_> {
    ghost use Rattle.aplc_io.specs.Adapters.{runtime_state, runtime_taken, runtime_fetches};

    ghost state = { runtime_state };

    ghost taken = { runtime_taken };

    ghost fetches = { runtime_fetches };

    fn fetch(&mut self, alloc: Global, name: &str, limit: u64) -> Result<Vec<u8>, FetchFault>
        ensures bound { IfOk result (λ v. length v.items ≤ limit) }
        ensures bytes { IfOk result (λ v. IsFile (runtime_state self.old) name.now v.items) }
        ensures kept { OnOk result (runtime_state self.new ≡ runtime_state self.old) }
        ensures stops { IfErr result (λ fault. FetchStops fault name.now limit
            (runtime_state self.old) (runtime_state self.new)) }
        ensures whole { IfOk result (λ v. self.new.taken ≡ length v.items) }
        ensures long { IsErrOf result FetchFault.TooLong → self.new.taken ≡ limit + 1 }
        ensures within { self.new.taken ≤ limit + 1 }
        ensures asked { self.new.fetches ≡ next self.old.fetches }
        ensures route { self.new.route ≡ self.old.route }
    {
        self.taken = 0;
        self.fetches = self.fetches.saturating_add(1);
        let fetched = match File::open(self.rt, name) {
            Ok(mut file) => read_within(alloc, &mut file, limit, &mut self.taken),
            Err(_) => Err(FetchFault::Failed),
        };
        if let Err(FetchFault::Failed) = fetched {
            self.fetch_faults = self.fetch_faults.saturating_add(1);
        }
        fetched
    }

    fn text_to(&mut self, name: Option<&str>, run: bool) -> Result<(), Failed>
        ensures begun { OnOk result (runtime_state self.new ≡ text_begun
            (runtime_state self.old) (option_map (λ s. s.now) name.entry) run) }
        ensures fails { OnErr result
            (TextNotBegun (runtime_state self.old) (runtime_state self.new)) }
        ensures no_fetch { self.new.taken ≡ self.old.taken }
        ensures unasked { self.new.fetches ≡ self.old.fetches }
        ensures nameless { IsNone name.entry → IsOk result }
        ensures ok { OnOk result (self.new ≡
            record self.old { route = route_of (option_map (λ s. s.now) name.entry) run; begun = next self.old.begun }) }
        ensures err { OnErr result (self.new ≡
            record self.old { route = ToFault; text_faults = next self.old.text_faults; begun = next self.old.begun }) }
    {
        self.begun = self.begun.saturating_add(1);
        match name {
            Some(name) => match File::create(self.rt, name) {
                Ok(file) => self.place = Place::File(file),
                Err(_) => {
                    self.place = Place::Broken;
                    self.text_faults = self.text_faults.saturating_add(1);
                    return Err(Failed);
                }
            },
            None if run => self.place = Place::Nowhere,
            None => self.place = Place::Output,
        }
        Ok(())
    }

    fn put_text(&mut self, bytes: &[u8]) -> Result<usize, Failed>
        requires { 0 < length bytes.now }
        ensures bound { IfOk result (λ n. (0 < n) × (n ≤ length bytes.now)) }
        ensures takes { IfOk result
            (λ n. runtime_state self.new ≡ text_with (runtime_state self.old) (take n bytes.now)) }
        ensures fails { OnErr result (TextFails (runtime_state self.old) (runtime_state self.new)) }
        ensures no_fetch { self.new.taken ≡ self.old.taken }
        ensures unasked { self.new.fetches ≡ self.old.fetches }
        ensures broken { self.old.route ≡ ToFault → IsErr result }
        ensures nowhere { self.old.route ≡ ToNowhere → result ≡ Ok (length bytes.now) }
        ensures ok { IfOk result (λ n. self.new ≡ record self.old { put = more self.old.put n }) }
        ensures err { OnErr result
            (self.new ≡ record self.old { text_faults = next self.old.text_faults }) }
    {
        let written = match &mut self.place {
            Place::Output => write_some(&mut self.rt.stdout(), bytes),
            Place::File(file) => write_some(file, bytes),
            Place::Nowhere => Ok(bytes.len()),
            Place::Broken => Err(Failed),
        };
        match written {
            Ok(count) => self.put = self.put.saturating_add(count as u64),
            Err(Failed) => self.text_faults = self.text_faults.saturating_add(1),
        }
        written
    }
}
