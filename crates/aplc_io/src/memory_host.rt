//! A host whose files and text lie in memory, for tests: it tells both, and fails when it is told to.
//! It knows nothing of what the bytes mean.
ghost use Rattle.std.specs.Prelude.{◌≡◌, ◌<◌, ◌≤◌, ◌↔◌, ◌⊎◌, ℕ, List, length, take, map, IsErr, IfOk, OnOk, OnErr, IsErrOf, IfErr, option_map, Some, None, if◌then◌else◌};
ghost use Rattle.std.specs.Str.{bytes_eq};
ghost use Rattle.aplc_io.specs.Outside.{text_with, TextFails, TextNotBegun, FetchStops};
ghost use Rattle.aplc_io.specs.Memory.{file_named, file_entry, empty_host, host_state, HostCallFails, fetch_failed, fetch_called, text_started, text_refused, TextCallFails, text_takes, text_took, text_failed};

use crate::{Failed, FetchFault, Host};
use std::alloc::{AllocError, Global};
use std::collections::BTreeMap;
use std::marker::Model;

const NAME_BYTES: usize = 255;

// How a text's target was made.
#[derive(Clone, Copy)]
struct Made {
    named: bool,
    run: bool,
}

/// A host in memory. It answers `Failed` to the calls of the trait whose numbers, counted from 1 over all three,
/// stand in `fails`, to a `fetch` of a name without a file, and to a `put_text` where its room is full. A call's
/// number and both counts of faults stay at `u64::MAX` once they are there.
#[derive(Drop)]
pub struct MemHost {
    alloc: Global,
    files: BTreeMap<String, Vec<u8>>,
    text: Vec<u8>,
    room: usize,
    name: Vec<u8>,
    made: Option<Made>,
    fails: Vec<u64>,
    calls: u64,
    fetch_faults: u64,
    text_faults: u64,
    taken: u64,
    fetches: u64,
    begun: u64,
    put: u64,
}

// The bytes of the file of this name.
fn file_bytes<'a>(files: &'a BTreeMap<String, Vec<u8>>, name: &str) -> Option<&'a [u8]>
    ensures { option_map (λ v. v.now) result ≡ file_named name.now
        (map file_entry files.now.entries) }
{
    match files.get(name) {
        None => None,
        Some(bytes) => Some(bytes.as_slice()),
    }
}

// The first bytes of a name, as many as a target keeps.
fn name_front(name: &str) -> &[u8]
    ensures front { result.now ≡ take 255 name.now }
    ensures short { length result.now ≤ 255 }
{
    let bytes = name.as_bytes();
    &bytes[..NAME_BYTES.min(bytes.len())]
}

// Puts a file of this name into the place of one that is there.
#[tactic(auto)]
fn put_file(
    alloc: Global,
    files: &mut BTreeMap<String, Vec<u8>>,
    name: &str,
    bytes: Vec<u8>,
) -> Result<(), AllocError>
    ensures ok { OnOk result ((q : List ℕ) → file_named q (map file_entry files.new.entries) ≡ (if bytes_eq q name.now then Some bytes.items else file_named q (map file_entry files.old.entries))) }
    ensures err { OnErr result (files.new.entries ≡ files.old.entries) }
{
    let key = String::from_str(alloc, name)?;
    files.insert(key, bytes)?;
    Ok(())
}

impl Model for MemHost {
    ghost use Rattle.std.specs.Prelude.{◌≤◌, length, vec_capacity, option_map, map, Some, None, if◌then◌else◌};
    ghost use Rattle.aplc_io.specs.Memory.{HostMemory, file_entry};

    ghost Value = { HostMemory };

    ghost view = { λ h. record {
      files = map file_entry h.files.entries;
      text = h.text.items;
      target = option_map (λ m. record { name = if m.named then Some h.name.items else None; run = m.run }) h.made;
      room = h.room;
      fails = h.fails.items;
      calls = h.calls;
      fetch_faults = h.fetch_faults;
      text_faults = h.text_faults;
      taken = h.taken;
      fetches = h.fetches;
      begun = h.begun;
      put = h.put;
    } };

    ghost invariant = { λ h. (length h.text.items ≤ h.room) × (h.room ≤ vec_capacity h.text) × (255 ≤ vec_capacity h.name) };
}

impl MemHost {
    /// A host without files, with memory for `room` bytes of text and for a target's name. No later
    /// `text_to` or `put_text` takes memory.
    pub fn new(alloc: Global, room: usize, fails: Vec<u64>) -> Result<MemHost, AllocError>
        ensures { IfOk result (λ h. h ≡ empty_host room fails.items) }
    {
        let text = Vec::with_capacity(alloc, room)?;
        let name = Vec::with_capacity(alloc, NAME_BYTES)?;
        Ok(MemHost {
            alloc,
            files: BTreeMap::new(alloc),
            text,
            room,
            name,
            made: None,
            fails,
            calls: 0,
            fetch_faults: 0,
            text_faults: 0,
            taken: 0,
            fetches: 0,
            begun: 0,
            put: 0,
        })
    }

    /// Adds a file, in the place of one that has this name. It is no call that `fails` counts.
    pub fn add(&mut self, name: &str, bytes: Vec<u8>) -> Result<(), AllocError>
        ensures ok { OnOk result ((q : List ℕ) → file_named q self.new.files ≡
            (if bytes_eq q name.now then Some bytes.items else file_named q self.old.files)) }
        ensures rest { self.new ≡ record self.old { files = self.new.files } }
        ensures err { OnErr result (self.new ≡ self.old) }
    {
        put_file(self.alloc, &mut self.files, name, bytes)
    }

    /// The text as it stands.
    pub fn text(&self) -> &[u8]
        ensures { result.now ≡ self.now.text }
    {
        self.text.as_slice()
    }

    /// The target that the last Ok of `text_to` made, if there was one: the first 255 bytes of the name, if
    /// one was given, and whether the text is also to be run.
    pub fn target(&self) -> Option<(Option<&[u8]>, bool)>
        ensures { option_map (λ t. record {
          name = option_map
              (λ s. s.now) t.0;
          run = t.1;
        }) result ≡ self.now.target }
    {
        match self.made {
            None => None,
            Some(made) if made.named => Some((Some(self.name.as_slice()), made.run)),
            Some(made) => Some((None, made.run)),
        }
    }

    /// The faults of `fetch` so far.
    pub fn fetch_faults(&self) -> u64
        ensures { result ≡ self.now.fetch_faults }
    {
        self.fetch_faults
    }

    /// The faults of `text_to` and `put_text` so far.
    pub fn text_faults(&self) -> u64
        ensures { result ≡ self.now.text_faults }
    {
        self.text_faults
    }
}

impl Host for MemHost {
    ghost use Rattle.aplc_io.specs.Memory.{host_state, host_taken, host_fetches};

    ghost state = { host_state };

    ghost taken = { host_taken };

    ghost fetches = { host_fetches };

    fn fetch(&mut self, alloc: Global, name: &str, limit: u64) -> Result<Vec<u8>, FetchFault>
        ensures bound { IfOk result (λ v. length v.items ≤ limit) }
        ensures bytes { IfOk result (λ v. file_named name.now self.old.files ≡ Some v.items) }
        ensures failed { IsErrOf result FetchFault.Failed ↔
            (HostCallFails self.old ⊎ (file_named name.now self.old.files ≡ None)) }
        ensures stops { IfErr result
            (λ fault. FetchStops fault name.now limit (host_state self.old) (host_state self.new)) }
        ensures counted { HostCallFails self.old → self.new ≡ fetch_failed self.old }
        ensures called { ¬ HostCallFails self.old → self.new ≡ fetch_called self.old name.now limit }
    {
        self.calls = self.calls.saturating_add(1);
        self.taken = 0;
        self.fetches = self.fetches.saturating_add(1);
        if self.fails.contains(&self.calls) {
            self.fetch_faults = self.fetch_faults.saturating_add(1);
            return Err(FetchFault::Failed);
        }
        let Some(bytes) = file_bytes(&self.files, name) else {
            return Err(FetchFault::Failed);
        };
        let count = bytes.len() as u64;
        self.taken = count.min(limit.saturating_add(1));
        if count > limit {
            return Err(FetchFault::TooLong);
        }
        let Ok(copy) = bytes.to_vec(alloc) else {
            return Err(FetchFault::Memory);
        };
        Ok(copy)
    }

    fn text_to(&mut self, name: Option<&str>, run: bool) -> Result<(), Failed>
        ensures fails { OnErr result (TextNotBegun (host_state self.old) (host_state self.new)) }
        ensures failed { IsErr result ↔ HostCallFails self.old }
        ensures ok { OnOk result
            (self.new ≡ text_started self.old (option_map (λ s. s.now) name.entry) run) }
        ensures err { OnErr result (self.new ≡ text_refused self.old) }
    {
        self.calls = self.calls.saturating_add(1);
        self.begun = self.begun.saturating_add(1);
        self.text.clear();
        if self.fails.contains(&self.calls) {
            self.text_faults = self.text_faults.saturating_add(1);
            return Err(Failed);
        }
        self.name.clear();
        if let Some(name) = name {
            match self.name.extend_from_slice(name_front(name)) {
                Ok(()) => {}
                Err(_) => unreachable!(),
            }
            self.made = Some(Made { named: true, run });
        } else {
            self.made = Some(Made { named: false, run });
        }
        Ok(())
    }

    /// Takes as many bytes as fit.
    fn put_text(&mut self, bytes: &[u8]) -> Result<usize, Failed>
        requires { 0 < length bytes.now }
        ensures takes { IfOk result
            (λ n. host_state self.new ≡ text_with (host_state self.old) (take n bytes.now)) }
        ensures fails { OnErr result (TextFails (host_state self.old) (host_state self.new)) }
        ensures failed { IsErr result ↔ TextCallFails self.old }
        ensures count { IfOk result (λ n. n ≡ text_takes self.old (length bytes.now)) }
        ensures ok { IfOk result (λ n. self.new ≡ text_took self.old (take n bytes.now)) }
        ensures err { OnErr result (self.new ≡ text_failed self.old) }
    {
        self.calls = self.calls.saturating_add(1);
        if self.text.len() >= self.room || self.fails.contains(&self.calls) {
            self.text_faults = self.text_faults.saturating_add(1);
            return Err(Failed);
        }
        let count = bytes.len().min(self.room - self.text.len());
        match self.text.extend_from_slice(&bytes[..count]) {
            Ok(()) => {
                self.put = self.put.saturating_add(count as u64);
                Ok(count)
            }
            Err(_) => unreachable!(),
        }
    }
}
