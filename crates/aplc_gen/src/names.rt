//! Lists of names that know where each name stands.
//! They must not know what the names are for.

ghost use Rattle.std.specs.Prelude.{◌≡◌, ◌≤◌, [], length, slice_get, option_copied, nat_eq, IfOk, OnOk};
ghost use Rattle.std.specs.List.{IsDistinct};
ghost use Rattle.aplc_names.specs.States.{is_among};
ghost use Rattle.aplc_gen.specs.Layouts.{place_in};
ghost use Rattle.aplc_gen.specs.Made.{with_new, with_each};

use indexmap::IndexSet;
use std::alloc::{AllocError, Global};
use std::marker::Model;

/// Numbers, each once. The place of a number is counted from 0.
#[derive(Drop)]
pub struct Names {
    names: IndexSet<u32>,
}

impl Model for Names {
    ghost use Rattle.std.specs.Prelude.{List, ℕ};

    ghost Value = { List ℕ };

    ghost view = { λ l. l.names.keys };
}

impl Names {
    pub fn new(alloc: Global) -> Names
        ensures { result ≡ [] }
    {
        Names {
            names: IndexSet::new(alloc),
        }
    }

    pub fn len(&self) -> usize
        ensures { result ≡ length self.now }
    {
        self.names.len()
    }

    /// Puts a number behind the others, if it is not among them.
    #[tactic(auto, using(crate::proofs::Numbered::with_name))]
    pub fn add(&mut self, name: u32) -> Result<(), AllocError>
        ensures { OnOk result (self.new ≡ with_new name self.old) }
    {
        self.names.insert(name)?;
        Ok(())
    }

    /// Puts each of these behind the others, if it is not among them.
    pub fn add_all(&mut self, names: &[u32]) -> Result<(), AllocError>
        ensures { OnOk result (self.new ≡ with_each self.old names.now) }
    {
        for name in names {
            self.add(*name)?;
        }
        Ok(())
    }

    /// The same numbers once more.
    pub fn copy(&self, alloc: Global) -> Result<Names, AllocError>
        ensures { IfOk result (λ ns. ns ≡ self.now) }
    {
        let mut names = Names::new(alloc);
        names.add_all(self.names.as_slice())?;
        Ok(names)
    }

    pub fn as_slice(&self) -> &[u32]
        ensures names { result.now ≡ self.now }
        ensures once { IsDistinct nat_eq self.now }
    {
        self.names.as_slice()
    }

    pub fn get(&self, place: usize) -> Option<&u32>
        ensures { option_copied result ≡ slice_get self.now place }
    {
        self.names.get_index(place)
    }

    #[tactic(auto, using(crate::proofs::Numbered::has_name))]
    pub fn has(&self, name: u32) -> bool
        ensures { result ≡ is_among name self.now }
    {
        self.names.contains(&name)
    }

    /// Where a number stands, or how many there are where it is not among them.
    #[tactic(auto, using(crate::proofs::Numbered::numbered))]
    pub fn place(&self, name: u32) -> usize
        ensures place { result ≡ place_in self.now name }
        ensures within { result ≤ length self.now }
    {
        match self.names.get_index_of(&name) {
            Some(k) => k,
            None => self.names.len(),
        }
    }
}
