//! The local names of a function and their numbers.
//! They must not know what the names stand for.

ghost use Rattle.std.specs.Prelude.{◌≡◌, [], length, OnOk};
ghost use Rattle.aplc_infer.specs.Seeing.{with_new, number_in};

use indexmap::IndexSet;
use std::alloc::{AllocError, Global};
use std::marker::Model;

/// Names, each once. The number of a name is its place.
#[derive(Drop)]
pub struct Locals {
    names: IndexSet<u32>,
}

impl Model for Locals {
    ghost use Rattle.std.specs.Prelude.{List, ℕ};

    ghost Value = { List ℕ };

    ghost view = { λ l. l.names.keys };
}

impl Locals {
    pub fn new(alloc: Global) -> Locals
        ensures { result ≡ [] }
    {
        Locals {
            names: IndexSet::new(alloc),
        }
    }

    /// Puts a name behind the others, if it is not among them.
    pub fn add(&mut self, name: u32) -> Result<(), AllocError>
        ensures { OnOk result (self.new ≡ with_new name self.old) }
    {
        self.names.insert(name)?;
        Ok(())
    }

    pub fn len(&self) -> usize
        ensures { result ≡ length self.now }
    {
        self.names.len()
    }

    /// The number of a name, or how many there are where it is not among them.
    #[tactic(auto, using(crate::proofs::Numbered::numbered))]
    pub fn number(&self, name: u32) -> usize
        ensures { result ≡ number_in name self.now }
    {
        match self.names.get_index_of(&name) {
            Some(k) => k,
            None => self.names.len(),
        }
    }
}
