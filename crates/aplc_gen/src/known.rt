//! The names that have a value where code is written.
//! They must not know what the code is.

ghost use Rattle.std.specs.Prelude.{◌≡◌, ◌∷◌, ◌++◌, [], reverse, IfOk, OnOk};
ghost use Rattle.std.specs.Option.{option_to_list};
ghost use Rattle.std.specs.List.{filter};
ghost use Rattle.aplc_names.specs.States.{is_among};
ghost use Rattle.aplc_gen.specs.Made.{with_each};
ghost use Rattle.aplc_gen.specs.Sparing.{is_flag_of};

use crate::names::Names;
use indexmap::IndexSet;
use std::alloc::{AllocError, Global};
use std::marker::Model;

/// Names with a value, the latest first. A name may be among them more than once.
#[derive(Drop)]
pub struct Known {
    order: Vec<u32>,
    names: IndexSet<u32>,
}

impl Model for Known {
    ghost use Rattle.std.specs.Prelude.{List, ℕ, reverse};
    ghost use Rattle.aplc_gen.specs.Writing.{IsSetOf};

    ghost Value = { List ℕ };

    ghost view = { λ k. reverse k.order.items };

    ghost invariant = { λ k. IsSetOf k.names.keys (reverse k.order.items) };
}

impl Known {
    pub fn new(alloc: Global) -> Known
        ensures { result ≡ [] }
    {
        Known {
            order: Vec::new(alloc),
            names: IndexSet::new(alloc),
        }
    }

    #[tactic(auto, using(crate::proofs::Numbered::known_names))]
    pub fn has(&self, name: u32) -> bool
        ensures { result ≡ is_among name self.now }
    {
        self.names.contains(&name)
    }

    /// One name more.
    #[tactic(auto, using(crate::proofs::Numbered::known_names))]
    pub fn add(&mut self, name: u32) -> Result<(), AllocError>
        ensures { OnOk result (self.new ≡ name ∷ self.old) }
    {
        self.order.reserve(1)?;
        self.names.insert(name)?;
        self.order.push(name)?;
        Ok(())
    }

    /// These names.
    #[tactic(auto, using(crate::proofs::Numbered::names_left))]
    pub fn of(alloc: Global, names: &Names) -> Result<Known, AllocError>
        ensures { IfOk result (λ k. k ≡ names.now) }
    {
        let mut known = Known::new(alloc);
        let count = names.len();
        for behind in 0..count {
            known.add_some(names.get(count - 1 - behind).copied())?;
        }
        Ok(known)
    }

    /// Each of these names more.
    fn add_all(&mut self, names: &[u32]) -> Result<(), AllocError>
        ensures { OnOk result (self.new ≡ reverse names.now ++ self.old) }
    {
        for name in names {
            self.add(*name)?;
        }
        Ok(())
    }

    /// The same names once more.
    #[tactic(auto, using(crate::proofs::Numbered::copied_all))]
    pub fn copy(&self, alloc: Global) -> Result<Known, AllocError>
        ensures { IfOk result (λ k. k ≡ self.now) }
    {
        let mut known = Known::new(alloc);
        known.add_all(self.order.as_slice())?;
        Ok(known)
    }

    /// Each of the names once.
    pub fn once(&self, alloc: Global) -> Result<Names, AllocError>
        ensures { IfOk result (λ ns. ns ≡ with_each [] self.now) }
    {
        each_once(alloc, self.order.as_slice())
    }

    /// Puts those of the names that are known behind the others.
    fn keep(&self, kept: &mut Names, names: &[u32]) -> Result<(), AllocError>
        ensures { OnOk result (kept.new ≡ with_each kept.old (filter (is_flag_of self.now) names.now)) }
    {
        for name in names {
            if self.has(*name) {
                kept.add(*name)?;
            }
        }
        Ok(())
    }

    /// Those of the names that are known.
    pub fn among(&self, alloc: Global, names: &Names) -> Result<Names, AllocError>
        ensures { IfOk result (λ ns. ns ≡ filter (is_flag_of self.now) names.now) }
    {
        let mut kept = Names::new(alloc);
        self.keep(&mut kept, names.as_slice())?;
        Ok(kept)
    }

    /// One name more, if there is one.
    pub fn add_some(&mut self, name: Option<u32>) -> Result<(), AllocError>
        ensures { OnOk result (self.new ≡ option_to_list name ++ self.old) }
    {
        match name {
            None => Ok(()),
            Some(name) => self.add(name),
        }
    }
}

/// Each of these once, from the last to the first.
fn each_once(alloc: Global, names: &[u32]) -> Result<Names, AllocError>
    ensures { IfOk result (λ ns. ns ≡ with_each [] (reverse names.now)) }
{
    let mut once = Names::new(alloc);
    for index in (0..names.len()).rev() {
        once.add(names[index])?;
    }
    Ok(once)
}
