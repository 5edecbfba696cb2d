//! Facts, each kept once, by numbers.
//! It must not know what has the facts.

ghost use Rattle.std.specs.Prelude.{◌≡◌, ◌<◌, ◌≤◌, ◌∷◌, [], ℕ, length, slice_get, option_copied, IfOk};
ghost use Rattle.aplc_infer.specs.declared.fact.Inferred.TheVariants.{Unset};
ghost use Rattle.aplc_infer.specs.Facts.{below, join, IsShort};
ghost use Rattle.aplc_infer.specs.Seeing.{at};
ghost use Rattle.aplc_infer.specs.Pools.{Grows};

use crate::fact::Inferred;
use indexmap::IndexSet;
use std::alloc::{AllocError, Global};
use std::marker::Model;

/// Facts, each once. The number of a fact is its place.
#[derive(Drop)]
pub struct Pool {
    facts: IndexSet<Inferred>,
}

impl Model for Pool {
    ghost use Rattle.std.specs.Prelude.{List};
    ghost use Rattle.aplc_infer.specs.declared.fact.Inferred.{Inferred};

    ghost Value = { List Inferred };

    ghost view = { λ p. p.facts.keys };
}

impl Pool {
    /// Number 0 says that nothing is set.
    pub fn new(alloc: Global) -> Result<Pool, AllocError>
        ensures { IfOk result (λ p. p ≡ Unset ∷ []) }
    {
        let mut facts = IndexSet::new(alloc);
        facts.insert(Inferred::Unset)?;
        Ok(Pool { facts })
    }

    /// How many facts it has.
    pub fn len(&self) -> usize
        ensures { result ≡ length self.now }
    {
        self.facts.len()
    }

    pub fn as_slice(&self) -> &[Inferred]
        ensures { result.now ≡ self.now }
    {
        self.facts.as_slice()
    }

    /// The fact of a number. Beyond the last nothing is set.
    pub fn at(&self, number: u32) -> Inferred
        ensures { result ≡ at self.now number }
    {
        match self.as_slice().get(number as usize) {
            None => Inferred::Unset,
            Some(fact) => fact.copy(),
        }
    }

    /// A fact lies below the one of this number.
    pub fn lies_below(&self, fact: &Inferred, number: u32) -> bool
        ensures { result ≡ below fact.now (at self.now number) }
    {
        match self.as_slice().get(number as usize) {
            None => fact.is_below(&Inferred::Unset),
            Some(other) => fact.is_below(other),
        }
    }

    /// The fact of one number lies below that of another.
    pub fn is_covered(&self, from: u32, number: u32) -> bool
        ensures { result ≡ below (at self.now from) (at self.now number) }
    {
        match self.as_slice().get(from as usize) {
            None => true,
            Some(fact) => self.lies_below(fact, number),
        }
    }

    /// No fact has more than eight lengths.
    pub fn is_short(&self, number: u32) -> bool
        ensures { IsShort (at self.now number) }
    {
        match self.as_slice().get(number as usize) {
            None => true,
            Some(fact) => fact.is_short(),
        }
    }

    /// The number of a fact, which is new or stands there.
    #[tactic(auto, using(crate::proofs::Pooled::pools))]
    pub fn add(&mut self, fact: Inferred) -> Result<u32, AllocError>
        ensures grows { Grows self.old self.new }
        ensures within { IfOk result (λ n. n < length self.new) }
        ensures fact { IfOk result (λ n. at self.new n ≡ fact) }
    {
        if self.facts.len() > u32::MAX as usize {
            return Err(AllocError);
        }
        let (number, _) = self.facts.insert_full(fact)?;
        Ok(number as u32)
    }

    /// The number of the join of two facts.
    #[tactic(auto, using(crate::proofs::Pooled::grows_none, crate::proofs::Pooled::join_above))]
    pub fn joined(&mut self, old: u32, new: u32) -> Result<u32, AllocError>
        requires within { new < length self.old }
        ensures grows { Grows self.old self.new }
        ensures within { IfOk result (λ n. n < length self.new) }
        ensures fact { IfOk result (λ n. at self.new n ≡ join (at self.old old) (at self.old new)) }
    {
        let a = self.at(old);
        let b = self.at(new);
        if a.is_below(&b) {
            return Ok(new);
        }
        self.add(a.join(&b))
    }
}
