//! A row of numbers into a pool of facts, and how a fact of it is raised.
//! It must not know what the row is for.

ghost use Rattle.std.specs.Prelude.{◌≡◌, ◌<◌, ◌++◌, ◌∷◌, [], ℕ, length, set, replicate, get_or, slice_get, IfOk, OnOk};
ghost use Rattle.aplc_infer.specs.Seeing.{at};
ghost use Rattle.aplc_infer.specs.Pools.{spelled, Grows, IsHoused};
ghost use Rattle.aplc_infer.specs.Rising.{RowRises};

use crate::fact::Inferred;
use crate::pool::Pool;
use std::alloc::{AllocError, Global};
use std::marker::Model;

/// A row of numbers.
#[derive(Drop)]
pub struct Numbers {
    items: Vec<u32>,
}

impl Model for Numbers {
    ghost use Rattle.std.specs.Prelude.{List, ℕ};

    ghost Value = { List ℕ };

    ghost view = { λ r. r.items.items };
}

impl Numbers {
    pub fn blank(alloc: Global, count: usize) -> Result<Numbers, AllocError>
        ensures { IfOk result (λ r. r ≡ replicate count 0) }
    {
        let items = vec![in alloc; 0u32; count]?;
        Ok(Numbers { items })
    }

    /// No numbers yet, with room for so many.
    pub fn with_capacity(alloc: Global, count: usize) -> Result<Numbers, AllocError>
        ensures { IfOk result (λ r. r ≡ []) }
    {
        let items = Vec::with_capacity(alloc, count)?;
        Ok(Numbers { items })
    }

    pub fn copy(&self, alloc: Global) -> Result<Numbers, AllocError>
        ensures { IfOk result (λ r. r ≡ self.now) }
    {
        let items = Vec::from_slice(alloc, self.items.as_slice())?;
        Ok(Numbers { items })
    }

    pub fn push(&mut self, number: u32) -> Result<(), AllocError>
        ensures { OnOk result (self.new ≡ self.old ++ number ∷ []) }
    {
        self.items.push(number)?;
        Ok(())
    }

    pub fn as_slice(&self) -> &[u32]
        ensures { result.now ≡ self.now }
    {
        self.items.as_slice()
    }

    pub fn len(&self) -> usize
        ensures { result ≡ length self.now }
    {
        self.items.len()
    }

    pub fn get(&self, k: usize) -> Option<u32>
        ensures { result ≡ slice_get self.now k }
    {
        self.items.get(k).copied()
    }

    pub fn at(&self, k: usize) -> u32
        requires { k < length self.now }
        ensures { result ≡ get_or self.now k result }
    {
        self.items[k]
    }

    fn set(&mut self, k: usize, number: u32)
        requires { k < length self.old }
        ensures { self.new ≡ set self.old k number }
    {
        self.items[k] = number;
    }
}

/// Raises a fact of a row so that it is above this one, and says whether it rose.
#[tactic(auto, using(crate::proofs::Pooled::raises))]
pub fn raise_in(
    pool: &mut Pool,
    row: &mut Numbers,
    k: usize,
    fact: &Inferred,
) -> Result<bool, AllocError>
    requires housed { IsHoused (length pool.old) row.old }
    ensures grows { Grows pool.old pool.new }
    ensures housed { IsHoused (length pool.new) row.new }
    ensures rises { IfOk result (RowRises (spelled pool.old row.old) (spelled pool.new row.new) k fact.now) }
{
    if k >= row.len() {
        return Err(AllocError);
    }
    let number = row.at(k);
    if pool.lies_below(fact, number) {
        return Ok(false);
    }
    let _short = fact.is_short();
    let old = pool.at(number);
    let new = pool.add(old.join(fact))?;
    row.set(k, new);
    Ok(true)
}

/// The same by a fact of the pool.
#[tactic(auto, using(crate::proofs::Pooled::raises))]
pub fn pass_in(pool: &mut Pool, row: &mut Numbers, k: usize, from: u32) -> Result<bool, AllocError>
    requires housed { IsHoused (length pool.old) row.old }
    requires within { from < length pool.old }
    ensures grows { Grows pool.old pool.new }
    ensures housed { IsHoused (length pool.new) row.new }
    ensures rises { IfOk result (RowRises (spelled pool.old row.old) (spelled pool.new row.new) k (at pool.old from)) }
{
    if k >= row.len() {
        return Err(AllocError);
    }
    let number = row.at(k);
    if pool.is_covered(from, number) {
        return Ok(false);
    }
    let _short = pool.is_short(from);
    let new = pool.joined(number, from)?;
    row.set(k, new);
    Ok(true)
}
