//! Facts by their numbers. Each is kept once in a pool, and the column has numbers into it.
//! It must not know what the facts are of.

ghost use Rattle.std.specs.Prelude.{◌≡◌, ℕ, length, IfOk};
ghost use Rattle.aplc_infer.specs.declared.fact.Inferred.TheVariants.{Unset};
ghost use Rattle.aplc_infer.specs.Seeing.{at};
ghost use Rattle.aplc_infer.specs.Pools.{spelled, IsHoused};
ghost use Rattle.aplc_infer.specs.Rising.{RowRises};

use crate::fact::Inferred;
use crate::numbers::{Numbers, raise_in};
use crate::pool::Pool;
use std::alloc::{AllocError, Global};
use std::marker::Model;

/// The same facts over a pool that has those alone that are in use.
#[tactic(auto, using(crate::proofs::Pooled::used_none))]
fn in_use(alloc: Global, pool: &Pool, numbers: &Numbers) -> Result<(Pool, Numbers), AllocError>
    ensures housed { IfOk result (λ r. IsHoused (length r.0) r.1) }
    ensures same { IfOk result (λ r. spelled r.0 r.1 ≡ spelled pool.now numbers.now) }
{
    let mut used = Pool::new(alloc)?;
    let mut out = Numbers::with_capacity(alloc, numbers.len())?;
    for k in 0..numbers.len() {
        let number = numbers.at(k);
        let fact = pool.at(number);
        let new = used.add(fact)?;
        out.push(new)?;
    }
    Ok((used, out))
}

/// How many facts a pool may have until it is made anew: those in use, and as many again as an eighth of the column.
fn most(used: usize, count: usize) -> usize {
    used.saturating_add(count / 8).saturating_add(64)
}

/// Facts by their numbers; beyond the last nothing is set.
#[derive(Drop)]
pub struct Column {
    alloc: Global,
    pool: Pool,
    numbers: Numbers,
    /// A fact that was set has risen, so there may be facts in the pool that are no longer in use.
    is_stale: bool,
    /// A pool of more facts is made anew.
    most: usize,
}

impl Model for Column {
    ghost use Rattle.std.specs.Prelude.{List, length};
    ghost use Rattle.aplc_infer.specs.declared.fact.Inferred.{Inferred};

    ghost Value = { List Inferred };

    ghost use Rattle.aplc_infer.specs.Pools.{spelled, IsHoused};

    ghost view = { λ c. spelled c.pool c.numbers };

    ghost invariant = { λ c. IsHoused (length c.pool) c.numbers };
}

impl Column {
    /// So many facts that are not set.
    #[tactic(auto, using(crate::proofs::Pooled::column_blank, crate::proofs::Pooled::column_housed))]
    pub fn blank(alloc: Global, count: usize) -> Result<Column, AllocError>
        ensures { IfOk result (λ r. (k : ℕ) → at r k ≡ Unset) }
    {
        let pool = Pool::new(alloc)?;
        let numbers = Numbers::blank(alloc, count)?;
        Ok(Column {
            alloc,
            pool,
            numbers,
            is_stale: false,
            most: most(1, count),
        })
    }

    #[tactic(auto, using(crate::proofs::Pooled::column_ats))]
    pub fn at(&self, k: usize) -> Inferred
        ensures { result ≡ at self.now k }
    {
        if k < self.numbers.len() {
            self.pool.at(self.numbers.at(k))
        } else {
            Inferred::Unset
        }
    }

    /// Raises a fact so that it is above this one, and says whether it rose.
    pub fn raise(&mut self, k: usize, fact: &Inferred) -> Result<bool, AllocError>
        ensures { IfOk result (RowRises self.old self.new k fact.now) }
    {
        if self.pool.len() > self.most {
            self.tidy()?;
        }
        self.raise_number(k, fact)
    }

    fn raise_number(&mut self, k: usize, fact: &Inferred) -> Result<bool, AllocError>
        ensures { IfOk result (RowRises self.old self.new k fact.now) }
    {
        let was_set = self.is_set(k);
        let rose = raise_in(&mut self.pool, &mut self.numbers, k, fact)?;
        self.is_stale = self.is_stale || was_set;
        Ok(rose)
    }

    /// It is set, as far as its number shows.
    fn is_set(&self, k: usize) -> bool {
        k < self.numbers.len() && self.numbers.at(k) != 0
    }

    /// Takes facts out of the pool that are no longer in use.
    fn tidy(&mut self) -> Result<(), AllocError>
        ensures { self.new ≡ self.old }
    {
        let (pool, numbers) = in_use(self.alloc, &self.pool, &self.numbers)?;
        self.most = most(pool.len(), numbers.len());
        self.is_stale = false;
        self.pool = pool;
        self.numbers = numbers;
        Ok(())
    }

    /// The facts in use and the column's numbers of them.
    pub fn into_parts(self) -> Result<(Pool, Numbers), AllocError>
        ensures { IfOk result (λ r. spelled r.0 r.1 ≡ self) }
    {
        let Column {
            alloc,
            pool,
            numbers,
            is_stale,
            most: _,
        } = self;
        if is_stale {
            return in_use(alloc, &pool, &numbers);
        }
        Ok((pool, numbers))
    }
}
