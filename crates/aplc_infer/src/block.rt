//! Facts by row and number. Each is kept once in a pool, and a row has numbers into it.
//! It must not know what the rows are for.

ghost use Rattle.std.specs.Prelude.{◌≡◌, ◌≤◌, ◌∷◌, [], ℕ, length, IfOk};
ghost use Rattle.aplc_infer.specs.declared.fact.Inferred.TheVariants.{Unset};
ghost use Rattle.aplc_infer.specs.Pools.{AreBlank};
ghost use Rattle.aplc_infer.specs.Rising.{at2, RowsRise};

use crate::fact::Inferred;
use crate::numbers::{Numbers, pass_in, raise_in};
use crate::pool::Pool;
use std::alloc::{AllocError, Global};
use std::marker::Model;

/// Rows of facts. Nothing is set beyond them.
#[derive(Drop)]
pub struct Block {
    pool: Pool,
    rows: Vec<Numbers>,
}

impl Model for Block {
    ghost use Rattle.std.specs.Prelude.{List, length};
    ghost use Rattle.aplc_infer.specs.declared.fact.Inferred.{Inferred};

    ghost Value = { List (List Inferred) };

    ghost use Rattle.aplc_infer.specs.Pools.{all_spelled, AreHoused};

    ghost view = { λ b. all_spelled b.pool b.rows.items };

    ghost invariant = { λ b. AreHoused (length b.pool) b.rows.items };
}

#[tactic(auto, using(crate::proofs::Pooled::blank_more))]
fn blank_rows(alloc: Global, rows: usize, count: usize) -> Result<Vec<Numbers>, AllocError>
    ensures { IfOk result (λ v. AreBlank v.items) }
{
    let mut out = Vec::new(alloc);
    for _ in 0..rows {
        out.push(Numbers::blank(alloc, count)?)?;
    }
    Ok(out)
}

impl Block {
    /// So many rows of so many facts that are not set.
    pub fn blank(alloc: Global, rows: usize, count: usize) -> Result<Block, AllocError>
        ensures { IfOk result (λ b. (i : ℕ × ℕ) → at2 b i ≡ Unset) }
    {
        let pool = Pool::new(alloc)?;
        let rows = blank_rows(alloc, rows, count)?;
        Ok(Block { pool, rows })
    }

    pub fn at(&self, l: usize, k: usize) -> Inferred
        ensures { result ≡ at2 self.now (l, k) }
    {
        match self.rows.get(l) {
            None => Inferred::Unset,
            Some(row) => {
                if k < row.len() {
                    self.pool.at(row.at(k))
                } else {
                    Inferred::Unset
                }
            }
        }
    }

    /// Beyond this number nothing is set in row `l`.
    #[tactic(auto, using(crate::proofs::Pooled::widths))]
    pub fn width(&self, l: usize) -> usize
        ensures { (k : ℕ) → result ≤ k → at2 self.now (l, k) ≡ Unset }
    {
        match self.rows.get(l) {
            None => 0,
            Some(row) => row.len(),
        }
    }

    /// Two rows have one fact at this place, as far as their numbers show.
    pub fn is_passed(&self, l: usize, m: usize, k: usize) -> bool {
        if l >= self.rows.len() || m >= self.rows.len() {
            return false;
        }
        let from = &self.rows[l];
        let to = &self.rows[m];
        k < from.len() && k < to.len() && from.at(k) == to.at(k)
    }

    /// Raises a fact so that it is above this one, and says whether it rose.
    pub fn raise(&mut self, l: usize, k: usize, fact: &Inferred) -> Result<bool, AllocError>
        ensures { IfOk result (RowsRise self.old self.new (l, k) fact.now) }
    {
        if l >= self.rows.len() {
            return Err(AllocError);
        }
        let row = &mut self.rows[l];
        let rose = raise_in(&mut self.pool, row, k, fact)?;
        Ok(rose)
    }

    /// Raises the fact of row `m` so that it is above that of row `l`, and says whether it rose.
    pub fn pass(&mut self, l: usize, m: usize, k: usize) -> Result<bool, AllocError>
        ensures { IfOk result (RowsRise self.old self.new (m, k) (at2 self.old (l, k))) }
    {
        if l >= self.rows.len() || m >= self.rows.len() {
            return Err(AllocError);
        }
        let source = &self.rows[l];
        if k >= source.len() {
            return Err(AllocError);
        }
        let from = source.at(k);
        let row = &mut self.rows[m];
        let rose = pass_in(&mut self.pool, row, k, from)?;
        Ok(rose)
    }
}
