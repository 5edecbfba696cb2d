//! The facts of a function's local names by their numbers.
//! They must not know where the facts are kept.

ghost use Rattle.std.specs.Prelude.{◌≡◌, ◌++◌, ◌∷◌, [], length, slice_get, slice_set, OnOk};
ghost use Rattle.aplc_arr.specs.Delayed.{first_n};
ghost use Rattle.aplc_infer.specs.declared.fact.Inferred.TheVariants.{Unset};
ghost use Rattle.aplc_infer.specs.Seeing.{at};
ghost use Rattle.aplc_infer.specs.Rows.{last_change};

use crate::fact::Inferred;
use std::alloc::{AllocError, Global};
use std::marker::Model;

/// A local name was given a fact.
#[derive(Drop)]
pub struct Change {
    pub local: usize,
    pub fact: Inferred,
}

/// A fact for each local name. Where few are set, only these are kept.
#[derive(Drop)]
pub struct Row {
    count: usize,
    base: Vec<Inferred>,
    changes: Vec<Change>,
}

impl Model for Row {
    ghost use Rattle.std.specs.Prelude.{List};
    ghost use Rattle.aplc_infer.specs.declared.fact.Inferred.{Inferred};

    ghost Value = { List Inferred };

    ghost use Rattle.aplc_infer.specs.Rows.{with_changes, base_or, IsEither};

    ghost view = { λ r. with_changes r.changes.items (base_or r.count r.base.items) };

    ghost invariant = { λ r. IsEither r.base.items r.changes.items };
}

fn fact_in(base: &[Inferred], k: usize) -> Option<Inferred>
    ensures { result ≡ slice_get base.now k }
{
    match base.get(k) {
        None => None,
        Some(fact) => Some(fact.copy()),
    }
}

/// What a local name was given last.
fn last_change(changes: &[Change], k: usize) -> Inferred
    ensures { result ≡ last_change changes.now k Unset }
{
    let mut fact = Inferred::Unset;
    for change in changes {
        if change.local == k {
            fact = change.fact.copy();
        }
    }
    fact
}

impl Row {
    /// So many names that are not set.
    pub fn blank(alloc: Global, count: usize) -> Row
        ensures { result ≡ first_n (λ k. Unset) count }
    {
        Row {
            count,
            base: Vec::new(alloc),
            changes: Vec::new(alloc),
        }
    }

    #[tactic(auto, using(crate::proofs::Rowed::row_facts))]
    pub fn from_facts(alloc: Global, facts: Vec<Inferred>) -> Row
        ensures { result ≡ facts.items }
    {
        Row {
            count: facts.len(),
            base: facts,
            changes: Vec::new(alloc),
        }
    }

    #[tactic(auto, using(crate::proofs::Rowed::lengths))]
    pub fn len(&self) -> usize
        ensures { result ≡ length self.now }
    {
        if self.base.is_empty() {
            self.count
        } else {
            self.base.len()
        }
    }

    /// What was given to names since, in order.
    pub fn changes(&self) -> &[Change] {
        self.changes.as_slice()
    }

    /// The fact of a local name. Beyond the last nothing is set.
    #[tactic(auto, using(crate::proofs::Rowed::rows))]
    pub fn at(&self, k: usize) -> Inferred
        ensures { result ≡ at self.now k }
    {
        match fact_in(self.base.as_slice(), k) {
            Some(fact) => fact,
            None => {
                if k < self.count {
                    last_change(self.changes.as_slice(), k)
                } else {
                    Inferred::Unset
                }
            }
        }
    }

    #[tactic(auto, using(crate::proofs::Rowed::sets))]
    pub fn set(&mut self, k: usize, fact: Inferred) -> Result<(), AllocError>
        ensures { OnOk result (self.new ≡ slice_set self.old k fact) }
    {
        if self.base.is_empty() {
            self.changes.push(Change { local: k, fact })?;
            return Ok(());
        }
        if k < self.base.len() {
            self.base[k] = fact;
        }
        Ok(())
    }
}
