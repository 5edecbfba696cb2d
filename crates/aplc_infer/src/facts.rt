//! The facts of the nodes of a program, as other crates read them.
//! They must not know how they were found.

ghost use Rattle.std.specs.Prelude.{◌≡◌, map, IfOk};
ghost use Rattle.std.specs.Option.{option_copied};
ghost use Rattle.aplc_infer.specs.Shown.{shown, shown_length, fact_at};

use crate::column::Column;
use crate::fact::{FactKind, Inferred};
use crate::numbers::Numbers;
use aplc_lex::List;
use aplc_syntax::NodeId;
use std::alloc::{AllocError, Global};
use std::marker::Model;

/// What is known of a value.
#[derive(Drop)]
pub struct Fact {
    pub kind: FactKind,
    /// How many axes it has. `None` is a mixed rank.
    pub rank: Option<u8>,
    /// The length of each axis. `None` is not known.
    pub lengths: List<Option<i64>>,
}

/// The facts of the nodes of a program: each of them once, and for each node a number.
#[derive(Drop)]
pub struct Facts {
    pool: Vec<Option<Fact>>,
    numbers: Numbers,
}

impl Model for Facts {
    ghost use Rattle.std.specs.Prelude.{List as ListOf, Option};
    ghost use Rattle.aplc_infer.specs.declared.facts.Fact.{Fact};

    ghost Value = { ListOf (Option Fact) };

    ghost use Rattle.aplc_infer.specs.Shown.{pooled_facts};

    ghost view = { λ f. pooled_facts f.pool.items f.numbers };
}

fn shown_length(length: Option<u32>) -> Option<i64>
    ensures { result ≡ shown_length length }
{
    match length {
        None => None,
        Some(n) => Some(n as i64),
    }
}

fn shown_lengths(alloc: Global, lengths: &[Option<u32>]) -> Result<List<Option<i64>>, AllocError>
    ensures { IfOk result (λ v. v ≡ map shown_length lengths.now) }
{
    let mut out = Vec::new(alloc);
    for length in lengths {
        out.push(shown_length(*length))?;
    }
    Ok(List::from_vec(out))
}

fn shown(alloc: Global, fact: &Inferred) -> Result<Option<Fact>, AllocError>
    ensures { IfOk result (λ f. f ≡ shown fact.now) }
{
    match fact {
        Inferred::Unset => Ok(None),
        Inferred::Of(kind, None) => Ok(Some(Fact {
            kind: *kind,
            rank: None,
            lengths: List::from_vec(Vec::new(alloc)),
        })),
        Inferred::Of(kind, Some(lengths)) => {
            let known = lengths.as_slice();
            let rank = known.len() as u8;
            let lengths = shown_lengths(alloc, known)?;
            Ok(Some(Fact {
                kind: *kind,
                rank: Some(rank),
                lengths,
            }))
        }
    }
}

fn copied_lengths(alloc: Global, lengths: &[Option<i64>]) -> Result<List<Option<i64>>, AllocError>
    ensures { IfOk result (λ v. v ≡ lengths.now) }
{
    let items = Vec::from_slice(alloc, lengths)?;
    Ok(List::from_vec(items))
}

fn copied(alloc: Global, fact: &Option<Fact>) -> Result<Option<Fact>, AllocError>
    ensures { IfOk result (λ f. f ≡ fact.now) }
{
    match fact {
        None => Ok(None),
        Some(fact) => {
            let lengths = copied_lengths(alloc, fact.lengths.as_slice())?;
            Ok(Some(Fact {
                kind: fact.kind,
                rank: fact.rank,
                lengths,
            }))
        }
    }
}

fn all_copied(alloc: Global, facts: &[Option<Fact>]) -> Result<Vec<Option<Fact>>, AllocError>
    ensures { IfOk result (λ v. v.items ≡ facts.now) }
{
    let mut out = Vec::new(alloc);
    for fact in facts {
        out.push(copied(alloc, fact)?)?;
    }
    Ok(out)
}

/// Facts as other crates read them.
fn all_shown(alloc: Global, facts: &[Inferred]) -> Result<Vec<Option<Fact>>, AllocError>
    ensures { IfOk result (λ v. v.items ≡ map shown facts.now) }
{
    let mut out = Vec::with_capacity(alloc, facts.len())?;
    for fact in facts {
        out.push(shown(alloc, fact)?)?;
    }
    Ok(out)
}

/// The fact of a number.
fn pooled(pool: &[Option<Fact>], number: u32) -> Option<&Fact>
    ensures { option_copied result ≡ fact_at pool.now number }
{
    match pool.get(number as usize) {
        None => None,
        Some(fact) => fact.as_ref(),
    }
}

impl Facts {
    /// The facts of nodes by their numbers.
    #[tactic(auto, using(crate::proofs::PooledFacts::all_shown))]
    pub fn from_nodes(alloc: Global, nodes: Column) -> Result<Facts, AllocError>
        ensures { IfOk result (λ f. f ≡ map shown nodes) }
    {
        let (facts, numbers) = nodes.into_parts()?;
        let pool = all_shown(alloc, facts.as_slice())?;
        Ok(Facts { pool, numbers })
    }

    /// The same facts once more.
    pub fn copy(&self, alloc: Global) -> Result<Facts, AllocError>
        ensures { IfOk result (λ f. f ≡ self.now) }
    {
        let pool = all_copied(alloc, self.pool.as_slice())?;
        let numbers = self.numbers.copy(alloc)?;
        Ok(Facts { pool, numbers })
    }

    /// The fact of a node. `None` is a node that is never evaluated.
    #[tactic(auto, using(crate::proofs::PooledFacts::looks))]
    pub fn of(&self, node: NodeId) -> Option<&Fact>
        ensures { option_copied result ≡ fact_at self.now node.0 }
    {
        match self.numbers.get(node.0 as usize) {
            None => None,
            Some(number) => pooled(self.pool.as_slice(), number),
        }
    }
}
