//! The facts of a whole program, or its first refusal by the typing rules.
//! It must not know how facts are found.

ghost use Rattle.std.specs.Prelude.{◌≡◌, IfOk, IfErr};
ghost use Rattle.aplc_lex.specs.Firsts.{IsFirstOf};
ghost use Rattle.aplc_infer.specs.Families.{IsLeastOf, IsWellTyped};
ghost use Rattle.aplc_infer.specs.Tables.{family_of};
ghost use Rattle.aplc_infer.specs.Steps.{StandsUnder};
ghost use Rattle.aplc_infer.specs.Shown.{IsInferred};
ghost use Rattle.aplc_infer.specs.Stopped.{SaysTyping, DeniesTyping};

use crate::facts::Facts;
use crate::lookup::Lookup;
use crate::refusals::first_refusal;
use crate::searching::least;
use crate::tables::Tables;
use aplc_lex::{Refusal, Stop};
use aplc_names::Bound;
use std::alloc::{AllocError, Global};

/// What was found out of a program.
#[derive(Drop)]
struct Findings {
    tables: Tables,
    first: Option<Refusal>,
}

fn examine(alloc: Global, bound: &Bound) -> Result<Findings, AllocError>
    ensures least { IfOk result (λ f. IsLeastOf bound.now (family_of f.tables)) }
    ensures first { IfOk result (λ f. IsFirstOf (StandsUnder bound.now (family_of f.tables)) f.first) }
{
    let lookup = Lookup::new(alloc, bound)?;
    let tables = least(alloc, &lookup)?;
    let first = first_refusal(alloc, &tables, &lookup)?;
    Ok(Findings { tables, first })
}

/// The facts of the nodes, under which no refusal stands.
#[tactic(auto, using(crate::proofs::Refused::inferred_by))]
fn show(alloc: Global, bound: &Bound, tables: Tables) -> Result<Facts, AllocError>
    requires least { IsLeastOf bound.now (family_of tables) }
    requires fine { IsFirstOf (StandsUnder bound.now (family_of tables)) None }
    ensures { IfOk result (IsInferred bound.now) }
{
    let facts = Facts::from_nodes(alloc, tables.into_nodes())?;
    Ok(facts)
}

#[tactic(auto, using(crate::proofs::Refused::none_first, crate::proofs::Refused::typed_by, crate::proofs::Refused::refused_by, crate::proofs::Refused::untyped_by))]
fn conclude(alloc: Global, bound: &Bound, found: Findings) -> Result<Facts, Stop>
    requires least { IsLeastOf bound.now (family_of found.tables) }
    requires first { IsFirstOf (StandsUnder bound.now (family_of found.tables)) found.first }
    ensures inferred { IfOk result (IsInferred bound.now) }
    ensures typed { IfOk result (λ f. IsWellTyped bound.now) }
    ensures refused { IfErr result (SaysTyping bound.now) }
    ensures untyped { IfErr result (DeniesTyping bound.now) }
{
    match found.first {
        Some(r) => Err(Stop::Refused(r)),
        None => match show(alloc, bound, found.tables) {
            Ok(facts) => Ok(facts),
            Err(_) => Err(Stop::Memory),
        },
    }
}

/// The facts of a program under the least family that meets the rules, where no refusal stands under it: just then some
/// family fits. Else the first refusal under the least family: 17 to 22, the smallest place first and then the smallest
/// number. `Memory` says nothing of the program.
pub fn infer(alloc: Global, bound: &Bound) -> Result<Facts, Stop>
    ensures inferred { IfOk result (IsInferred bound.now) }
    ensures typed { IfOk result (λ f. IsWellTyped bound.now) }
    ensures refused { IfErr result (SaysTyping bound.now) }
    ensures untyped { IfErr result (DeniesTyping bound.now) }
{
    match examine(alloc, bound) {
        Err(_) => Err(Stop::Memory),
        Ok(found) => conclude(alloc, bound, found),
    }
}
