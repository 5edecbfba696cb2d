//! The first refusal under the facts of a program.
//! It must not change the facts.

ghost use Rattle.std.specs.Prelude.{◌≡◌, ◌<◌, ◌+◌, IfOk, length};
ghost use Rattle.aplc_lex.specs.Firsts.{IsFirstOf};
ghost use Rattle.aplc_names.specs.Firsts.{Somewhere};
ghost use Rattle.aplc_names.specs.PlainPrograms.{routine_of};
ghost use Rattle.aplc_infer.specs.Tables.{family_of};
ghost use Rattle.aplc_infer.specs.Steps.{IsFunction, StandsUnder};
ghost use Rattle.aplc_infer.specs.Refusals.{IsThis, InLine, InFunction};

use crate::inference::start_of;
use crate::lookup::Lookup;
use crate::seeing::see_statement;
use crate::tables::Tables;
use crate::walk::Walk;
use aplc_lex::{Refusal, earlier};
use aplc_syntax::{Function, Line};
use std::alloc::{AllocError, Global};

/// The first refusal of a list.
#[tactic(auto, using(crate::proofs::Refused::list_none, crate::proofs::Refused::list_more, crate::proofs::Refused::list_all))]
fn first_listed(list: &[Refusal]) -> Option<Refusal>
    ensures { IsFirstOf (Somewhere IsThis list.now) result }
{
    let mut best = None;
    for k in 0..list.len() {
        let refusal = list[k];
        best = earlier(best, Some(refusal));
    }
    best
}

/// The first refusal of line `n + 1` of a function.
fn line_refusal(
    alloc: Global,
    tables: &Tables,
    lookup: &Lookup,
    i: usize,
    function: &Function,
    n: usize,
    line: &Line,
) -> Result<Option<Refusal>, AllocError>
    requires function { IsFunction lookup.now i function.now }
    requires within { n < length function.now.lines }
    ensures { IfOk result (IsFirstOf (InLine lookup.now (family_of tables.now) i (routine_of lookup.now function.now) n line.now)) }
{
    let _count = function.lines.as_slice().len();
    let names = start_of(alloc, tables, lookup, i, n + 1)?;
    let mut walk = Walk::new(alloc, names);
    see_statement(alloc, tables, lookup, i, &line.statement, &mut walk)?;
    let first = first_listed(walk.refused());
    Ok(first)
}

/// The first refusal of the lines of a function.
#[tactic(auto, using(crate::proofs::Refused::lines_none, crate::proofs::Refused::lines_more, crate::proofs::Refused::lines_all))]
fn function_refusal(
    alloc: Global,
    tables: &Tables,
    lookup: &Lookup,
    i: usize,
    function: &Function,
) -> Result<Option<Refusal>, AllocError>
    requires function { IsFunction lookup.now i function.now }
    ensures { IfOk result (IsFirstOf (InFunction lookup.now (family_of tables.now) i function.now)) }
{
    let lines = function.lines.as_slice();
    let mut best = None;
    for n in 0..lines.len() {
        let found = line_refusal(alloc, tables, lookup, i, function, n, &lines[n])?;
        best = earlier(best, found);
    }
    Ok(best)
}

/// The first refusal of the functions of a program.
#[tactic(auto, using(crate::proofs::Refused::functions_none, crate::proofs::Refused::functions_more, crate::proofs::Refused::functions_all))]
fn program_refusal(
    alloc: Global,
    tables: &Tables,
    lookup: &Lookup,
) -> Result<Option<Refusal>, AllocError>
    ensures { IfOk result (IsFirstOf (Somewhere (InFunction lookup.now (family_of tables.now)) lookup.now.functions)) }
{
    let functions = lookup.program().functions.as_slice();
    let mut best = None;
    for i in 0..functions.len() {
        let found = function_refusal(alloc, tables, lookup, i, &functions[i])?;
        best = earlier(best, found);
    }
    Ok(best)
}

/// The first refusal under these facts.
#[tactic(auto, using(crate::proofs::Refused::first_stands))]
pub fn first_refusal(
    alloc: Global,
    tables: &Tables,
    lookup: &Lookup,
) -> Result<Option<Refusal>, AllocError>
    ensures { IfOk result (IsFirstOf (StandsUnder lookup.now (family_of tables.now))) }
{
    let first = program_refusal(alloc, tables, lookup)?;
    Ok(first)
}
