//! One pass over a program: each fact is raised so that it is above all that the rules ask of it.
//! It must not know the rules of single nodes, nor in which order else the work is done.

ghost use Rattle.std.specs.Prelude.{◌≡◌, ◌<◌, ◌≤◌, ◌+◌, ◌||◌, ℕ, IfOk, OnOk, length, Option, Some, option_map, slice_get};
ghost use Rattle.aplc_names.specs.PlainPrograms.{Action, name_number, routine_of, line_action};
ghost use Rattle.aplc_names.specs.Runs.{line_at};
ghost use Rattle.aplc_infer.specs.Lookups.{routine_at};
ghost use Rattle.aplc_infer.specs.Families.{at_start, at_entry, with_parameter};
ghost use Rattle.aplc_infer.specs.declared.tables.Spot.TheVariants.{Hub};
ghost use Rattle.aplc_infer.specs.declared.tables.Tables.{Tables};
ghost use Rattle.aplc_infer.specs.Tables.{look, family_of};
ghost use Rattle.aplc_infer.specs.Steps.{IsFunction, IsLineOf, Lands, Moves, LineDone, EntryDone, FunctionDone, FunctionsDone};

use crate::branches::flow_of;
use crate::cell::{Cell, Flow};
use crate::fact::Inferred;
use crate::flowing::{either, flow_out, land_from, settle};
use crate::lookup::Lookup;
use crate::row::Row;
use crate::seeing::see_statement;
use crate::tables::{Spot, Tables};
use crate::walk::Walk;
use aplc_syntax::{Function, Line, Named};
use std::alloc::{AllocError, Global};

/// The local names at the start of a line.
pub fn start_of(
    alloc: Global,
    tables: &Tables,
    lookup: &Lookup,
    i: usize,
    l: usize,
) -> Result<Row, AllocError>
    ensures { IfOk result (λ r. r ≡ at_start (family_of tables.now) i (routine_at lookup.now i) l) }
{
    let mut facts = Vec::new(alloc);
    for k in 0..lookup.count(i) {
        facts.push(tables.at_cell(Cell::Start(i, l, k)))?;
    }
    Ok(Row::from_facts(alloc, facts))
}

/// A parameter has this fact.
fn set_parameter(
    names: &mut Row,
    lookup: &Lookup,
    i: usize,
    parameter: Option<Named>,
    fact: Inferred,
) -> Result<(), AllocError>
    ensures { OnOk result (names.new ≡ with_parameter (routine_at lookup.now i) (option_map name_number parameter) fact names.old) }
{
    match parameter {
        None => Ok(()),
        Some(named) => names.set(lookup.number(i, named.name), fact),
    }
}

/// The local names where a function is entered.
fn entry(
    alloc: Global,
    tables: &Tables,
    lookup: &Lookup,
    i: usize,
    function: &Function,
) -> Result<Row, AllocError>
    requires function { IsFunction lookup.now i function.now }
    ensures { IfOk result (λ r. r ≡ at_entry (family_of tables.now) i (routine_of lookup.now function.now)) }
{
    let mut names = Row::blank(alloc, lookup.count(i));
    let right = tables.at_cell(Cell::Right(i));
    set_parameter(&mut names, lookup, i, function.right, right)?;
    let left = tables.at_cell(Cell::Left(i));
    set_parameter(&mut names, lookup, i, function.left, left)?;
    Ok(names)
}

#[tactic(auto, using(crate::proofs::Moving::entry_moves))]
pub fn settle_entry(
    alloc: Global,
    tables: &mut Tables,
    lookup: &Lookup,
    i: usize,
    function: &Function,
) -> Result<bool, AllocError>
    requires function { IsFunction lookup.now i function.now }
    ensures { IfOk result (λ rose. Moves lookup.now tables.old tables.new rose (EntryDone i (routine_of lookup.now function.now))) }
{
    let names = entry(alloc, tables, lookup, i, function)?;
    let rose = flow_out(tables, lookup, i, function, 0, Flow::To(1), &names)?;
    Ok(rose)
}

/// Raises what a line asks.
fn settle_line(
    alloc: Global,
    tables: &mut Tables,
    lookup: &Lookup,
    i: usize,
    function: &Function,
    l: usize,
    line: &Line,
) -> Result<bool, AllocError>
    requires within { l ≤ length function.now.lines }
    requires function { IsFunction lookup.now i function.now }
    requires line { IsLineOf lookup.now function.now l line.now }
    ensures { IfOk result (λ rose. Moves lookup.now tables.old tables.new rose (LineDone lookup.now i (routine_of lookup.now function.now) l (line_action line.now))) }
{
    let names = start_of(alloc, tables, lookup, i, l)?;
    let mut walk = Walk::new(alloc, names);
    see_statement(alloc, tables, lookup, i, &line.statement, &mut walk)?;
    let first = settle(tables, lookup, walk.demands())?;
    let flow = flow_of(lookup, i, &line.statement);
    let rest = flow_out(tables, lookup, i, function, l, flow, walk.names())?;
    Ok(either(first, rest))
}

#[tactic(auto, using(crate::proofs::Moving::line_there, crate::proofs::Moving::lines_none, crate::proofs::Moving::lines_moved, crate::proofs::Moving::lines_all))]
fn settle_lines(
    alloc: Global,
    tables: &mut Tables,
    lookup: &Lookup,
    i: usize,
    function: &Function,
) -> Result<bool, AllocError>
    requires function { IsFunction lookup.now i function.now }
    ensures { IfOk result (λ rose. Moves lookup.now tables.old tables.new rose (λ t. (l : ℕ) (x : Action) → line_at (routine_of lookup.now function.now).lines l ≡ Some x → LineDone lookup.now i (routine_of lookup.now function.now) l x t)) }
{
    let lines = function.lines.as_slice();
    let mut rose = false;
    for n in 0..lines.len() {
        let now = settle_line(alloc, tables, lookup, i, function, n + 1, &lines[n])?;
        rose = either(rose, now);
    }
    Ok(rose)
}

/// What the hub of a function has for a local name goes to every line and to the way out.
#[tactic(auto, using(crate::proofs::Moving::hub_idle, crate::proofs::Moving::hub_none, crate::proofs::Moving::hub_more, crate::proofs::Moving::hub_everywhere))]
pub fn settle_hub(
    tables: &mut Tables,
    lookup: &Lookup,
    i: usize,
    function: &Function,
    k: usize,
) -> Result<bool, AllocError>
    requires function { IsFunction lookup.now i function.now }
    ensures { IfOk result (λ rose. Moves lookup.now tables.old tables.new rose (λ t. (m : ℕ) → Lands (family_of t) i (routine_of lookup.now function.now) m k (look t (Hub i k)))) }
{
    let fact = tables.at(Spot::Hub(i, k));
    if fact.is_unset() {
        return Ok(false);
    }
    let mut rose = false;
    let count = function.lines.as_slice().len() + 1;
    for m in 0..count {
        let now = land_from(tables, lookup, i, function, 0, m, k)?;
        rose = either(rose, now);
    }
    Ok(rose)
}

/// All of it.
#[tactic(auto, using(crate::proofs::Moving::hubs_none, crate::proofs::Moving::hubs_more, crate::proofs::Moving::hubs_moved))]
fn settle_hubs(
    tables: &mut Tables,
    lookup: &Lookup,
    i: usize,
    function: &Function,
) -> Result<bool, AllocError>
    requires function { IsFunction lookup.now i function.now }
    ensures { IfOk result (λ rose. Moves lookup.now tables.old tables.new rose (λ t. (m k : ℕ) → Lands (family_of t) i (routine_of lookup.now function.now) m k (look t (Hub i k)))) }
{
    let mut rose = false;
    let width = tables.width(i);
    for k in 0..width {
        let now = settle_hub(tables, lookup, i, function, k)?;
        rose = either(rose, now);
    }
    Ok(rose)
}

#[tactic(auto, using(crate::proofs::Moving::function_moves))]
fn settle_function(
    alloc: Global,
    tables: &mut Tables,
    lookup: &Lookup,
    i: usize,
    function: &Function,
) -> Result<bool, AllocError>
    requires function { IsFunction lookup.now i function.now }
    ensures { IfOk result (λ rose. Moves lookup.now tables.old tables.new rose (FunctionDone lookup.now i (routine_of lookup.now function.now))) }
{
    let first = settle_entry(alloc, tables, lookup, i, function)?;
    let second = settle_lines(alloc, tables, lookup, i, function)?;
    let third = settle_hubs(tables, lookup, i, function)?;
    let two = either(first, second);
    Ok(either(two, third))
}

/// Raises what every function and every line asks, and says whether a fact rose.
#[tactic(auto, using(crate::proofs::Moving::functions_none, crate::proofs::Moving::functions_moved))]
pub fn pass(alloc: Global, tables: &mut Tables, lookup: &Lookup) -> Result<bool, AllocError>
    ensures { IfOk result (λ rose. Moves lookup.now tables.old tables.new rose (FunctionsDone lookup.now (length lookup.now.functions))) }
{
    let functions = lookup.program().functions.as_slice();
    let mut rose = false;
    for i in 0..functions.len() {
        let now = settle_function(alloc, tables, lookup, i, &functions[i])?;
        rose = either(rose, now);
    }
    Ok(rose)
}
