//! The least facts of a program: work in whatever order serves, and then passes until nothing rises.
//! It must not know the rules of single nodes.

ghost use Rattle.std.specs.Prelude.{◌≡◌, ◌<◌, ◌≤◌, ◌+◌, ◌||◌, ◌++◌, ℕ, IfOk, OnOk, length, true, false};
ghost use Rattle.aplc_names.specs.PlainPrograms.{routine_of, line_action, action_of};
ghost use Rattle.aplc_names.specs.Runs.{line_at};
ghost use Rattle.aplc_infer.specs.Seeing.{at, local_names, action_mentions, flow_of, leads, stands_among};
ghost use Rattle.aplc_infer.specs.Lookups.{routine_at, binding_at};
ghost use Rattle.aplc_infer.specs.Families.{at_start, IsLeastOf};
ghost use Rattle.aplc_infer.specs.Mentions.{assigned_number, assigned_numbers};
ghost use Rattle.aplc_infer.specs.declared.cell.Flow.TheVariants.{Any};
ghost use Rattle.aplc_infer.specs.declared.fact.Inferred.TheVariants.{Unset};
ghost use Rattle.aplc_infer.specs.declared.tables.Spot.{Spot};
ghost use Rattle.aplc_infer.specs.Rising.{at3};
ghost use Rattle.aplc_infer.specs.Tables.{look, family_of};
ghost use Rattle.aplc_infer.specs.Steps.{AreBelow, IsFunction, IsLineOf, Spreads, Keeps, Rounds};

use crate::agenda::{Agenda, Task};
use crate::block::Block;
use crate::branches::flow_of;
use crate::cell::{Binding, Cell, Flow};
use crate::extent::node_places;
use crate::flowing::{either, flow_one, land_from, settle};
use crate::inference::{pass, settle_entry, settle_hub};
use crate::lookup::Lookup;
use crate::row::Row;
use crate::seeing::see_statement;
use crate::tables::{Blocks, Extent, Spot, Tables};
use crate::walk::Walk;
use aplc_names::{Mention, put_statement};
use aplc_syntax::{Function, Line, Statement};
use std::alloc::{AllocError, Global};

// ---- A line that is evaluated

/// The facts of these local names at the start of a line; of the others none is taken as set.
#[tactic(auto, using(crate::proofs::Granted::known))]
fn known(
    alloc: Global,
    tables: &Tables,
    lookup: &Lookup,
    i: usize,
    l: usize,
    locals: &[u32],
) -> Result<Row, AllocError>
    ensures { IfOk result (λ r. AreBelow r (at_start (family_of tables.now) i (routine_at lookup.now i) l)) }
{
    let mut names = Row::blank(alloc, lookup.count(i));
    for k in locals {
        let fact = tables.at_cell(Cell::Start(i, l, *k as usize));
        names.set(*k as usize, fact)?;
    }
    Ok(names)
}

/// What was given to local names goes where line `l` leads.
#[tactic(auto, using(crate::proofs::Granted::spreading))]
fn spread(
    tables: &mut Tables,
    lookup: &Lookup,
    i: usize,
    function: &Function,
    l: usize,
    flow: Flow,
    names: &Row,
    from: usize,
) -> Result<bool, AllocError>
    requires function { IsFunction lookup.now i function.now }
    requires within { l ≤ length function.now.lines }
    ensures { IfOk result (Spreads lookup.now flow i (routine_of lookup.now function.now) l names.now tables.old tables.new) }
{
    let changes = names.changes();
    let mut rose = false;
    for n in from..changes.len() {
        let k = changes[n].local;
        let fact = names.at(k);
        let now = flow_one(tables, lookup, i, function, l, flow, k, &fact)?;
        rose = either(rose, now);
    }
    Ok(rose)
}

/// Evaluates a line over the facts of the local names in it, and raises what it asks.
fn look_at(
    alloc: Global,
    tables: &mut Tables,
    lookup: &Lookup,
    i: usize,
    function: &Function,
    l: usize,
    line: &Line,
    locals: &[u32],
) -> Result<(), AllocError>
    requires within { l ≤ length function.now.lines }
    requires function { IsFunction lookup.now i function.now }
    requires line { IsLineOf lookup.now function.now l line.now }
    ensures { IfOk result (λ x. Keeps lookup.now tables.old tables.new) }
{
    let names = known(alloc, tables, lookup, i, l, locals)?;
    let mut walk = Walk::new(alloc, names);
    see_statement(alloc, tables, lookup, i, &line.statement, &mut walk)?;
    let first = settle(tables, lookup, walk.demands())?;
    let flow = flow_of(lookup, i, &line.statement);
    let rest = spread(
        tables,
        lookup,
        i,
        function,
        l,
        flow,
        walk.names(),
        locals.len(),
    )?;
    let _rose = either(first, rest);
    Ok(())
}

// ---- Local names that a line does not assign

/// Adds the number of a local name that is assigned.
fn put_assigned(
    out: &mut Vec<usize>,
    lookup: &Lookup,
    i: usize,
    mention: Mention,
) -> Result<(), AllocError>
    ensures { OnOk result (out.new.items ≡ out.old.items ++ assigned_number (binding_at lookup.now i) mention) }
{
    if mention.assigned {
        if let Binding::Local(k) = lookup.binding(i, mention.name) {
            out.push(k)?;
        }
    }
    Ok(())
}

/// The numbers of the local names that are assigned where these names stand.
fn assigned_among(
    alloc: Global,
    lookup: &Lookup,
    i: usize,
    mentions: &[Mention],
) -> Result<Vec<usize>, AllocError>
    ensures { IfOk result (λ v. v.items ≡ assigned_numbers (binding_at lookup.now i) mentions.now) }
{
    let mut out = Vec::new(alloc);
    for mention in mentions {
        put_assigned(&mut out, lookup, i, *mention)?;
    }
    Ok(out)
}

/// The numbers of the local names that a statement assigns.
#[tactic(auto, using(crate::proofs::Granted::assigned_names))]
fn assigned_in(
    alloc: Global,
    lookup: &Lookup,
    i: usize,
    statement: &Statement,
) -> Result<Vec<usize>, AllocError>
    ensures { IfOk result (λ v. v.items ≡ assigned_numbers (binding_at lookup.now i) (action_mentions (action_of statement.now))) }
{
    let mut mentions = Vec::new(alloc);
    put_statement(&mut mentions, statement)?;
    let out = assigned_among(alloc, lookup, i, mentions.as_slice())?;
    Ok(out)
}

fn is_among(list: &[usize], k: usize) -> bool
    ensures { result ≡ stands_among k list.now }
{
    list.iter().any(|x| k == *x)
}

// ---- Local names that go on

/// A local name goes on from line `l` to line `m`, or leaves the function.
#[tactic(auto, using(crate::proofs::Granted::passed_to))]
fn pass_to(
    tables: &mut Tables,
    lookup: &Lookup,
    i: usize,
    function: &Function,
    l: usize,
    line: &Line,
    m: usize,
    k: usize,
) -> Result<(), AllocError>
    requires function { IsFunction lookup.now i function.now }
    requires line { IsLineOf lookup.now function.now l line.now }
    requires within { k < length (local_names (routine_at lookup.now i)) }
    requires free { stands_among k (assigned_numbers (binding_at lookup.now i) (action_mentions (line_action line.now))) ≡ false }
    requires way { leads (flow_of (binding_at lookup.now i) (line_action line.now)) l m ≡ true }
    ensures { IfOk result (λ x. Keeps lookup.now tables.old tables.new) }
{
    let _rose = land_from(tables, lookup, i, function, l, m, k)?;
    Ok(())
}

/// A local name goes on from line `l` to the hub.
#[tactic(auto, using(crate::proofs::Granted::passed_hub))]
fn pass_hub(
    tables: &mut Tables,
    lookup: &Lookup,
    i: usize,
    function: &Function,
    l: usize,
    line: &Line,
    k: usize,
) -> Result<(), AllocError>
    requires function { IsFunction lookup.now i function.now }
    requires line { IsLineOf lookup.now function.now l line.now }
    requires within { k < length (local_names (routine_at lookup.now i)) }
    requires free { stands_among k (assigned_numbers (binding_at lookup.now i) (action_mentions (line_action line.now))) ≡ false }
    requires any { flow_of (binding_at lookup.now i) (line_action line.now) ≡ Any }
    ensures { IfOk result (λ x. Keeps lookup.now tables.old tables.new) }
{
    let _function = function;
    let _line = line;
    let _rose = tables.pass(i, l, 0, k)?;
    Ok(())
}

/// A local name that line `l` does not assign goes where the line leads.
#[tactic(auto, using(crate::proofs::Granted::way, crate::proofs::Moving::keeps_then))]
fn pass_on(
    tables: &mut Tables,
    lookup: &Lookup,
    i: usize,
    function: &Function,
    l: usize,
    line: &Line,
    flow: Flow,
    k: usize,
) -> Result<(), AllocError>
    requires function { IsFunction lookup.now i function.now }
    requires line { IsLineOf lookup.now function.now l line.now }
    requires bound { l ≤ length function.now.lines }
    requires within { k < length (local_names (routine_at lookup.now i)) }
    requires free { stands_among k (assigned_numbers (binding_at lookup.now i) (action_mentions (line_action line.now))) ≡ false }
    requires way { flow ≡ flow_of (binding_at lookup.now i) (line_action line.now) }
    ensures { IfOk result (λ x. Keeps lookup.now tables.old tables.new) }
{
    let _count = function.lines.as_slice().len();
    match flow {
        Flow::Next => pass_to(tables, lookup, i, function, l, line, l + 1, k),
        Flow::To(m) => pass_to(tables, lookup, i, function, l, line, m, k),
        Flow::Either(m) => {
            pass_to(tables, lookup, i, function, l, line, m, k)?;
            pass_to(tables, lookup, i, function, l, line, l + 1, k)?;
            Ok(())
        }
        Flow::Any => pass_hub(tables, lookup, i, function, l, line, k),
    }
}

/// The same, where it is tested that the line does not assign the name.
#[tactic(auto, using(crate::proofs::Moving::keeps_none))]
fn pass_free(
    tables: &mut Tables,
    lookup: &Lookup,
    i: usize,
    function: &Function,
    l: usize,
    line: &Line,
    flow: Flow,
    assigned: &[usize],
    k: usize,
) -> Result<(), AllocError>
    requires function { IsFunction lookup.now i function.now }
    requires line { IsLineOf lookup.now function.now l line.now }
    requires bound { l ≤ length function.now.lines }
    requires assigned { assigned.now ≡ assigned_numbers (binding_at lookup.now i) (action_mentions (line_action line.now)) }
    requires way { flow ≡ flow_of (binding_at lookup.now i) (line_action line.now) }
    ensures { IfOk result (λ x. Keeps lookup.now tables.old tables.new) }
{
    if k >= lookup.count(i) {
        return Ok(());
    }
    if is_among(assigned, k) {
        return Ok(());
    }
    pass_on(tables, lookup, i, function, l, line, flow, k)
}

/// The row to which a line leads first, as far as facts go on by numbers.
fn next_row(l: usize, flow: Flow) -> usize {
    match flow {
        Flow::Next => l.saturating_add(1),
        Flow::To(m) | Flow::Either(m) => m,
        Flow::Any => 0,
    }
}

/// Some of these local names have a fact that did not go on yet.
fn has_news(tables: &Tables, i: usize, l: usize, flow: Flow, risen: &[u32]) -> bool {
    let row = next_row(l, flow);
    for k in risen {
        if !tables.is_passed(i, l, row, *k as usize) {
            return true;
        }
    }
    false
}

/// Those of the local names that line `l` does not assign go where the line leads.
#[tactic(auto, using(crate::proofs::Moving::keeps_none, crate::proofs::Moving::keeps_then))]
fn pass_all(
    alloc: Global,
    tables: &mut Tables,
    lookup: &Lookup,
    i: usize,
    function: &Function,
    l: usize,
    line: &Line,
    risen: &[u32],
) -> Result<(), AllocError>
    requires function { IsFunction lookup.now i function.now }
    requires line { IsLineOf lookup.now function.now l line.now }
    requires bound { l ≤ length function.now.lines }
    ensures { IfOk result (λ x. Keeps lookup.now tables.old tables.new) }
{
    let flow = flow_of(lookup, i, &line.statement);
    if !has_news(tables, i, l, flow, risen) {
        return Ok(());
    }
    let assigned = assigned_in(alloc, lookup, i, &line.statement)?;
    for n in 0..risen.len() {
        let k = risen[n] as usize;
        pass_free(
            tables,
            lookup,
            i,
            function,
            l,
            line,
            flow,
            assigned.as_slice(),
            k,
        )?;
    }
    Ok(())
}

// ---- The agenda

/// Evaluates a line, if it is stale.
#[tactic(auto, using(crate::proofs::Moving::keeps_none))]
fn look_if(
    alloc: Global,
    tables: &mut Tables,
    lookup: &Lookup,
    i: usize,
    function: &Function,
    l: usize,
    line: &Line,
    agenda: &Agenda,
    task: &Task,
) -> Result<(), AllocError>
    requires within { l ≤ length function.now.lines }
    requires function { IsFunction lookup.now i function.now }
    requires line { IsLineOf lookup.now function.now l line.now }
    ensures { IfOk result (λ x. Keeps lookup.now tables.old tables.new) }
{
    if task.stale {
        look_at(
            alloc,
            tables,
            lookup,
            i,
            function,
            l,
            line,
            agenda.locals(task.unit),
        )?;
        return Ok(());
    }
    Ok(())
}

/// What is to be done at a line.
#[tactic(auto, using(crate::proofs::Moving::keeps_then))]
fn do_line(
    alloc: Global,
    tables: &mut Tables,
    lookup: &Lookup,
    i: usize,
    function: &Function,
    l: usize,
    line: &Line,
    agenda: &Agenda,
    task: &Task,
) -> Result<(), AllocError>
    requires within { l ≤ length function.now.lines }
    requires function { IsFunction lookup.now i function.now }
    requires line { IsLineOf lookup.now function.now l line.now }
    ensures { IfOk result (λ x. Keeps lookup.now tables.old tables.new) }
{
    look_if(alloc, tables, lookup, i, function, l, line, agenda, task)?;
    pass_all(
        alloc,
        tables,
        lookup,
        i,
        function,
        l,
        line,
        task.risen.as_slice(),
    )?;
    Ok(())
}

#[tactic(auto, using(crate::proofs::Moving::keeps_none, crate::proofs::Moving::keeps_moves))]
fn do_unit(
    alloc: Global,
    tables: &mut Tables,
    lookup: &Lookup,
    function: &Function,
    agenda: &Agenda,
    task: &Task,
) -> Result<(), AllocError>
    requires function { IsFunction lookup.now task.now.unit.function function.now }
    ensures { IfOk result (λ x. Keeps lookup.now tables.old tables.new) }
{
    let i = task.unit.function;
    let l = task.unit.line;
    if l == 0 {
        let _rose = settle_entry(alloc, tables, lookup, i, function)?;
        return Ok(());
    }
    let lines = function.lines.as_slice();
    if l > lines.len() {
        return Ok(());
    }
    let n = l - 1;
    do_line(
        alloc, tables, lookup, i, function, l, &lines[n], agenda, task,
    )?;
    Ok(())
}

#[tactic(auto, using(crate::proofs::Moving::keeps_none))]
fn do_task(
    alloc: Global,
    tables: &mut Tables,
    lookup: &Lookup,
    agenda: &Agenda,
    task: &Task,
) -> Result<(), AllocError>
    ensures { IfOk result (λ x. Keeps lookup.now tables.old tables.new) }
{
    match lookup
        .program()
        .functions
        .as_slice()
        .get(task.unit.function)
    {
        None => Ok(()),
        Some(function) => do_unit(alloc, tables, lookup, function, agenda, task),
    }
}

/// What the hub of a function has for a local name goes to every line.
#[tactic(auto, using(crate::proofs::Moving::keeps_none, crate::proofs::Moving::keeps_moves))]
fn spread_hub(tables: &mut Tables, lookup: &Lookup, i: usize, k: usize) -> Result<(), AllocError>
    ensures { IfOk result (λ x. Keeps lookup.now tables.old tables.new) }
{
    match lookup.program().functions.as_slice().get(i) {
        None => Ok(()),
        Some(function) => {
            let _rose = settle_hub(tables, lookup, i, function, k)?;
            Ok(())
        }
    }
}

/// What rose at a hub goes on; of all else those who read it shall be looked at.
#[tactic(auto, using(crate::proofs::Moving::keeps_none))]
fn note_risen(
    tables: &mut Tables,
    lookup: &Lookup,
    agenda: &mut Agenda,
    spot: Spot,
) -> Result<(), AllocError>
    ensures { IfOk result (λ x. Keeps lookup.now tables.old tables.new) }
{
    match spot {
        Spot::Hub(i, k) => {
            spread_hub(tables, lookup, i, k)?;
            Ok(())
        }
        Spot::Here(_) => {
            agenda.spread(spot)?;
            Ok(())
        }
    }
}

/// Those who read what rose shall be looked at.
#[tactic(auto, using(crate::proofs::Moving::keeps_none, crate::proofs::Moving::keeps_then, crate::proofs::Moving::keeps_forgets))]
fn notice(tables: &mut Tables, lookup: &Lookup, agenda: &mut Agenda) -> Result<(), AllocError>
    ensures { IfOk result (λ x. Keeps lookup.now tables.old tables.new) }
{
    for _ in 0..u64::MAX {
        match tables.next_risen() {
            None => return Ok(()),
            Some(spot) => note_risen(tables, lookup, agenda, spot)?,
        }
    }
    Ok(())
}

/// Looks at what waits, until nothing does.
#[tactic(auto, using(crate::proofs::Moving::keeps_none, crate::proofs::Moving::keeps_then))]
fn drain(
    alloc: Global,
    tables: &mut Tables,
    lookup: &Lookup,
    agenda: &mut Agenda,
) -> Result<(), AllocError>
    ensures { IfOk result (λ x. Keeps lookup.now tables.old tables.new) }
{
    notice(tables, lookup, agenda)?;
    for _ in 0..u64::MAX {
        match agenda.pop(alloc) {
            None => return Ok(()),
            Some(task) => {
                do_task(alloc, tables, lookup, agenda, &task)?;
                notice(tables, lookup, agenda)?;
            }
        }
    }
    Ok(())
}

#[tactic(auto, using(crate::proofs::Moving::round_of))]
fn round(
    alloc: Global,
    tables: &mut Tables,
    lookup: &Lookup,
    agenda: &mut Agenda,
) -> Result<bool, AllocError>
    ensures { IfOk result (Rounds lookup.now tables.old tables.new) }
{
    drain(alloc, tables, lookup, agenda)?;
    let rose = pass(alloc, tables, lookup)?;
    Ok(rose)
}

// ---- The least facts

/// A block for each function: row 0 for its hub, and one for each line.
#[tactic(auto, using(crate::proofs::Raised::blocks_push))]
fn blank_rows(alloc: Global, lookup: &Lookup) -> Result<Blocks, AllocError>
    ensures { IfOk result (λ r. (i : ℕ × (ℕ × ℕ)) → at3 r i ≡ Unset) }
{
    let functions = lookup.program().functions.as_slice();
    let mut rows = Blocks::new(alloc);
    for i in 0..functions.len() {
        let count = functions[i].lines.as_slice().len() + 1;
        let block = Block::blank(alloc, count, lookup.count(i))?;
        rows.push(block)?;
    }
    Ok(rows)
}

/// Nothing is set.
fn blank(alloc: Global, lookup: &Lookup) -> Result<Tables, AllocError>
    ensures { IfOk result (λ t. (s : Spot) → look t s ≡ Unset) }
{
    let program = lookup.program();
    let extent = Extent {
        nodes: node_places(program),
        globals: program.names.as_slice().len(),
        functions: program.functions.as_slice().len(),
    };
    let rows = blank_rows(alloc, lookup)?;
    Tables::blank(alloc, extent, rows)
}

/// The least facts: what waits is looked at until nothing does, and then a pass over everything shows that nothing
/// rises any more.
#[tactic(auto, using(crate::proofs::Moving::sound_start, crate::proofs::Moving::sound_round, crate::proofs::Moving::least_round, crate::proofs::Moving::round_falls))]
pub fn least(alloc: Global, lookup: &Lookup) -> Result<Tables, AllocError>
    ensures { IfOk result (λ t. IsLeastOf lookup.now (family_of t)) }
{
    let mut tables = blank(alloc, lookup)?;
    let mut agenda = Agenda::full(alloc, lookup)?;
    'rising: loop {
        let rose = round(alloc, &mut tables, lookup, &mut agenda)?;
        if !rose {
            return Ok(tables);
        }
    }
}
