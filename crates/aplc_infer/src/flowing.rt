//! Raising facts by what lines ask.
//! It must not know which line asks.

ghost use Rattle.std.specs.Prelude.{◌≡◌, ◌<◌, ◌≤◌, ◌+◌, ◌||◌, ℕ, IfOk, length, map, is_some};
ghost use Rattle.aplc_names.specs.PlainPrograms.{routine_of, line_action};
ghost use Rattle.aplc_names.specs.Runs.{line_at};
ghost use Rattle.aplc_infer.specs.Tables.{look, spot_in};
ghost use Rattle.aplc_infer.specs.Steps.{IsFunction, Settles, HasLeft, Landed, HasGone, AllGone};

use crate::cell::{Cell, Demand, Flow};
use crate::fact::Inferred;
use crate::lookup::Lookup;
use crate::row::Row;
use crate::tables::{Spot, Tables};
use aplc_syntax::Function;
use std::alloc::AllocError;

pub fn either(a: bool, b: bool) -> bool
    ensures { result ≡ (a || b) }
{
    a || b
}

/// Meets demands, and says whether a fact rose.
#[tactic(auto, using(crate::proofs::Stepping::settles_none, crate::proofs::Stepping::settled_more))]
pub fn settle(tables: &mut Tables, lookup: &Lookup, demands: &[Demand]) -> Result<bool, AllocError>
    ensures { IfOk result (Settles lookup.now demands.now tables.old tables.new) }
{
    match demands {
        [] => Ok(false),
        [d, demands @ ..] => {
            let first = tables.raise(Spot::Here(d.cell), &d.fact)?;
            let rest = settle(tables, lookup, demands)?;
            Ok(either(first, rest))
        }
    }
}

/// A function has a line of this number.
#[tactic(auto, using(crate::proofs::Stepping::has_line))]
pub fn has_line(function: &Function, line: usize) -> bool
    ensures { result ≡ is_some (line_at (map line_action function.now.lines) line) }
{
    0 < line && line <= function.lines.as_slice().len()
}

/// A local name leaves a function with this fact. It counts if it is the result.
#[tactic(auto, using(crate::proofs::Stepping::left_none, crate::proofs::Stepping::left_other, crate::proofs::Stepping::left_there))]
pub fn land_out(
    tables: &mut Tables,
    lookup: &Lookup,
    i: usize,
    function: &Function,
    k: usize,
    fact: &Inferred,
) -> Result<bool, AllocError>
    requires function { IsFunction lookup.now i function.now }
    ensures { IfOk result (HasLeft lookup.now i (routine_of lookup.now function.now) k fact.now tables.old tables.new) }
{
    match function.result {
        None => Ok(false),
        Some(named) => {
            if lookup.number(i, named.name) == k {
                let rose = tables.raise(Spot::Here(Cell::Answer(i)), fact)?;
                return Ok(rose);
            }
            Ok(false)
        }
    }
}

/// A local name comes to a line with this fact, or leaves the function where there is none of this number.
#[tactic(auto, using(crate::proofs::Stepping::landed_line, crate::proofs::Stepping::landed_out))]
pub fn land(
    tables: &mut Tables,
    lookup: &Lookup,
    i: usize,
    function: &Function,
    m: usize,
    k: usize,
    fact: &Inferred,
) -> Result<bool, AllocError>
    requires function { IsFunction lookup.now i function.now }
    ensures { IfOk result (Landed lookup.now i (routine_of lookup.now function.now) m k fact.now tables.old tables.new) }
{
    if has_line(function, m) {
        let rose = tables.raise(Spot::Here(Cell::Start(i, m, k)), fact)?;
        return Ok(rose);
    }
    let rose = land_out(tables, lookup, i, function, k, fact)?;
    Ok(rose)
}

/// A local name comes to a line with the fact that row `l` of the function has for it, or leaves the function.
#[tactic(auto, using(crate::proofs::Stepping::landed_pass, crate::proofs::Stepping::landed_out))]
pub fn land_from(
    tables: &mut Tables,
    lookup: &Lookup,
    i: usize,
    function: &Function,
    l: usize,
    m: usize,
    k: usize,
) -> Result<bool, AllocError>
    requires function { IsFunction lookup.now i function.now }
    ensures { IfOk result (Landed lookup.now i (routine_of lookup.now function.now) m k (look tables.old (spot_in i l k)) tables.old tables.new) }
{
    if has_line(function, m) {
        let rose = tables.pass(i, l, m, k)?;
        return Ok(rose);
    }
    let fact = tables.in_row(i, l, k);
    let rose = land_out(tables, lookup, i, function, k, &fact)?;
    Ok(rose)
}

/// A local name goes where line `l` leads.
#[tactic(auto, using(crate::proofs::Stepping::gone_next, crate::proofs::Stepping::gone_to, crate::proofs::Stepping::gone_any))]
pub fn flow_one(
    tables: &mut Tables,
    lookup: &Lookup,
    i: usize,
    function: &Function,
    l: usize,
    flow: Flow,
    k: usize,
    fact: &Inferred,
) -> Result<bool, AllocError>
    requires function { IsFunction lookup.now i function.now }
    requires within { l ≤ length function.now.lines }
    ensures { IfOk result (HasGone lookup.now flow i (routine_of lookup.now function.now) l k fact.now tables.old tables.new) }
{
    let _count = function.lines.as_slice().len();
    match flow {
        Flow::Next => {
            let rose = land(tables, lookup, i, function, l + 1, k, fact)?;
            Ok(rose)
        }
        Flow::To(m) => {
            let rose = land(tables, lookup, i, function, m, k, fact)?;
            Ok(rose)
        }
        Flow::Either(m) => {
            let first = land(tables, lookup, i, function, m, k, fact)?;
            let rest = land(tables, lookup, i, function, l + 1, k, fact)?;
            Ok(either(first, rest))
        }
        Flow::Any => {
            let rose = tables.raise(Spot::Hub(i, k), fact)?;
            Ok(rose)
        }
    }
}

/// All local names go where line `l` leads.
#[tactic(auto, using(crate::proofs::Stepping::gone_none, crate::proofs::Stepping::gone_more, crate::proofs::Stepping::gone_all))]
pub fn flow_out(
    tables: &mut Tables,
    lookup: &Lookup,
    i: usize,
    function: &Function,
    l: usize,
    flow: Flow,
    names: &Row,
) -> Result<bool, AllocError>
    requires function { IsFunction lookup.now i function.now }
    requires within { l ≤ length function.now.lines }
    ensures { IfOk result (AllGone lookup.now flow i (routine_of lookup.now function.now) l names.now tables.old tables.new) }
{
    let mut rose = false;
    for k in 0..names.len() {
        let fact = names.at(k);
        let now = flow_one(tables, lookup, i, function, l, flow, k, &fact)?;
        rose = either(rose, now);
    }
    Ok(rose)
}
