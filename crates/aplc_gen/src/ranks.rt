//! Ranks of functions, such that calls lead down where no function is called from within itself.
//! It must not know which variables there are.

ghost use Rattle.std.specs.Prelude.{◌≡◌, ◌<◌, length, map};
ghost use Rattle.aplc_core.specs.PlainSteps.{effect_of};
ghost use Rattle.aplc_gen.specs.Layouts.{the_routine};
ghost use Rattle.aplc_gen.specs.Laid.{step_falls, steps_fall, lines_fall};
ghost use Rattle.aplc_gen.specs.Writing.{site_of, lowered_core};
ghost use Rattle.aplc_gen.specs.Sparing.{rank_in, all_fall};

use crate::frame::Layout;
use crate::site::Site;
use crate::statements::function_of;
use aplc_core::{CoreProgram, Step};
use aplc_names::Scope;
use std::alloc::{AllocError, Global};

/// One less than the most calls that may stand.
const MOST: u32 = 4095;

// ---- Whether calls lead down

fn rank_in(ranks: &[u32], function: usize) -> u32
    ensures { result ≡ rank_in ranks.now function }
{
    match ranks.get(function) {
        None => 0,
        Some(rank) => (*rank).min(MOST),
    }
}

fn step_falls(site: &Site, ranks: &[u32], rank: u32, step: &Step) -> bool
    requires { rank ≡ rank_in ranks.now site.now.number }
    ensures { result ≡ step_falls (rank_in ranks.now) site.now.number (the_routine (site_of site.now)) (effect_of step.now) }
{
    match step {
        Step::Call(_, name, _, _, _) => {
            rank_in(ranks, function_of(site.scope(*name)) as usize) < rank
        }
        _ => true,
    }
}

fn steps_fall(site: &Site, ranks: &[u32], rank: u32, steps: &[Step]) -> bool
    requires { rank ≡ rank_in ranks.now site.now.number }
    ensures { result ≡ steps_fall (rank_in ranks.now) site.now.number (the_routine (site_of site.now)) (map effect_of steps.now) }
{
    for step in steps {
        if !step_falls(site, ranks, rank, step) {
            return false;
        }
    }
    true
}

#[tactic(auto, using(crate::proofs::SparedRanks::lines_falling))]
fn lines_fall(site: &Site, ranks: &[u32], rank: u32) -> bool
    requires { rank ≡ rank_in ranks.now site.now.number }
    ensures { result ≡ lines_fall (rank_in ranks.now) site.now.number (the_routine (site_of site.now)) (the_routine (site_of site.now)).steps }
{
    for index in 0..site.lines() {
        if !steps_fall(site, ranks, rank, site.steps(index + 1)) {
            return false;
        }
    }
    true
}

/// Whether each call leads to a lower rank.
#[tactic(auto, using(crate::proofs::SparedRanks::all_falling))]
pub fn all_fall(core: &CoreProgram, layout: &Layout, ranks: &[u32]) -> bool
    requires { length layout.now.frames ≡ length core.now.program.functions }
    ensures { result ≡ all_fall ranks.now 0 (lowered_core core.now).routines }
{
    for number in 0..layout.count() {
        let site = Site::new(core, layout, layout.frame_of(number), number, false);
        if !lines_fall(&site, ranks, rank_in(ranks, number)) {
            return false;
        }
    }
    true
}

// ---- Ranks

/// Calls that lead to functions without a rank.
#[derive(Drop)]
struct Calls {
    /// How many there are in each function.
    open: Vec<u32>,
    /// Where each function is called, once for each call.
    callers: Vec<Vec<usize>>,
}

/// One call more.
fn count_up(open: &mut [u32], caller: usize) {
    if let Some(count) = open.get_mut(caller) {
        *count = count.saturating_add(1);
    }
}

/// One call less, and whether it was the last.
fn count_down(open: &mut [u32], caller: usize) -> bool {
    match open.get_mut(caller) {
        None => false,
        Some(count) => {
            *count = count.saturating_sub(1);
            *count == 0
        }
    }
}

fn put_caller(
    callers: &mut [Vec<usize>],
    function: usize,
    caller: usize,
) -> Result<(), AllocError> {
    if let Some(behind) = callers.get_mut(function) {
        behind.push(caller)?;
    }
    Ok(())
}

fn no_callers(alloc: Global, count: usize) -> Result<Vec<Vec<usize>>, AllocError> {
    let mut callers = Vec::new(alloc);
    for _ in 0..count {
        callers.push(Vec::new(alloc))?;
    }
    Ok(callers)
}

impl Calls {
    fn new(alloc: Global, count: usize) -> Result<Calls, AllocError> {
        Ok(Calls {
            open: Vec::from_elem(alloc, 0, count)?,
            callers: no_callers(alloc, count)?,
        })
    }

    fn add_steps(
        &mut self,
        core: &CoreProgram,
        caller: usize,
        steps: &[Step],
    ) -> Result<(), AllocError>
        requires { caller < length core.now.program.functions }
    {
        for step in steps {
            if let Step::Call(_, name, _, _, _) = step {
                let function = function_of(core.bound().scope(caller, *name)) as usize;
                count_up(self.open.as_mut_slice(), caller);
                put_caller(self.callers.as_mut_slice(), function, caller)?;
            }
        }
        Ok(())
    }
}

/// The calls of a program.
fn all_calls(alloc: Global, core: &CoreProgram) -> Result<Calls, AllocError> {
    let functions = core.bound().program().functions.as_slice();
    let mut calls = Calls::new(alloc, functions.len())?;
    for caller in 0..functions.len() {
        for index in 0..functions[caller].lines.as_slice().len() {
            calls.add_steps(core, caller, core.steps(caller, index + 1))?;
        }
    }
    Ok(calls)
}

/// The functions without calls.
fn leaves(alloc: Global, open: &[u32]) -> Result<Vec<usize>, AllocError> {
    let mut ready = Vec::new(alloc);
    for function in 0..open.len() {
        if open[function] == 0 {
            ready.push(function)?;
        }
    }
    Ok(ready)
}

/// The callers of a function that has its rank: those without another call are ready.
fn finish(open: &mut [u32], callers: &[usize], ready: &mut Vec<usize>) -> Result<(), AllocError> {
    for caller in callers {
        if count_down(open, *caller) {
            ready.push(*caller)?;
        }
    }
    Ok(())
}

fn callers_of(callers: &[Vec<usize>], function: usize) -> &[usize] {
    match callers.get(function) {
        None => &[],
        Some(behind) => behind.as_slice(),
    }
}

/// Ranks above the last stay there, where the test refuses them.
fn put_rank(ranks: &mut [u32], function: usize, rank: usize) {
    if let Some(place) = ranks.get_mut(function) {
        *place = rank.min(MOST as usize) as u32;
    }
}

/// The rank of each function: above those of the functions that it calls, where none of these is called from within
/// itself, and else 0. Nothing is promised of it but that it is found.
pub fn ranks(alloc: Global, core: &CoreProgram) -> Result<Vec<u32>, AllocError> {
    let mut calls = all_calls(alloc, core)?;
    let count = calls.open.len();
    let mut ready = leaves(alloc, calls.open.as_slice())?;
    let mut ranks = Vec::from_elem(alloc, 0, count)?;
    for rank in 0..count {
        let Some(function) = ready.as_slice().get(rank).copied() else {
            break;
        };
        put_rank(ranks.as_mut_slice(), function, rank);
        let callers = callers_of(calls.callers.as_slice(), function);
        finish(calls.open.as_mut_slice(), callers, &mut ready)?;
    }
    Ok(ranks)
}
