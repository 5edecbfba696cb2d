//! The code of steps and of lines.
//! It must not know which lines have arms.

ghost use Rattle.std.specs.Prelude.{◌≡◌, ◌+◌, ◌<◌, ◌≤◌, ◌∷◌, ◌&&◌, [], true, false, pos, IfOk, OnOk, map};
ghost use Rattle.aplc_core.specs.PlainSteps.{term_of, effect_of};
ghost use Rattle.aplc_names.specs.Eager.{function_of};
ghost use Rattle.aplc_gen.specs.Layouts.{the_routine, base};
ghost use Rattle.aplc_gen.specs.Emitted.{computed, scope_at, operand, tree_code, go_to, not_known, store_code, display_code, jump_code, step_code, work_code, steps_width, known_after, known_behind, known_through, is_branch, branches, lead, lead_code};
ghost use Rattle.aplc_gen.specs.Codes.{ending, exit_code, end_code};
ghost use Rattle.aplc_gen.specs.Added.{AddsLine};
ghost use Rattle.aplc_gen.specs.Writing.{added, site_of, slots_at, fits_tree, fits_step, fits_steps};
ghost use Rattle.aplc_gen.specs.Flows.{lead_of, is_blank};

use crate::expressions::emit_flag;
use crate::flow::Flow;
use crate::known::Known;
use crate::lead::Lead;
use crate::passing::{emit_call, emit_leave};
use crate::site::Site;
use crate::terms::{emit_tree, operand};
use aplc_core::{Step, Tree};
use aplc_cprof::{Builder, CExpr, CStmt, Int, List};
use aplc_names::Scope;
use aplc_syntax::NameId;
use std::alloc::{AllocError, Global};

const LINE_FEED: i64 = 10;

/// The code of a tree, and where its value stands.
#[tactic(auto, using(crate::proofs::Adding::tree_fits))]
fn emit_value(
    alloc: Global,
    b: &mut Builder,
    site: &Site,
    known: &mut Known,
    tree: &Tree,
) -> Result<CExpr, AllocError>
    requires { fits_tree (slots_at site.now) (term_of tree.now) ≡ true }
    ensures code { OnOk result (b.new ≡ added (tree_code (site_of site.now) known.old (base (site_of site.now)) (term_of tree.now)) b.old) }
    ensures known { OnOk result (known.new ≡ known_after known.old (term_of tree.now)) }
    ensures value { IfOk result (λ e. e ≡ operand (site_of site.now) (base (site_of site.now)) (term_of tree.now)) }
{
    let free = site.base();
    emit_tree(alloc, b, site, known, free, tree)?;
    operand(alloc, site, free, tree)
}

fn not_known(known: &Known, name: NameId) -> bool
    ensures { result ≡ not_known known.now name.0 }
{
    if known.has(name.0) { false } else { true }
}

/// A name is given the value.
#[tactic(auto, using(crate::proofs::Adding::added_after))]
fn emit_set(
    b: &mut Builder,
    site: &Site,
    known: &Known,
    name: NameId,
    value: CExpr,
) -> Result<(), AllocError>
    ensures { OnOk result (b.new ≡ added (store_code (site_of site.now) known.now (scope_at (site_of site.now) name.0) name.0 value) b.old) }
{
    let scope = site.scope(name);
    let flagged = site.is_unsure(scope, name) && not_known(known, name);
    b.emit(CStmt::Set(site.value(scope, name), value))?;
    emit_flag(b, site.flag(scope, name), flagged)
}

/// The line goes on with another.
pub fn emit_go_to(b: &mut Builder, site: &Site, line: u32) -> Result<(), AllocError>
    ensures { OnOk result (b.new ≡ added (go_to (site_of site.now) line) b.old) }
{
    b.emit(CStmt::Set(Int::Local(site.line_place()), CExpr::Lit(i64::from(line))))
}

/// The way to where a line leads.
pub fn emit_lead(alloc: Global, b: &mut Builder, site: &Site, lead: Lead) -> Result<(), AllocError>
    ensures { OnOk result (b.new ≡ added (lead_code (site_of site.now) (lead_of lead)) b.old) }
{
    match lead {
        Lead::Line(line) => emit_go_to(b, site, line),
        _ => emit_leave(alloc, b, site),
    }
}

/// The value is the number of the line.
#[tactic(auto, using(crate::proofs::Adding::added_after))]
fn emit_computed(
    alloc: Global,
    b: &mut Builder,
    site: &Site,
    known: &mut Known,
    tree: &Tree,
) -> Result<(), AllocError>
    requires { fits_tree (slots_at site.now) (term_of tree.now) ≡ true }
    ensures { OnOk result (b.new ≡ added (jump_code (site_of site.now) known.old (term_of tree.now) computed) b.old) }
{
    let value = emit_value(alloc, b, site, known, tree)?;
    b.emit(CStmt::Set(Int::Local(site.line_place()), value))
}

/// The tree of a branch, where the code does not say where it leads.
#[tactic(auto, using(crate::proofs::Adding::nothing_added))]
fn emit_jump(
    alloc: Global,
    b: &mut Builder,
    flow: &Flow,
    known: &mut Known,
    tree: &Tree,
) -> Result<(), AllocError>
    requires { fits_tree (slots_at flow.now) (term_of tree.now) ≡ true }
    ensures { OnOk result (b.new ≡ added (jump_code (site_of flow.now) known.old (term_of tree.now) (lead (the_routine (site_of flow.now)) (term_of tree.now))) b.old) }
{
    match flow.lead(tree) {
        Lead::Computed => emit_computed(alloc, b, flow.site(), known, tree),
        _ => Ok(()),
    }
}

/// The way to where a branch leads. A computed one has its number by then.
#[tactic(auto, using(crate::proofs::Adding::nothing_added))]
fn emit_exit(alloc: Global, b: &mut Builder, site: &Site, lead: Lead) -> Result<(), AllocError>
    ensures { OnOk result (b.new ≡ added (exit_code (site_of site.now) (lead_of lead)) b.old) }
{
    match lead {
        Lead::Out => emit_leave(alloc, b, site),
        Lead::Line(line) => emit_go_to(b, site, line),
        Lead::Computed => Ok(()),
    }
}

pub fn function_of(scope: Scope) -> u32
    ensures { result ≡ function_of scope }
{
    match scope {
        Scope::Function(function) => function,
        _ => 0,
    }
}

/// The number and a line feed.
#[tactic(auto, using(crate::proofs::Adding::added_after))]
fn emit_display(b: &mut Builder, value: CExpr) -> Result<(), AllocError>
    ensures { OnOk result (b.new ≡ added (display_code value) b.old) }
{
    b.emit(CStmt::PutNum(value, CExpr::Lit(0)))?;
    b.emit(CStmt::PutChar(CExpr::Lit(LINE_FEED)))
}

/// The code of a step that is no branch.
#[tactic(auto, using(crate::proofs::Adding::steps_added))]
fn emit_step(
    alloc: Global,
    b: &mut Builder,
    site: &Site,
    known: &mut Known,
    step: &Step,
) -> Result<(), AllocError>
    requires goes_on { is_branch (effect_of step.now) ≡ false }
    requires fits { fits_step (slots_at site.now) (effect_of step.now) ≡ true }
    ensures code { OnOk result (b.new ≡ added (step_code (site_of site.now) known.old (effect_of step.now)) b.old) }
    ensures known { OnOk result (known.new ≡ known_behind known.old (effect_of step.now)) }
{
    match step {
        Step::Keep(slot, tree) => {
            let value = emit_value(alloc, b, site, known, tree)?;
            b.emit(CStmt::Set(Int::Local(site.slot(*slot)), value))
        }
        Step::Store(_, name, tree) => {
            let value = emit_value(alloc, b, site, known, tree)?;
            emit_set(b, site, known, *name, value)?;
            known.add(name.0)
        }
        Step::Call(_, name, left, right, to) => {
            let function = function_of(site.scope(*name));
            emit_call(alloc, b, site, function, *left, *right, *to)
        }
        Step::Show(_, tree) => {
            let value = emit_value(alloc, b, site, known, tree)?;
            emit_display(b, value)
        }
        _ => Ok(()),
    }
}

pub fn is_branch(step: &Step) -> bool
    ensures { result ≡ is_branch (effect_of step.now) }
{
    matches!(step, Step::Branch(_))
}

pub fn is_blank(steps: &[Step]) -> bool
    ensures { result ≡ is_blank (map effect_of steps.now) }
{
    match steps {
        [] => true,
        _ => false,
    }
}

pub fn branches(steps: &[Step]) -> bool
    ensures { result ≡ branches (map effect_of steps.now) }
{
    for step in steps {
        if is_branch(step) {
            return true;
        }
    }
    false
}

/// The code of the steps of a line. Behind a branch there are none.
#[tactic(auto, using(crate::proofs::StepsWritten::steps_left))]
fn emit_steps(
    alloc: Global,
    b: &mut Builder,
    flow: &Flow,
    known: &mut Known,
    steps: &[Step],
) -> Result<(), AllocError>
    requires { fits_steps (slots_at flow.now) (map effect_of steps.now) ≡ true }
    ensures code { OnOk result (b.new ≡ added (work_code (site_of flow.now) known.old (map effect_of steps.now)) b.old) }
    ensures known { OnOk result (branches (map effect_of steps.now) ≡ false → known.new ≡ known_through known.old (map effect_of steps.now)) }
{
    for step in steps {
        match step {
            Step::Branch(tree) => return emit_jump(alloc, b, flow, known, tree),
            _ => emit_step(alloc, b, flow.site(), known, step)?,
        }
    }
    Ok(())
}

/// What follows the steps of a line: the way to where its branch leads.
#[tactic(auto, using(crate::proofs::StepsWritten::end_left))]
fn emit_end(alloc: Global, b: &mut Builder, flow: &Flow, steps: &[Step]) -> Result<(), AllocError>
    ensures { OnOk result (b.new ≡ added (end_code (site_of flow.now) (ending (map effect_of steps.now))) b.old) }
{
    for step in steps {
        match step {
            Step::Branch(tree) => return emit_exit(alloc, b, flow.site(), flow.lead(tree)),
            _ => (),
        }
    }
    Ok(())
}

fn emit_location(alloc: Global, b: &mut Builder, site: &Site, line: u32) -> Result<(), AllocError>
    ensures { OnOk result (b.new ≡ added (CStmt.At (the_routine (site_of site.now)).header.title (pos line) ∷ []) b.old) }
{
    let title = List::from_vec(Vec::from_slice(alloc, site.title())?);
    b.emit(CStmt::At(title, i64::from(line)))
}

/// The code of line number `line`, which has steps: the location, the steps and what follows them.
pub fn emit_line(
    alloc: Global,
    b: &mut Builder,
    flow: &Flow,
    known: &mut Known,
    line: u32,
    steps: &[Step],
) -> Result<(), AllocError>
    requires some { is_blank (map effect_of steps.now) ≡ false }
    requires fits { fits_steps (slots_at flow.now) (map effect_of steps.now) ≡ true }
    requires room { base (site_of flow.now) + steps_width (map effect_of steps.now) ≤ b.old.ints }
    ensures line { OnOk result (AddsLine (site_of flow.now) known.old line (map effect_of steps.now) b.old b.new) }
    ensures known { OnOk result (branches (map effect_of steps.now) ≡ false → known.new ≡ known_through known.old (map effect_of steps.now)) }
{
    emit_location(alloc, b, flow.site(), line)?;
    emit_steps(alloc, b, flow, known, steps)?;
    emit_end(alloc, b, flow, steps)
}
