//! The segments of a function: its lines from arms on.
//! They must not know what a step does.

ghost use Rattle.std.specs.Prelude.{◌≡◌, ◌+◌, ◌<◌, ◌≤◌, ◌&&◌, false, true, IfOk, OnOk, length, pos, drop};
ghost use Rattle.aplc_gen.specs.Layouts.{the_routine, base};
ghost use Rattle.aplc_gen.specs.Emitted.{lines_width, is_entry, first_known, entry_known, is_line_test};
ghost use Rattle.aplc_gen.specs.Added.{AddsLines, AddsArm, IsSegment, IsLineArm, HasArms};
ghost use Rattle.aplc_gen.specs.Writing.{site_of, slots_at, fits_lines};

use crate::flow::Flow;
use crate::known::Known;
use crate::passing::emit_leave;
use crate::site::Site;
use crate::statements::{branches, emit_go_to, emit_lead, emit_line, is_blank};
use aplc_cprof::{Arm, Builder, CExpr, CStmt, Int, Op, binary};
use sqlite_items::Items;
use std::alloc::{AllocError, Global};

/// Whether a line that is only gone through to is left to its arm.
pub fn is_left(flow: &Flow, through: bool, line: usize) -> bool
    requires { line ≤ 1000 }
    ensures { result ≡ (through && is_entry (the_routine (site_of flow.now)) line) }
{
    through && flow.is_entry(line)
}

/// The lines from number `from + 1` on: up to a branch, to the next line that has an arm, or to the function's end.
#[tactic(auto, using(crate::proofs::Arms::segment_lines))]
pub fn emit_lines(
    alloc: Global,
    b: &mut Builder,
    flow: &Flow,
    known: &mut Known,
    from: usize,
) -> Result<(), AllocError>
    requires from { from ≤ length (the_routine (site_of flow.now)).steps }
    requires fits { fits_lines (slots_at flow.now) (the_routine (site_of flow.now)).steps ≡ true }
    requires room { base (site_of flow.now) + lines_width (the_routine (site_of flow.now)).steps ≤ b.old.ints }
    ensures { OnOk result (AddsLines (site_of flow.now) known.old false (from + 1) (drop from (the_routine (site_of flow.now)).steps) b.old b.new) }
{
    let site = flow.site();
    let mut through = false;
    for index in from..site.lines() {
        let steps = site.steps(index + 1);
        if is_blank(steps) {
            continue;
        }
        if is_left(flow, through, index + 1) {
            return emit_go_to(b, site, index as u32 + 1);
        }
        emit_line(alloc, b, flow, known, index as u32 + 1, steps)?;
        if branches(steps) {
            return Ok(());
        }
        through = true;
    }
    emit_leave(alloc, b, site)
}

// ---- Arms

/// The names that have a value where the function begins.
#[tactic(auto, using(crate::proofs::Arms::known_first))]
pub fn first_known(alloc: Global, site: &Site) -> Result<Known, AllocError>
    ensures { IfOk result (λ k. k ≡ first_known (site_of site.now)) }
{
    let mut known = Known::new(alloc);
    if site.is_first() {
        return Ok(known);
    }
    known.add_some(site.right())?;
    known.add_some(site.left())?;
    Ok(known)
}

/// The names that have a value where the arm of a line begins.
fn entry_known(alloc: Global, flow: &Flow, line: usize) -> Result<Known, AllocError>
    requires { line ≤ 1000 }
    ensures { IfOk result (λ k. k ≡ entry_known (site_of flow.now) line) }
{
    if line as u32 == flow.landing(1) {
        return first_known(alloc, flow.site());
    }
    Known::of(alloc, flow.site().frame().sure())
}

/// The head of a segment's loop.
fn line_test(alloc: Global, site: &Site, line: usize) -> Result<CExpr, AllocError>
    requires { line ≤ 1000 }
    ensures { IfOk result (λ e. e ≡ is_line_test (site_of site.now) line) }
{
    let place = CExpr::Var(Int::Local(site.line_place()));
    binary(alloc, Op::Equal, place, CExpr::Lit(line as i64))
}

/// The segment of line number `index + 1`, which is a loop.
fn segment(alloc: Global, b: &mut Builder, flow: &Flow, index: usize) -> Result<CStmt, AllocError>
    requires inside { index < length (the_routine (site_of flow.now)).steps }
    requires few { length (the_routine (site_of flow.now)).steps ≤ 999 }
    requires fits { fits_lines (slots_at flow.now) (the_routine (site_of flow.now)).steps ≡ true }
    requires room { base (site_of flow.now) + lines_width (the_routine (site_of flow.now)).steps ≤ b.old.ints }
    ensures { IfOk result (λ s. IsSegment (site_of flow.now) (index + 1) (drop index (the_routine (site_of flow.now)).steps) b.old b.new s) }
{
    let mut known = entry_known(alloc, flow, index + 1)?;
    let test = line_test(alloc, flow.site(), index + 1)?;
    b.open()?;
    emit_lines(alloc, b, flow, &mut known, index)?;
    let lines = b.close();
    Ok(CStmt::While(test, lines))
}

/// The code of the arm of line number `index + 1`.
fn emit_arm_body(
    alloc: Global,
    b: &mut Builder,
    flow: &Flow,
    index: usize,
) -> Result<(), AllocError>
    requires inside { index < length (the_routine (site_of flow.now)).steps }
    requires few { length (the_routine (site_of flow.now)).steps ≤ 999 }
    requires fits { fits_lines (slots_at flow.now) (the_routine (site_of flow.now)).steps ≡ true }
    requires room { base (site_of flow.now) + lines_width (the_routine (site_of flow.now)).steps ≤ b.old.ints }
    ensures { OnOk result (AddsArm (site_of flow.now) (index + 1) (drop index (the_routine (site_of flow.now)).steps) b.old b.new) }
{
    let site = flow.site();
    if is_blank(site.steps(index + 1)) {
        return emit_lead(alloc, b, site, flow.line_lead(index + 2));
    }
    let lines = segment(alloc, b, flow, index)?;
    b.emit(lines)
}

/// The arm of line number `index + 1` with this body.
fn arm_with(index: usize, body: Items<CStmt>) -> Arm
    requires { index ≤ 999 }
    ensures { result ≡ record { value = pos (index + 1); body = body } }
{
    Arm {
        value: index as i64 + 1,
        body,
    }
}

/// The arm of line number `index + 1`.
fn line_arm(alloc: Global, b: &mut Builder, flow: &Flow, index: usize) -> Result<Arm, AllocError>
    requires inside { index < length (the_routine (site_of flow.now)).steps }
    requires few { length (the_routine (site_of flow.now)).steps ≤ 999 }
    requires fits { fits_lines (slots_at flow.now) (the_routine (site_of flow.now)).steps ≡ true }
    requires room { base (site_of flow.now) + lines_width (the_routine (site_of flow.now)).steps ≤ b.old.ints }
    ensures { IfOk result (λ a. IsLineArm (site_of flow.now) (index + 1) (drop index (the_routine (site_of flow.now)).steps) b.old b.new a) }
{
    b.open()?;
    emit_arm_body(alloc, b, flow, index)?;
    let body = b.close();
    Ok(arm_with(index, body))
}

/// The arms of a function's switch.
pub fn all_arms(alloc: Global, b: &mut Builder, flow: &Flow) -> Result<Items<Arm>, AllocError>
    requires fits { fits_lines (slots_at flow.now) (the_routine (site_of flow.now)).steps ≡ true }
    requires room { base (site_of flow.now) + lines_width (the_routine (site_of flow.now)).steps ≤ b.old.ints }
    ensures { IfOk result (λ a. HasArms (site_of flow.now) 1 (the_routine (site_of flow.now)).steps b.old b.new a) }
{
    let mut arms = Items::new(alloc);
    for index in 0..flow.site().lines() {
        if !flow.is_entry(index + 1) {
            continue;
        }
        let next = line_arm(alloc, b, flow, index)?;
        arms.push(next)?;
    }
    Ok(arms)
}
