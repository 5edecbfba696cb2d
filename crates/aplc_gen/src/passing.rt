//! The code of calls, from both sides.
//! It must not know trees.

ghost use Rattle.std.specs.Prelude.{◌≡◌, true, Some, OnOk, option_map};
ghost use Rattle.aplc_core.specs.PlainSteps.{slot_number};
ghost use Rattle.aplc_gen.specs.Layouts.{the_routine};
ghost use Rattle.aplc_gen.specs.Emitted.{pass_code, result_guard, got_code, call_code, result_code, count_down, leave_code, count_first, count_up};
ghost use Rattle.aplc_gen.specs.Writing.{added, site_of, slots_at, fits_slot};

use crate::expressions::{block, emit_guard};
use crate::site::Site;
use aplc_core::SlotId;
use aplc_cprof::{Builder, CExpr, CStmt, Int, Op, binary};
use aplc_scalar::FaultKind;
use std::alloc::{AllocError, Global};

const DEPTH: Int = Int::Global(0);

/// The right argument of a call on its way.
pub const RIGHT: Int = Int::Global(1);

/// The left one.
pub const LEFT: Int = Int::Global(2);

/// The result on its way.
const RESULT: Int = Int::Global(3);

/// Whether there is one.
const RESULT_FLAG: Int = Int::Global(4);

/// How many frames may stand.
const MOST_FRAMES: i64 = 4096;

/// An argument is on its way.
#[tactic(auto, using(crate::proofs::Adding::nothing_added))]
fn emit_pass(b: &mut Builder, site: &Site, to: Int, slot: Option<SlotId>) -> Result<(), AllocError>
    requires { fits_slot (slots_at site.now) (option_map slot_number slot) ≡ true }
    ensures { OnOk result (b.new ≡ added (pass_code (site_of site.now) to (option_map slot_number slot)) b.old) }
{
    match slot {
        None => Ok(()),
        Some(slot) => b.emit(CStmt::Set(to, CExpr::Var(Int::Local(site.slot(slot))))),
    }
}

/// A fault where no result is there, unless one surely is.
#[tactic(auto, using(crate::proofs::Adding::nothing_added))]
fn emit_result_guard(alloc: Global, b: &mut Builder, sure: bool) -> Result<(), AllocError>
    ensures { OnOk result (b.new ≡ added (result_guard sure) b.old) }
{
    if sure {
        return Ok(());
    }
    emit_guard(alloc, b, RESULT_FLAG)
}

/// The result goes into its slot.
#[tactic(auto, using(crate::proofs::Adding::nothing_added, crate::proofs::Adding::added_twice))]
fn emit_got(
    alloc: Global,
    b: &mut Builder,
    site: &Site,
    sure: bool,
    slot: Option<SlotId>,
) -> Result<(), AllocError>
    requires { fits_slot (slots_at site.now) (option_map slot_number slot) ≡ true }
    ensures { OnOk result (b.new ≡ added (got_code (site_of site.now) sure (option_map slot_number slot)) b.old) }
{
    match slot {
        None => Ok(()),
        Some(slot) => {
            emit_result_guard(alloc, b, sure)?;
            b.emit(CStmt::Set(Int::Local(site.slot(slot)), CExpr::Var(RESULT)))
        }
    }
}

/// The call of a function, with the slots of its arguments and of its result.
#[tactic(auto, using(crate::proofs::Adding::call_added))]
pub fn emit_call(
    alloc: Global,
    b: &mut Builder,
    site: &Site,
    function: u32,
    left: Option<SlotId>,
    right: Option<SlotId>,
    to: Option<SlotId>,
) -> Result<(), AllocError>
    requires left { fits_slot (slots_at site.now) (option_map slot_number left) ≡ true }
    requires right { fits_slot (slots_at site.now) (option_map slot_number right) ≡ true }
    requires to { fits_slot (slots_at site.now) (option_map slot_number to) ≡ true }
    ensures { OnOk result (b.new ≡ added (call_code (site_of site.now) function (option_map slot_number left) (option_map slot_number right) (option_map slot_number to)) b.old) }
{
    emit_pass(b, site, LEFT, left)?;
    emit_pass(b, site, RIGHT, right)?;
    b.emit(CStmt::Call(site.layout().function(function)))?;
    emit_got(alloc, b, site, site.gives(function as usize), to)
}

// ---- The way out

/// The result of this name is on its way, if it is set.
fn emit_result_of(alloc: Global, b: &mut Builder, site: &Site, name: u32) -> Result<(), AllocError>
    ensures { OnOk result (b.new ≡ added (result_code (site_of site.now) (Some name)) b.old) }
{
    let value = site.frame().value(name);
    let copy = CStmt::Set(RESULT, CExpr::Var(value));
    if site.frame().is_sure(name) {
        return b.emit(copy);
    }
    let there = block(alloc, copy)?;
    b.emit(CStmt::Set(RESULT_FLAG, CExpr::Var(site.frame().flag(name))))?;
    b.emit(CStmt::If(CExpr::Var(RESULT_FLAG), there, None))
}

#[tactic(auto, using(crate::proofs::Adding::nothing_added))]
fn emit_result(alloc: Global, b: &mut Builder, site: &Site) -> Result<(), AllocError>
    ensures { OnOk result (b.new ≡ added (result_code (site_of site.now) (the_routine (site_of site.now)).header.result) b.old) }
{
    match site.result() {
        None => Ok(()),
        Some(name) => emit_result_of(alloc, b, site, name),
    }
}

/// One frame less, where frames are counted.
#[tactic(auto, using(crate::proofs::Adding::nothing_added))]
fn emit_count_down(alloc: Global, b: &mut Builder, counted: bool) -> Result<(), AllocError>
    ensures { OnOk result (b.new ≡ added (count_down counted) b.old) }
{
    if !counted {
        return Ok(());
    }
    let less = binary(alloc, Op::Sub, CExpr::Var(DEPTH), CExpr::Lit(1))?;
    b.emit(CStmt::Set(DEPTH, less))
}

/// The way out of the function.
#[tactic(auto, using(crate::proofs::Adding::leave_added))]
pub fn emit_leave(alloc: Global, b: &mut Builder, site: &Site) -> Result<(), AllocError>
    ensures { OnOk result (b.new ≡ added (leave_code (site_of site.now)) b.old) }
{
    if site.is_first() {
        return b.emit(CStmt::Return);
    }
    emit_result(alloc, b, site)?;
    emit_count_down(alloc, b, site.layout().is_counted())?;
    b.emit(CStmt::Leave)?;
    b.emit(CStmt::Return)
}

// ---- The way in

/// One frame stands, where frames are counted.
#[tactic(auto, using(crate::proofs::Adding::nothing_added))]
pub fn emit_count_first(b: &mut Builder, counted: bool) -> Result<(), AllocError>
    ensures { OnOk result (b.new ≡ added (count_first counted) b.old) }
{
    if !counted {
        return Ok(());
    }
    b.emit(CStmt::Set(DEPTH, CExpr::Lit(1)))
}

/// One frame more, where frames are counted; a fault where as many stand as may.
#[tactic(auto, using(crate::proofs::Adding::nothing_added))]
pub fn emit_count_up(alloc: Global, b: &mut Builder, counted: bool) -> Result<(), AllocError>
    ensures { OnOk result (b.new ≡ added (count_up counted) b.old) }
{
    if !counted {
        return Ok(());
    }
    let deep = binary(
        alloc,
        Op::GreaterEq,
        CExpr::Var(DEPTH),
        CExpr::Lit(MOST_FRAMES),
    )?;
    let limit = block(alloc, CStmt::Fault(FaultKind::Limit))?;
    b.emit(CStmt::If(deep, limit, None))?;
    let more = binary(alloc, Op::Add, CExpr::Var(DEPTH), CExpr::Lit(1))?;
    b.emit(CStmt::Set(DEPTH, more))
}
