//! The functions of a C program, one for MAIN and one for each that is called.
//! They must not know what a line does.

ghost use Rattle.std.specs.Prelude.{◌≡◌, ◌+◌, ◌<◌, ◌≤◌, ◌^◌, [], true, false, IfOk, OnOk, length};
ghost use Rattle.aplc_names.specs.Scopes.{start_of};
ghost use Rattle.aplc_gen.specs.Layouts.{the_routine, the_frame, frame_of, routine_at, local_value, base};
ghost use Rattle.aplc_gen.specs.Emitted.{lines_width, clear_code, take_code, enter_by, enter_code, leave_code, site_at};
ghost use Rattle.aplc_gen.specs.Codes.{IsFunction, IsProgramOf};
ghost use Rattle.aplc_gen.specs.Added.{AddsLoop, AddsRun, AddsBody, AreFunctions};
ghost use Rattle.aplc_gen.specs.Writing.{added, site_of, slots_at, fits_lines, lowered_core, FitsProgram};

use crate::expressions::{block, emit_flag};
use crate::flow::Flow;
use crate::frame::Layout;
use crate::passing::{LEFT, RIGHT, emit_count_first, emit_count_up, emit_leave};
use crate::segments::{all_arms, emit_lines, first_known};
use crate::site::Site;
use crate::statements::emit_go_to;
use crate::widths::lines_width;
use aplc_core::CoreProgram;
use aplc_cprof::{Builder, CExpr, CFunction, CProgram, CStmt, Int, List};
use sqlite_items::Items;
use std::alloc::{AllocError, Global};

/// No name has a value.
fn emit_clear(b: &mut Builder, site: &Site) -> Result<(), AllocError>
    ensures { OnOk result (b.new ≡ added (clear_code (site_of site.now) (length (the_frame (site_of site.now)).unsure)) b.old) }
{
    let first = site.frame().first_flag();
    for flag in 0..site.frame().flags() {
        b.emit(CStmt::Set(Int::Local(first + flag), CExpr::Lit(0)))?;
    }
    Ok(())
}

/// The argument has the value that was passed.
#[tactic(auto, using(crate::proofs::Adding::steps_added))]
fn emit_take(b: &mut Builder, site: &Site, from: Int, name: Option<u32>) -> Result<(), AllocError>
    ensures { OnOk result (b.new ≡ added (take_code (site_of site.now) from name) b.old) }
{
    match name {
        None => Ok(()),
        Some(name) => {
            let frame = site.frame();
            b.emit(CStmt::Set(frame.value(name), CExpr::Var(from)))?;
            emit_flag(b, frame.flag(name), frame.is_unsure(name))
        }
    }
}

/// The way into a function that is called.
#[tactic(auto, using(crate::proofs::Adding::enter_added))]
fn emit_enter_called(alloc: Global, b: &mut Builder, site: &Site) -> Result<(), AllocError>
    ensures { OnOk result (b.new ≡ added (enter_by (site_of site.now) false) b.old) }
{
    emit_count_up(alloc, b, site.layout().is_counted())?;
    b.emit(CStmt::Enter)?;
    emit_clear(b, site)?;
    emit_take(b, site, RIGHT, site.right())?;
    emit_take(b, site, LEFT, site.left())
}

/// The way into a function.
#[tactic(auto, using(crate::proofs::Adding::steps_added))]
fn emit_enter(alloc: Global, b: &mut Builder, site: &Site) -> Result<(), AllocError>
    ensures { OnOk result (b.new ≡ added (enter_code (site_of site.now)) b.old) }
{
    if !site.is_first() {
        return emit_enter_called(alloc, b, site);
    }
    emit_count_first(b, site.layout().is_counted())?;
    emit_clear(b, site)
}

/// The statements of the way out.
fn leaving(alloc: Global, b: &mut Builder, site: &Site) -> Result<Items<CStmt>, AllocError>
    ensures code { IfOk result (λ c. c ≡ leave_code (site_of site.now)) }
    ensures same { OnOk result (b.new ≡ b.old) }
{
    b.open()?;
    emit_leave(alloc, b, site)?;
    Ok(b.close())
}

/// The loop over the lines that have arms.
fn emit_loop(alloc: Global, b: &mut Builder, flow: &Flow) -> Result<(), AllocError>
    requires fits { fits_lines (slots_at flow.now) (the_routine (site_of flow.now)).steps ≡ true }
    requires room { base (site_of flow.now) + lines_width (the_routine (site_of flow.now)).steps ≤ b.old.ints }
    ensures { OnOk result (AddsLoop (site_of flow.now) b.old b.new) }
{
    let site = flow.site();
    let arms = all_arms(alloc, b, flow)?;
    let out = leaving(alloc, b, site)?;
    let line = Int::Local(site.line_place());
    let turn = block(alloc, CStmt::Switch(line, arms, out))?;
    b.emit(CStmt::While(CExpr::Lit(1), turn))
}

/// The lines. Without branches to lines they are one after the other.
fn emit_run(alloc: Global, b: &mut Builder, flow: &Flow) -> Result<(), AllocError>
    requires fits { fits_lines (slots_at flow.now) (the_routine (site_of flow.now)).steps ≡ true }
    requires room { base (site_of flow.now) + lines_width (the_routine (site_of flow.now)).steps ≤ b.old.ints }
    ensures { OnOk result (AddsRun (site_of flow.now) b.old b.new) }
{
    if flow.loops() {
        emit_go_to(b, flow.site(), flow.landing(1))?;
        return emit_loop(alloc, b, flow);
    }
    let mut known = first_known(alloc, flow.site())?;
    emit_lines(alloc, b, flow, &mut known, 0)
}

/// The way in, and the lines.
fn emit_body(alloc: Global, b: &mut Builder, flow: &Flow) -> Result<(), AllocError>
    requires fits { fits_lines (slots_at flow.now) (the_routine (site_of flow.now)).steps ≡ true }
    requires room { base (site_of flow.now) + lines_width (the_routine (site_of flow.now)).steps ≤ b.old.ints }
    ensures { OnOk result (AddsBody (site_of flow.now) b.old b.new) }
{
    emit_enter(alloc, b, flow.site())?;
    emit_run(alloc, b, flow)
}

/// Gives the function so many variables.
fn reserve(b: &mut Builder, count: u32) -> Result<(), AllocError>
    ensures { OnOk result (b.new ≡ record b.old { ints = b.old.ints + count }) }
{
    for _given in 0..count {
        b.fresh_int()?;
    }
    Ok(())
}

/// The function that was built. Its counts of variables have 32 bits.
fn finished(b: Builder) -> CFunction
    requires { b.outer ≡ [] }
    ensures function { result ≡ record { ints = b.ints; bufs = b.bufs; body = b.inner } }
    ensures few { (result.ints < 2 ^ 32) × (result.bufs < 2 ^ 32) }
{
    let CFunction { ints, bufs, body } = b.finish();
    CFunction { ints, bufs, body }
}

/// The C function of a function. Its first variables are those of its frame.
fn function(alloc: Global, flow: &Flow) -> Result<CFunction, AllocError>
    requires { fits_lines (slots_at flow.now) (the_routine (site_of flow.now)).steps ≡ true }
    ensures { IfOk result (λ c. IsFunction (site_of flow.now) c) }
{
    let site = flow.site();
    let mut b = Builder::new(alloc);
    reserve(&mut b, site.base() + lines_width(site))?;
    emit_body(alloc, &mut b, flow)?;
    Ok(finished(b))
}

/// The C function of the function of this number.
fn numbered(
    alloc: Global,
    core: &CoreProgram,
    layout: &Layout,
    first: bool,
    number: usize,
) -> Result<CFunction, AllocError>
    requires function { number < length core.now.program.functions }
    requires fits { FitsProgram layout.now core.now }
    ensures { IfOk result (λ c. IsFunction (site_at layout.now (lowered_core core.now) first number) c) }
{
    let frame = layout.frame_of(number);
    let flow = Flow::new(alloc, core, layout, frame, number, first)?;
    function(alloc, &flow)
}

/// The C functions: the one with which the run begins, and then those that are called.
#[tactic(auto, using(crate::proofs::Listed::functions_left))]
fn functions(
    alloc: Global,
    core: &CoreProgram,
    layout: &Layout,
) -> Result<Vec<CFunction>, AllocError>
    requires fits { FitsProgram layout.now core.now }
    ensures { IfOk result (λ v. AreFunctions layout.now (lowered_core core.now) v.items) }
{
    let main = numbered(alloc, core, layout, true, core.bound().start())?;
    let mut functions = vec![in alloc; main]?;
    for index in 0..layout.called().len() {
        match layout.called().get(index) {
            None => unreachable!(),
            Some(number) => {
                let code = numbered(alloc, core, layout, false, *number as usize)?;
                functions.push(code)?;
            }
        }
    }
    Ok(functions)
}

/// The C program of a lowered program with these variables.
pub fn build(alloc: Global, core: &CoreProgram, layout: &Layout) -> Result<CProgram, AllocError>
    requires fits { FitsProgram layout.now core.now }
    ensures { IfOk result (λ c. IsProgramOf layout.now (lowered_core core.now) c) }
{
    let code = functions(alloc, core, layout)?;
    Ok(CProgram {
        tables: List::from_vec(Vec::new(alloc)),
        ints: layout.ints(),
        bufs: 0,
        functions: List::from_vec(code),
    })
}
