//! One step of a run.
//! It must not know how the statements were laid out, nor where input comes from and output goes.

ghost use Rattle.std.specs.Prelude.{◌≡◌, ◌+◌, ◌<◌, ◌^◌, ℕ, IfOk, OnErr, OnOk, slice_get};
ghost use Rattle.aplc_crun.specs.declared.code.Node.TheVariants as node;
ghost use Rattle.aplc_crun.specs.Flat.{flat_of, layout_of, flow_of, with_int, with_buf, go_to, make_cells, free_cells, free_found, write_cell, put_text, put_number, put_character, leave_to, none_of, entered, enter, marked, deeper, back_to, counted, flat_act, act_at, flat_step, TakesMemory, other_buf, IsCellCount, IsCharacter};
ghost use Rattle.aplc_crun.specs.Pausing.{taken, MemoryIsDue};

use crate::arith::checked_value;
use crate::choices::Choices;
use crate::code::{Entry, Laid, Node};
use crate::eval::{eval, named, read};
use crate::live::{Frame, Live, Verdict};
use crate::print::{put_char, put_padded, width_of};
use crate::term::Term;
use aplc_cprof::{Buf, Checked, Int, StuckCause};
use aplc_scalar::FaultKind;
use std::alloc::{AllocError, Global};

/// Gives a whole variable a number.
#[inline]
pub fn assign(live: &mut Live, x: Int, v: i64)
    ensures steps { live.new.steps ≡ live.old.steps }
    ensures assigned { flat_of live.new ≡ with_int x v (flat_of live.old) }
{
    match x {
        Int::Local(n) => {
            let n = n as usize;
            if n < live.ints.len() {
                live.ints[n] = Some(v);
            }
        }
        Int::Global(n) => {
            let n = n as usize;
            if n < live.global_ints.len() {
                live.global_ints[n] = v;
            }
        }
    }
}

fn put_int(live: &mut Live, x: Int, v: i64, next: usize) -> Verdict
    ensures steps { live.new.steps ≡ live.old.steps }
    ensures went { flow_of result (flat_of live.new) ≡ go_to next (with_int x v (flat_of live.old)) }
{
    assign(live, x, v);
    live.at = next;
    Verdict::Going
}

/// Lets a variable name a buffer.
pub fn name_buf(live: &mut Live, p: Buf, b: Option<usize>)
    ensures steps { live.new.steps ≡ live.old.steps }
    ensures named { flat_of live.new ≡ with_buf p b (flat_of live.old) }
{
    match p {
        Buf::Local(n) => {
            let n = n as usize;
            if n < live.bufs.len() {
                live.bufs[n] = b;
            }
        }
        Buf::Global(n) => {
            let n = n as usize;
            if n < live.global_bufs.len() {
                live.global_bufs[n] = b;
            }
        }
    }
}

fn put_buf(live: &mut Live, p: Buf, b: Option<usize>, next: usize) -> Verdict
    ensures steps { live.new.steps ≡ live.old.steps }
    ensures went { flow_of result (flat_of live.new) ≡ go_to next (with_buf p b (flat_of live.old)) }
{
    name_buf(live, p, b);
    live.at = next;
    Verdict::Going
}

fn other(q: Option<Buf>, live: &Live) -> Option<usize>
    ensures { result ≡ other_buf q (flat_of live.now) }
{
    match q {
        None => None,
        Some(q) => named(q, live),
    }
}

fn set_cell(laid: &Laid, live: &mut Live, p: Buf, e: &Term, g: &Term, next: usize) -> Verdict
    ensures steps { live.new.steps ≡ live.old.steps }
    ensures acted { flow_of result (flat_of live.new) ≡ flat_act (layout_of laid.now) (node.SetCell p e.now g.now next) (flat_of live.old) }
{
    let tables = laid.tables.as_slice();
    match eval(e, tables, live) {
        Err(cause) => Verdict::Stuck(cause),
        Ok(place) => match eval(g, tables, live) {
            Err(cause) => Verdict::Stuck(cause),
            Ok(v) => write(live, named(p, live), place, v, next),
        },
    }
}

fn write(live: &mut Live, b: Option<usize>, place: i64, v: i64, next: usize) -> Verdict
    ensures steps { live.new.steps ≡ live.old.steps }
    ensures acted { flow_of result (flat_of live.new) ≡ write_cell b place v next (flat_of live.old) }
{
    match b {
        None => Verdict::Stuck(StuckCause::Outside),
        Some(b) => match live.heap.write(b, place, v) {
            Err(cause) => Verdict::Stuck(cause),
            Ok(()) => {
                live.at = next;
                Verdict::Going
            }
        },
    }
}

/// The number of a count that `cells` takes.
fn cell_count(count: i64) -> Option<usize>
    ensures { IsCellCount count result }
{
    if 0 <= count && count < 0x8000_0000 {
        Some(count as usize)
    } else {
        None
    }
}

fn cells(
    alloc: Global,
    live: &mut Live,
    p: Buf,
    count: i64,
    next: usize,
) -> Result<Verdict, AllocError>
    ensures steps { live.new.steps ≡ live.old.steps }
    ensures acted { IfOk result (λ v. flow_of v (flat_of live.new) ≡ make_cells p count next (flat_of live.old)) }
    ensures kept { OnErr result (flat_of live.new ≡ flat_of live.old) }
{
    match cell_count(count) {
        None => Ok(Verdict::Stuck(StuckCause::Range)),
        Some(count) => {
            let b = live.heap.buffers.len();
            live.heap.make(alloc, count)?;
            Ok(put_buf(live, p, Some(b), next))
        }
    }
}

fn free(live: &mut Live, b: Option<usize>, next: usize) -> Verdict
    ensures steps { live.new.steps ≡ live.old.steps }
    ensures acted { flow_of result (flat_of live.new) ≡ free_cells b next (flat_of live.old) }
{
    match b {
        None => {
            live.at = next;
            Verdict::Going
        }
        Some(b) => match live.heap.buffers.get(b) {
            None => Verdict::Stuck(StuckCause::Outside),
            Some(None) => Verdict::Stuck(StuckCause::Freed),
            Some(Some(cells)) => {
                let count = cells.len();
                live.heap.free(b, count);
                live.at = next;
                Verdict::Going
            }
        },
    }
}

fn check(
    laid: &Laid,
    live: &mut Live,
    x: Int,
    op: Checked,
    e: &Term,
    g: &Term,
    next: usize,
) -> Verdict
    ensures steps { live.new.steps ≡ live.old.steps }
    ensures acted { flow_of result (flat_of live.new) ≡ flat_act (layout_of laid.now) (node.Check x op e.now g.now next) (flat_of live.old) }
{
    let tables = laid.tables.as_slice();
    match eval(e, tables, live) {
        Err(cause) => Verdict::Stuck(cause),
        Ok(a) => match eval(g, tables, live) {
            Err(cause) => Verdict::Stuck(cause),
            Ok(b) => match checked_value(op, a, b) {
                Err(_) => Verdict::Faulted(FaultKind::Limit),
                Ok(v) => put_int(live, x, v, next),
            },
        },
    }
}

fn number(live: &mut Live, v: i64, width: i64, next: usize) -> Verdict
    ensures steps { live.new.steps ≡ live.old.steps }
    ensures acted { flow_of result (flat_of live.new) ≡ put_number v width next (flat_of live.old) }
{
    if width < 0 || width > 20 {
        return Verdict::Stuck(StuckCause::Range);
    }
    if live.out.is_short() {
        return Verdict::Held;
    }
    put_padded(&mut live.out, v, width as usize);
    live.at = next;
    Verdict::Going
}

fn put_num(laid: &Laid, live: &mut Live, e: &Term, g: &Term, next: usize) -> Verdict
    ensures steps { live.new.steps ≡ live.old.steps }
    ensures acted { flow_of result (flat_of live.new) ≡ flat_act (layout_of laid.now) (node.PutNum e.now g.now next) (flat_of live.old) }
{
    let tables = laid.tables.as_slice();
    match eval(e, tables, live) {
        Err(cause) => Verdict::Stuck(cause),
        Ok(v) => match eval(g, tables, live) {
            Err(cause) => Verdict::Stuck(cause),
            Ok(width) => number(live, v, width, next),
        },
    }
}

/// The character of a code.
fn scalar(code: i64) -> Option<char>
    ensures { IsCharacter code result }
{
    if code < 0 || code > 0x10_FFFF {
        return None;
    }
    char::from_u32(code as u32)
}

fn character(live: &mut Live, code: i64, next: usize) -> Verdict
    ensures steps { live.new.steps ≡ live.old.steps }
    ensures acted { flow_of result (flat_of live.new) ≡ put_character code next (flat_of live.old) }
{
    match scalar(code) {
        None => Verdict::Stuck(StuckCause::Range),
        Some(c) => {
            if live.out.is_short() {
                return Verdict::Held;
            }
            put_char(&mut live.out, c);
            live.at = next;
            Verdict::Going
        }
    }
}

#[tactic(auto, using(crate::proofs::Callers::callers))]
fn leave(live: &mut Live) -> Verdict
    ensures steps { live.new.steps ≡ live.old.steps }
    ensures left { flow_of result (flat_of live.new) ≡ leave_to (flat_of live.old).callers (flat_of live.old) }
{
    match live.callers.pop() {
        None => Verdict::Ended,
        Some(frame) => {
            let Frame { at, ints, bufs } = frame;
            live.at = at;
            live.ints = ints;
            live.bufs = bufs;
            Verdict::Going
        }
    }
}

/// So many unset whole variables.
pub fn unset(alloc: Global, count: usize) -> Result<Vec<Option<i64>>, AllocError>
    ensures { IfOk result (λ v. v.items ≡ none_of count) }
{
    vec![in alloc; None; count]
}

/// So many null buffer variables.
pub fn null(alloc: Global, count: usize) -> Result<Vec<Option<usize>>, AllocError>
    ensures { IfOk result (λ v. v.items ≡ none_of count) }
{
    vec![in alloc; None; count]
}

#[tactic(auto, using(crate::proofs::Callers::callers))]
fn enter(alloc: Global, live: &mut Live, entry: Entry, next: usize) -> Result<(), AllocError>
    ensures steps { live.new.steps ≡ live.old.steps }
    ensures acted { OnOk result (flat_of live.new ≡ entered entry next (flat_of live.old)) }
    ensures kept { OnErr result (flat_of live.new ≡ flat_of live.old) }
{
    let fresh_ints = unset(alloc, entry.ints)?;
    let fresh_bufs = null(alloc, entry.bufs)?;
    let ints = std::mem::replace(&mut live.ints, fresh_ints);
    let bufs = std::mem::replace(&mut live.bufs, fresh_bufs);
    match live.callers.push(Frame {
        at: next,
        ints,
        bufs,
    }) {
        Ok(()) => {
            live.at = entry.at;
            Ok(())
        }
        Err(failed) => {
            let Frame { at: _, ints, bufs } = failed.value;
            live.ints = ints;
            live.bufs = bufs;
            Err(AllocError)
        }
    }
}

fn call(
    alloc: Global,
    laid: &Laid,
    live: &mut Live,
    k: u32,
    next: usize,
) -> Result<Verdict, AllocError>
    ensures steps { live.new.steps ≡ live.old.steps }
    ensures acted { IfOk result (λ v. flow_of v (flat_of live.new) ≡ flat_act (layout_of laid.now) (node.Call k next) (flat_of live.old)) }
    ensures kept { OnErr result (flat_of live.new ≡ flat_of live.old) }
{
    match laid.entries.get(k as usize) {
        None => Ok(Verdict::Stuck(StuckCause::Outside)),
        Some(entry) => {
            enter(alloc, live, *entry, next)?;
            Ok(Verdict::Going)
        }
    }
}

fn set(laid: &Laid, live: &mut Live, x: Int, e: &Term, next: usize) -> Verdict
    ensures steps { live.new.steps ≡ live.old.steps }
    ensures acted { flow_of result (flat_of live.new) ≡ flat_act (layout_of laid.now) (node.Set x e.now next) (flat_of live.old) }
{
    match eval(e, laid.tables.as_slice(), live) {
        Err(cause) => Verdict::Stuck(cause),
        Ok(v) => put_int(live, x, v, next),
    }
}

fn width(laid: &Laid, live: &mut Live, x: Int, e: &Term, next: usize) -> Verdict
    ensures steps { live.new.steps ≡ live.old.steps }
    ensures acted { flow_of result (flat_of live.new) ≡ flat_act (layout_of laid.now) (node.Width x e.now next) (flat_of live.old) }
{
    match eval(e, laid.tables.as_slice(), live) {
        Err(cause) => Verdict::Stuck(cause),
        Ok(v) => put_int(live, x, width_of(v) as i64, next),
    }
}

fn put_code(laid: &Laid, live: &mut Live, e: &Term, next: usize) -> Verdict
    ensures steps { live.new.steps ≡ live.old.steps }
    ensures acted { flow_of result (flat_of live.new) ≡ flat_act (layout_of laid.now) (node.PutChar e.now next) (flat_of live.old) }
{
    match eval(e, laid.tables.as_slice(), live) {
        Err(cause) => Verdict::Stuck(cause),
        Ok(code) => character(live, code, next),
    }
}

fn new_cells(
    alloc: Global,
    laid: &Laid,
    live: &mut Live,
    p: Buf,
    e: &Term,
    next: usize,
) -> Result<Verdict, AllocError>
    ensures steps { live.new.steps ≡ live.old.steps }
    ensures acted { IfOk result (λ v. flow_of v (flat_of live.new) ≡ flat_act (layout_of laid.now) (node.Cells p e.now next) (flat_of live.old)) }
    ensures kept { OnErr result (flat_of live.new ≡ flat_of live.old) }
{
    match eval(e, laid.tables.as_slice(), live) {
        Err(cause) => Ok(Verdict::Stuck(cause)),
        Ok(count) => cells(alloc, live, p, count, next),
    }
}

/// Goes to one place where a condition is 0, and else to another.
fn branch(laid: &Laid, live: &mut Live, e: &Term, met: usize, other: usize) -> Verdict
    ensures steps { live.new.steps ≡ live.old.steps }
    ensures acted { flow_of result (flat_of live.new) ≡ flat_act (layout_of laid.now) (node.If e.now met other) (flat_of live.old) }
{
    match eval(e, laid.tables.as_slice(), live) {
        Err(cause) => Verdict::Stuck(cause),
        Ok(v) => {
            live.at = if v == 0 { other } else { met };
            Verdict::Going
        }
    }
}

fn switch(live: &mut Live, x: Int, arms: &Choices, other: usize, l: &Laid) -> Verdict
    ensures steps { live.new.steps ≡ live.old.steps }
    ensures acted { flow_of result (flat_of live.new) ≡ flat_act (layout_of l.now) (node.Switch x arms.now other) (flat_of live.old) }
{
    match read(x, live) {
        Err(cause) => Verdict::Stuck(cause),
        Ok(v) => {
            live.at = arms.pick(v, other);
            Verdict::Going
        }
    }
}

/// The innermost place is set by a mark, which is counted.
#[inline]
pub fn set_place(live: &mut Live, mark: usize)
    ensures steps { live.new.steps ≡ live.old.steps }
    ensures placed { flat_of live.new ≡ marked mark (flat_of live.old) }
{
    live.places.here = Some(mark);
    live.marks = live.marks.saturating_add(1);
}

fn enter_place(live: &mut Live, next: usize) -> Verdict
    ensures steps { live.new.steps ≡ live.old.steps }
    ensures acted { flow_of result (flat_of live.new) ≡ deeper next (flat_of live.old) }
{
    if !live.places.has_room() {
        return Verdict::Stuck(StuckCause::Outside);
    }
    live.places.enter();
    live.at = next;
    Verdict::Going
}

#[tactic(auto, using(crate::proofs::Callers::behinds))]
fn leave_place(live: &mut Live, next: usize) -> Verdict
    ensures steps { live.new.steps ≡ live.old.steps }
    ensures acted { flow_of result (flat_of live.new) ≡ back_to (flat_of live.old).behind next (flat_of live.old) }
{
    match live.places.behind.pop() {
        None => Verdict::Stuck(StuckCause::Outside),
        Some(here) => {
            live.places.here = here;
            live.at = next;
            Verdict::Going
        }
    }
}

/// Does what a statement does. Only `cells` and a call take memory, and refused they change nothing.
fn act(alloc: Global, laid: &Laid, live: &mut Live, node: &Node) -> Result<Verdict, AllocError>
    ensures steps { live.new.steps ≡ live.old.steps }
    ensures acted { IfOk result (λ v. flow_of v (flat_of live.new) ≡ flat_act (layout_of laid.now) node.now (flat_of live.old)) }
    ensures kept { OnErr result (flat_of live.new ≡ flat_of live.old) }
    ensures hungry { OnErr result (TakesMemory node.now) }
{
    match node {
        Node::End | Node::Return => Ok(leave(live)),
        Node::Set(x, e, next) => Ok(set(laid, live, *x, e, *next)),
        Node::If(e, met, other) => Ok(branch(laid, live, e, *met, *other)),
        Node::While(e, body, next) => Ok(branch(laid, live, e, *body, *next)),
        Node::Cells(p, e, next) => new_cells(alloc, laid, live, *p, e, *next),
        Node::Call(k, next) => call(alloc, laid, live, *k, *next),
        Node::ReadText(_, _) | Node::ReadNums(_, _) => Ok(Verdict::Held),
        Node::Fault(kind) => Ok(Verdict::Faulted(*kind)),
        Node::SetCell(p, e, g, next) => Ok(set_cell(laid, live, *p, e, g, *next)),
        Node::SetBuf(p, q, next) => {
            let b = other(*q, live);
            Ok(put_buf(live, *p, b, *next))
        }
        Node::Free(p, next) => {
            let b = named(*p, live);
            Ok(free(live, b, *next))
        }
        Node::Check(x, op, e, g, next) => Ok(check(laid, live, *x, *op, e, g, *next)),
        Node::Width(x, e, next) => Ok(width(laid, live, *x, e, *next)),
        Node::PutNum(e, g, next) => Ok(put_num(laid, live, e, g, *next)),
        Node::PutChar(e, next) => Ok(put_code(laid, live, e, *next)),
        Node::ReadCount(x, next) => {
            let v = live.read_count;
            Ok(put_int(live, *x, v, *next))
        }
        Node::At(_, _, next) => {
            let mark = live.at;
            set_place(live, mark);
            live.at = *next;
            Ok(Verdict::Going)
        }
        Node::Enter(next) => Ok(enter_place(live, *next)),
        Node::Leave(next) => Ok(leave_place(live, *next)),
        Node::Switch(x, arms, next) => Ok(switch(live, *x, arms, *next, laid)),
    }
}

/// The step is counted, and the cells held are compared with the most so far.
#[inline]
pub fn count(live: &mut Live)
    requires { live.old.steps + 1 < 2 ^ 64 }
    ensures counted { flat_of live.new ≡ counted (flat_of live.old) }
    ensures steps { live.new.steps ≡ live.old.steps + 1 }
{
    live.steps += 1;
    if live.peak < live.heap.held {
        live.peak = live.heap.held;
    }
}

/// Takes a step, where it is not held. Where memory is refused nothing has changed.
#[tactic(auto, unfolding(crate::specs::Flat::flat_step))]
pub fn step(alloc: Global, laid: &Laid, live: &mut Live) -> Result<Verdict, AllocError>
    requires { live.old.steps + 1 < 2 ^ 64 }
    ensures took { IfOk result (λ v. flow_of v (flat_of live.new) ≡ flat_step (layout_of laid.now) (flat_of live.old)) }
    ensures steps { IfOk result (λ v. live.new.steps ≡ live.old.steps + taken v) }
    ensures kept { OnErr result (flat_of live.new ≡ flat_of live.old) }
    ensures kept_steps { OnErr result (live.new.steps ≡ live.old.steps) }
    ensures hungry { OnErr result (MemoryIsDue (slice_get laid.now.nodes.items live.old.at)) }
{
    let verdict = match laid.nodes.get(live.at) {
        None => leave(live),
        Some(node) => act(alloc, laid, live, node)?,
    };
    match verdict {
        Verdict::Held => {}
        _ => count(live),
    }
    Ok(verdict)
}
