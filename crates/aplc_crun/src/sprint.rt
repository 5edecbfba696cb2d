//! Steps that only move whole numbers and cells, taken many at a time.
//! It must not know why a value is missing: there the step is left to be taken elsewhere.

ghost use Rattle.std.specs.Prelude.{◌≡◌, ◌+◌, ◌≤◌, ◌<◌, ◌^◌, ℕ, IfSome, IfNone, if◌then◌else◌};
ghost use Rattle.aplc_cprof.specs.Machine.{is_zero, value, Is};
ghost use Rattle.aplc_crun.specs.declared.code.Node.TheVariants as node;
ghost use Rattle.aplc_crun.specs.Terms.{expr_of};
ghost use Rattle.aplc_crun.specs.Flat.{flat_of, layout_of, seen, flat_run, Going};
ghost use Rattle.aplc_crun.specs.Sprinting.{stepped, Moves, Hops};

use crate::arith::quick_checked;
use crate::choices::Choices;
use crate::code::{Laid, Node};
use crate::eval::named;
use crate::live::Live;
use crate::quick::{quick_read, quick_term};
use crate::step::{assign, set_place};
use crate::term::Term;
use aplc_cprof::{Buf, Checked, Int};

/// The value of an expression, or the least number where there may be none.
#[inline(always)]
fn known(laid: &Laid, live: &Live, e: &Term) -> i64
    ensures { ¬ (result ≡ i64.MIN) → value (expr_of e.now) (layout_of laid.now).tables (seen live.now) ≡ Is result }
{
    quick_term(e, laid.tables.as_slice(), live)
}

#[inline(always)]
#[tactic(auto, using(crate::proofs::Moves::moves))]
fn set(laid: &Laid, live: &mut Live, x: Int, e: &Term, next: usize) -> Option<usize>
    ensures steps { live.new.steps ≡ live.old.steps }
    ensures moved { IfSome result (λ to. (at : ℕ) → Moves (layout_of laid.now) (node.Set x e.now next) at (flat_of live.old) to (flat_of live.new)) }
    ensures kept { IfNone result (flat_of live.new ≡ flat_of live.old) }
{
    let v = known(laid, live, e);
    if v == i64::MIN {
        return None;
    }
    assign(live, x, v);
    Some(next)
}

#[inline(always)]
#[tactic(auto, using(crate::proofs::Moves::moves))]
fn check(
    laid: &Laid,
    live: &mut Live,
    x: Int,
    op: Checked,
    e: &Term,
    g: &Term,
    next: usize,
) -> Option<usize>
    ensures steps { live.new.steps ≡ live.old.steps }
    ensures moved { IfSome result (λ to. (at : ℕ) → Moves (layout_of laid.now) (node.Check x op e.now g.now next) at (flat_of live.old) to (flat_of live.new)) }
    ensures kept { IfNone result (flat_of live.new ≡ flat_of live.old) }
{
    let a = known(laid, live, e);
    if a == i64::MIN {
        return None;
    }
    let b = known(laid, live, g);
    if b == i64::MIN {
        return None;
    }
    let v = quick_checked(op, a, b);
    if v == i64::MIN {
        return None;
    }
    assign(live, x, v);
    Some(next)
}

#[inline(always)]
#[tactic(auto, using(crate::proofs::Moves::moves))]
fn set_cell(laid: &Laid, live: &mut Live, p: Buf, e: &Term, g: &Term, next: usize) -> Option<usize>
    ensures steps { live.new.steps ≡ live.old.steps }
    ensures moved { IfSome result (λ to. (at : ℕ) → Moves (layout_of laid.now) (node.SetCell p e.now g.now next) at (flat_of live.old) to (flat_of live.new)) }
    ensures kept { IfNone result (flat_of live.new ≡ flat_of live.old) }
{
    let place = known(laid, live, e);
    if place == i64::MIN {
        return None;
    }
    let v = known(laid, live, g);
    if v == i64::MIN {
        return None;
    }
    match named(p, live) {
        None => None,
        Some(b) => match live.heap.write(b, place, v) {
            Err(_) => None,
            Ok(()) => Some(next),
        },
    }
}

/// The place that is due after a condition, which holds where it is not 0.
#[inline(always)]
fn target(v: i64, met: usize, other: usize) -> usize
    ensures { result ≡ (if is_zero v then other else met) }
{
    if v == 0 { other } else { met }
}

#[inline(always)]
#[tactic(auto, using(crate::proofs::Moves::moves))]
fn branch(laid: &Laid, live: &Live, e: &Term, met: usize, other: usize) -> Option<usize>
    ensures branched { IfSome result (λ to. (at : ℕ) → Moves (layout_of laid.now) (node.If e.now met other) at (flat_of live.now) to (flat_of live.now)) }
    ensures looped { IfSome result (λ to. (at : ℕ) → Moves (layout_of laid.now) (node.While e.now met other) at (flat_of live.now) to (flat_of live.now)) }
{
    let v = known(laid, live, e);
    if v == i64::MIN {
        return None;
    }
    Some(target(v, met, other))
}

#[inline(always)]
#[tactic(auto, using(crate::proofs::Moves::moves))]
fn switch(live: &Live, x: Int, arms: &Choices, other: usize, l: &Laid) -> Option<usize>
    ensures moved { IfSome result (λ to. (at : ℕ) → Moves (layout_of l.now) (node.Switch x arms.now other) at (flat_of live.now) to (flat_of live.now)) }
{
    let v = quick_read(x, live);
    if v == i64::MIN {
        return None;
    }
    Some(arms.pick(v, other))
}

/// Does what a statement does, where it only moves numbers and each has a value. Some is the place due then.
#[inline(always)]
fn hop_node(laid: &Laid, live: &mut Live, at: usize, node: &Node) -> Option<usize>
    ensures steps { live.new.steps ≡ live.old.steps }
    ensures moved { IfSome result (λ to. Moves (layout_of laid.now) node.now at (flat_of live.old) to (flat_of live.new)) }
    ensures kept { IfNone result (flat_of live.new ≡ flat_of live.old) }
{
    match node {
        Node::Set(x, e, next) => set(laid, live, *x, e, *next),
        Node::If(e, met, other) => branch(laid, live, e, *met, *other),
        Node::While(e, body, next) => branch(laid, live, e, *body, *next),
        Node::Check(x, op, e, g, next) => check(laid, live, *x, *op, e, g, *next),
        Node::SetCell(p, e, g, next) => set_cell(laid, live, *p, e, g, *next),
        Node::Switch(x, arms, other) => switch(live, *x, arms, *other, laid),
        Node::At(_, _, next) => {
            set_place(live, at);
            Some(*next)
        }
        _ => None,
    }
}

/// The same of the statement at a place.
#[inline(always)]
fn hop(laid: &Laid, live: &mut Live, at: usize) -> Option<usize>
    ensures steps { live.new.steps ≡ live.old.steps }
    ensures hopped { IfSome result (λ to. Hops (layout_of laid.now) at (flat_of live.old) to (flat_of live.new)) }
    ensures kept { IfNone result (flat_of live.new ≡ flat_of live.old) }
{
    match laid.nodes.get(at) {
        None => None,
        Some(node) => hop_node(laid, live, at, node),
    }
}

/// Counts the steps that were taken, after which a place is due.
fn settle(live: &mut Live, at: usize, taken: u64)
    requires { live.old.steps + taken < 2 ^ 64 }
    ensures steps { live.new.steps ≡ live.old.steps + taken }
    ensures counted { flat_of live.new ≡ stepped taken at (flat_of live.old) }
{
    live.at = at;
    live.steps += taken;
    if taken > 0 && live.peak < live.heap.held {
        live.peak = live.heap.held;
    }
}

/// Takes steps, at most `limit`, up to the first that does more than to move numbers, or has no value.
#[tactic(auto, using(crate::proofs::Moves::sprints))]
pub fn sprint(laid: &Laid, live: &mut Live, limit: u64) -> u64
    requires { live.old.steps + limit < 2 ^ 64 }
    ensures most { result ≤ limit }
    ensures steps { live.new.steps ≡ live.old.steps + result }
    ensures ran { flat_run (layout_of laid.now) result (flat_of live.old) ≡ Going (flat_of live.new) }
{
    let mut at = live.at;
    let mut taken = 0;
    while taken < limit {
        match hop(laid, live, at) {
            None => break,
            Some(next) => at = next,
        }
        taken += 1;
    }
    settle(live, at, taken);
    taken
}
