//! The value of an expression in a quick way that tells no cause: where there may be none the answer is the least
//! `i64`, which is no number of the machine. It must not change what it reads.

ghost use Rattle.std.specs.Prelude.{◌≡◌, List, ℤ, IfSome, slice_get};
ghost use Rattle.aplc_cprof.specs.Machine.{Value, value, read_int, named_buf, table_cell, item_at, apply, Is};
ghost use Rattle.aplc_crun.specs.Seen.{looked_up};
ghost use Rattle.aplc_crun.specs.Terms.{leaf_of, expr_of};
ghost use Rattle.aplc_crun.specs.Flat.{seen};

use crate::arith::quick_both;
use crate::eval::{at, named};
use crate::live::Live;
use crate::term::{Operand, Term};
use aplc_cprof::{Buf, CExpr, Int, List, Op};

/// The number of a whole variable.
#[inline]
pub fn quick_read(x: Int, live: &Live) -> i64
    ensures { ¬ (result ≡ i64.MIN) → read_int x (seen live.now) ≡ Is result }
{
    match x {
        Int::Local(n) => match at(live.ints.as_slice(), n) {
            Some(Some(v)) => *v,
            _ => i64::MIN,
        },
        Int::Global(n) => match at(live.global_ints.as_slice(), n) {
            Some(v) => *v,
            None => 0,
        },
    }
}

#[inline]
fn quick_item(items: &[i64], place: i64) -> i64
    ensures { ¬ (result ≡ i64.MIN) → item_at items.now place ≡ Is result }
{
    if place < 0 {
        return i64::MIN;
    }
    match items.get(place as usize) {
        Some(v) => *v,
        None => i64::MIN,
    }
}

#[inline]
fn quick_cell(p: Buf, place: i64, live: &Live) -> i64
    ensures { ¬ (result ≡ i64.MIN) → looked_up live.now.heap.buffers.items (named_buf p (seen live.now)) place ≡ Is result }
{
    match named(p, live) {
        None => i64::MIN,
        Some(b) => match live.heap.buffers.get(b) {
            Some(Some(cells)) => quick_item(cells.as_slice(), place),
            _ => i64::MIN,
        },
    }
}

#[inline]
fn quick_table(tables: &[List<i64>], k: u32, place: i64) -> i64
    ensures { ¬ (result ≡ i64.MIN) → table_cell (slice_get tables.now k) place ≡ Is result }
{
    match at(tables, k) {
        None => i64::MIN,
        Some(items) => quick_item(items.as_slice(), place),
    }
}

/// The value of an operand.
#[inline(always)]
#[tactic(auto, using(aplc_cprof::proofs::Values::value_Lit, aplc_cprof::proofs::Values::value_Var))]
fn quick_operand(o: Operand, live: &Live) -> i64
    ensures { ¬ (result ≡ i64.MIN) → (tables : List (List ℤ)) → value (leaf_of o) tables (seen live.now) ≡ Is result }
{
    match o {
        Operand::Lit(n) => n,
        Operand::Local(n) => quick_read(Int::Local(n), live),
        Operand::Global(n) => quick_read(Int::Global(n), live),
    }
}

/// The value of a literal or of a variable.
#[inline(always)]
#[tactic(auto, unfolding(aplc_cprof::specs::Machine::value))]
fn leaf(e: &CExpr, tables: &[List<i64>], live: &Live) -> i64
    ensures { ¬ (result ≡ i64.MIN) → value e.now tables.now (seen live.now) ≡ Is result }
{
    match e {
        CExpr::Lit(n) => *n,
        CExpr::Var(x) => quick_read(*x, live),
        _ => i64::MIN,
    }
}

/// The value of a side of an operation.
#[inline(always)]
#[cycle(quick)]
fn side(e: &CExpr, tables: &[List<i64>], live: &Live) -> i64
    ensures { ¬ (result ≡ i64.MIN) → value e.now tables.now (seen live.now) ≡ Is result }
{
    let v = leaf(e, tables, live);
    if v != i64::MIN {
        return v;
    }
    quick(e, tables, live)
}

/// The value that the left side of an operation settles alone.
#[inline(always)]
fn settled(op: Op, x: i64) -> Option<i64>
    ensures { IfSome result (λ v. (w : Value) → apply op (Is x) w ≡ Is v) }
{
    match op {
        Op::And if x == 0 => Some(0),
        Op::Or if x != 0 => Some(1),
        _ => None,
    }
}

/// The value of an expression.
#[cycle(quick)]
#[tactic(auto, unfolding(aplc_cprof::specs::Machine::value))]
fn quick(e: &CExpr, tables: &[List<i64>], live: &Live) -> i64
    ensures { ¬ (result ≡ i64.MIN) → value e.now tables.now (seen live.now) ≡ Is result }
{
    match e {
        CExpr::Lit(n) => *n,
        CExpr::Var(x) => quick_read(*x, live),
        CExpr::Cell(p, e) => {
            let place = side(e.get(), tables, live);
            if place == i64::MIN {
                return i64::MIN;
            }
            quick_cell(*p, place, live)
        }
        CExpr::Table(k, e) => {
            let place = side(e.get(), tables, live);
            if place == i64::MIN {
                return i64::MIN;
            }
            quick_table(tables, *k, place)
        }
        CExpr::Bin(op, a, b) => {
            let x = side(a.get(), tables, live);
            if x == i64::MIN {
                return i64::MIN;
            }
            if let Some(v) = settled(*op, x) {
                return v;
            }
            let y = side(b.get(), tables, live);
            if y == i64::MIN {
                return i64::MIN;
            }
            quick_both(*op, x, y)
        }
    }
}

/// The value of an expression that has parts of its own. It is called in place of being taken into a loop.
#[cold]
#[inline(never)]
fn quick_deep(e: &CExpr, tables: &[List<i64>], live: &Live) -> i64
    ensures { ¬ (result ≡ i64.MIN) → value e.now tables.now (seen live.now) ≡ Is result }
{
    quick(e, tables, live)
}

/// The value of an expression that is laid out.
#[inline(always)]
#[tactic(auto, unfolding(aplc_cprof::specs::Machine::value))]
pub fn quick_term(t: &Term, tables: &[List<i64>], live: &Live) -> i64
    ensures { ¬ (result ≡ i64.MIN) → value (expr_of t.now) tables.now (seen live.now) ≡ Is result }
{
    match t {
        Term::Both(op, a, b) => {
            let x = quick_operand(*a, live);
            if x == i64::MIN {
                return i64::MIN;
            }
            let y = quick_operand(*b, live);
            if y == i64::MIN {
                return i64::MIN;
            }
            quick_both(*op, x, y)
        }
        Term::Leaf(o) => quick_operand(*o, live),
        Term::Cell(p, o) => {
            let place = quick_operand(*o, live);
            if place == i64::MIN {
                return i64::MIN;
            }
            quick_cell(*p, place, live)
        }
        Term::Other(e) => quick_deep(e, tables, live),
    }
}
