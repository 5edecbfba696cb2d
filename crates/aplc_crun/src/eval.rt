//! The value of an expression, or why it has none: first in a quick way, and where that has none once more.
//! It must not change what it reads.

ghost use Rattle.std.specs.Prelude.{◌≡◌, slice_get};
ghost use Rattle.std.specs.Option.{option_copied};
ghost use Rattle.aplc_cprof.specs.Machine.{value, read_int, named_buf, live_cell, table_cell, item_at};
ghost use Rattle.aplc_crun.specs.Seen.{value_of, joined, looked_up};
ghost use Rattle.aplc_crun.specs.Terms.{leaf_of, expr_of};
ghost use Rattle.aplc_crun.specs.Flat.{seen};

use crate::arith::{both_values, truth_value};
use crate::live::Live;
use crate::quick::quick_term;
use crate::term::{Operand, Term};
use aplc_cprof::{Buf, CExpr, Int, List, Op, StuckCause};

/// What is at a place of a list.
#[inline]
pub fn at<T>(items: &[T], place: u32) -> Option<&T>
    ensures { option_copied result ≡ slice_get items.now place }
{
    items.get(place as usize)
}

/// The buffer that a variable names.
#[inline]
pub fn named(p: Buf, live: &Live) -> Option<usize>
    ensures { result ≡ named_buf p (seen live.now) }
{
    match p {
        Buf::Local(n) => match at(live.bufs.as_slice(), n) {
            Some(b) => *b,
            None => None,
        },
        Buf::Global(n) => match at(live.global_bufs.as_slice(), n) {
            Some(b) => *b,
            None => None,
        },
    }
}

/// The number of a whole variable.
pub fn read(x: Int, live: &Live) -> Result<i64, StuckCause>
    ensures { value_of result ≡ read_int x (seen live.now) }
{
    match x {
        Int::Local(n) => match at(live.ints.as_slice(), n) {
            Some(Some(v)) => Ok(*v),
            _ => Err(StuckCause::Unset),
        },
        Int::Global(n) => match at(live.global_ints.as_slice(), n) {
            Some(v) => Ok(*v),
            None => Ok(0),
        },
    }
}

fn item(items: &[i64], place: i64) -> Result<i64, StuckCause>
    ensures { value_of result ≡ item_at items.now place }
{
    if place < 0 {
        return Err(StuckCause::Outside);
    }
    match items.get(place as usize) {
        Some(v) => Ok(*v),
        None => Err(StuckCause::Outside),
    }
}

fn cell(p: Buf, place: i64, live: &Live) -> Result<i64, StuckCause>
    ensures { value_of result ≡ looked_up live.now.heap.buffers.items (named_buf p (seen live.now)) place }
{
    match named(p, live) {
        None => Err(StuckCause::Outside),
        Some(b) => match live.heap.buffers.get(b) {
            None => Err(StuckCause::Outside),
            Some(None) => Err(StuckCause::Freed),
            Some(Some(cells)) => item(cells.as_slice(), place),
        },
    }
}

fn table(tables: &[List<i64>], k: u32, place: i64) -> Result<i64, StuckCause>
    ensures { value_of result ≡ table_cell (slice_get tables.now k) place }
{
    match at(tables, k) {
        None => Err(StuckCause::Outside),
        Some(items) => item(items.as_slice(), place),
    }
}

#[inline(never)]
#[tactic(auto, unfolding(aplc_cprof::specs::Machine::value))]
fn slow(e: &CExpr, tables: &[List<i64>], live: &Live) -> Result<i64, StuckCause>
    ensures { value_of result ≡ value e.now tables.now (seen live.now) }
{
    match e {
        CExpr::Lit(n) => Ok(*n),
        CExpr::Var(x) => read(*x, live),
        CExpr::Cell(p, e) => {
            let place = slow(e.get(), tables, live)?;
            cell(*p, place, live)
        }
        CExpr::Table(k, e) => {
            let place = slow(e.get(), tables, live)?;
            table(tables, *k, place)
        }
        CExpr::Bin(Op::And, a, b) => {
            let a = slow(a.get(), tables, live)?;
            if a == 0 {
                return Ok(0);
            }
            let b = slow(b.get(), tables, live)?;
            Ok(truth_value(b != 0))
        }
        CExpr::Bin(Op::Or, a, b) => {
            let a = slow(a.get(), tables, live)?;
            if a != 0 {
                return Ok(1);
            }
            let b = slow(b.get(), tables, live)?;
            Ok(truth_value(b != 0))
        }
        CExpr::Bin(op, a, b) => {
            let a = slow(a.get(), tables, live)?;
            let b = slow(b.get(), tables, live)?;
            both_values(*op, a, b)
        }
    }
}

/// The value of an operand.
#[tactic(auto, using(aplc_cprof::proofs::Values::value_Lit, aplc_cprof::proofs::Values::value_Var))]
fn operand_value(o: Operand, tables: &[List<i64>], live: &Live) -> Result<i64, StuckCause>
    ensures { value_of result ≡ value (leaf_of o) tables.now (seen live.now) }
{
    match o {
        Operand::Lit(n) => Ok(n),
        Operand::Local(n) => read(Int::Local(n), live),
        Operand::Global(n) => read(Int::Global(n), live),
    }
}

#[inline(never)]
#[tactic(auto, unfolding(aplc_cprof::specs::Machine::value))]
fn slow_term(t: &Term, tables: &[List<i64>], live: &Live) -> Result<i64, StuckCause>
    ensures { value_of result ≡ value (expr_of t.now) tables.now (seen live.now) }
{
    match t {
        Term::Leaf(o) => operand_value(*o, tables, live),
        Term::Cell(p, o) => {
            let place = operand_value(*o, tables, live)?;
            cell(*p, place, live)
        }
        Term::Both(Op::And, a, b) => {
            let a = operand_value(*a, tables, live)?;
            if a == 0 {
                return Ok(0);
            }
            let b = operand_value(*b, tables, live)?;
            Ok(truth_value(b != 0))
        }
        Term::Both(Op::Or, a, b) => {
            let a = operand_value(*a, tables, live)?;
            if a != 0 {
                return Ok(1);
            }
            let b = operand_value(*b, tables, live)?;
            Ok(truth_value(b != 0))
        }
        Term::Both(op, a, b) => {
            let a = operand_value(*a, tables, live)?;
            let b = operand_value(*b, tables, live)?;
            both_values(*op, a, b)
        }
        Term::Other(e) => slow(e, tables, live),
    }
}

/// The value of an expression, or why there is none.
pub fn eval(t: &Term, tables: &[List<i64>], live: &Live) -> Result<i64, StuckCause>
    ensures { value_of result ≡ value (expr_of t.now) tables.now (seen live.now) }
{
    let v = quick_term(t, tables, live);
    if v != i64::MIN {
        return Ok(v);
    }
    slow_term(t, tables, live)
}
