//! Code that prints planes.
//! It must not know how a row is printed, nor what makes the elements.

ghost use Rattle.std.specs.Prelude.{◌≡◌, ◌+◌, ◌≤◌, ◌++◌, ◌∷◌, [], OnOk, IfOk, length};
ghost use Rattle.aplc_cprof.specs.declared.syntax.Int.{Int};
ghost use Rattle.aplc_cprof.specs.Blocks.{IsKept};
ghost use Rattle.aplc_cprof.specs.Frames.{AreGiven, AreOld, IsOld};
ghost use Rattle.aplc_quad.specs.Printing.{goes_on, parts, with_head};
ghost use Rattle.aplc_quad.specs.Printed.{bufs_of, AreOldColumns, Adds, NestPuts};

use crate::cells::row_line;
use crate::printing::{Columns, character_block};
use aplc_collect::ElementCode;
use aplc_cprof::{Builder, CExpr, CStmt, Int, Op, binary};
use sqlite_items::Items;
use std::alloc::{AllocError, Global};

/// Whether a row was printed before this turn of an axis.
fn goes_on(alloc: Global, started: Int, i: Int) -> Result<CExpr, AllocError>
    ensures { IfOk result (λ e. e ≡ goes_on started i) }
{
    let later = binary(alloc, Op::Greater, CExpr::Var(i), CExpr::Lit(0))?;
    binary(alloc, Op::Or, CExpr::Var(started), later)
}

/// Whether an empty line parts the turn from that row.
fn parts(alloc: Global, moved: Int, length: Int) -> Result<CExpr, AllocError>
    ensures { IfOk result (λ e. e ≡ parts moved length) }
{
    let several = binary(alloc, Op::Greater, CExpr::Var(length), CExpr::Lit(1))?;
    binary(alloc, Op::And, CExpr::Var(moved), several)
}

/// The head of a turn of an axis: an empty line where one is due. It gives the variable that tells whether a row was
/// printed before.
fn head_code(
    alloc: Global,
    b: &mut Builder,
    started: Int,
    i: Int,
    length: Int,
) -> Result<Int, AllocError>
    ensures name { IfOk result (λ v. v ≡ Int.Local b.old.ints) }
    ensures code { OnOk result (b.new ≡ with_head started i length b.old) }
    ensures kept { IsKept b.old b.new }
{
    let moved = b.fresh_int()?;
    let goes_on = goes_on(alloc, started, i)?;
    b.emit(CStmt::Set(moved, goes_on))?;
    let parts = parts(alloc, moved, length)?;
    let line = character_block(alloc, 10)?;
    b.emit(CStmt::If(parts, line, None))?;
    Ok(moved)
}

/// The rows along the last two axes.
fn plane_code<E: ElementCode>(
    alloc: Global,
    b: &mut Builder,
    at: &mut Items<Int>,
    rows: Int,
    length: Int,
    columns: Columns,
    code: &mut E,
) -> Result<(), AllocError>
    requires given { AreGiven (E.given code.old) b.old }
    requires at { AreOld b.old.ints at.old }
    requires rows { IsOld b.old.ints rows }
    requires length { IsOld b.old.ints length }
    requires columns { AreOldColumns b.old.bufs columns }
    ensures ok { OnOk result ((started : Int) → Adds (E.given code.old) (4 + E.depth code.old) b.old b.new (started ∷ at.old ++ rows ∷ length ∷ []) (bufs_of columns) (NestPuts (E.test code.old) (E.steps code.old) at.old (rows ∷ length ∷ []) started columns)) }
    ensures kept { IsKept b.old b.new }
    ensures same { (E.test code.new ≡ E.test code.old) × (E.steps code.new ≡ E.steps code.old) × (E.given code.new ≡ E.given code.old) × (E.depth code.new ≡ E.depth code.old) }
{
    let row = b.begin_loop()?;
    at.push(row)?;
    row_line(alloc, b, at, length, columns, code)?;
    b.end_loop(alloc, row, rows)
}

/// A loop for each axis that is left, two at least: lines, and empty lines before planes but the first.
pub fn nest_code<E: ElementCode>(
    alloc: Global,
    b: &mut Builder,
    at: &mut Items<Int>,
    lengths: &[Int],
    started: Int,
    columns: Columns,
    code: &mut E,
) -> Result<(), AllocError>
    requires given { AreGiven (E.given code.old) b.old }
    requires ranked { 2 ≤ length lengths.now }
    requires at { AreOld b.old.ints at.old }
    requires lengths { AreOld b.old.ints lengths.now }
    requires started { IsOld b.old.ints started }
    requires columns { AreOldColumns b.old.bufs columns }
    ensures ok { OnOk result (Adds (E.given code.old) (2 + E.depth code.old + length lengths.now) b.old b.new (started ∷ at.old ++ lengths.now) (bufs_of columns) (NestPuts (E.test code.old) (E.steps code.old) at.old lengths.now started columns)) }
    ensures kept { IsKept b.old b.new }
    ensures same { (E.test code.new ≡ E.test code.old) × (E.steps code.new ≡ E.steps code.old) × (E.given code.new ≡ E.given code.old) × (E.depth code.new ≡ E.depth code.old) }
{
    match lengths {
        [length, _, _, ..] => {
            let i = b.begin_loop()?;
            let moved = head_code(alloc, b, started, i, *length)?;
            at.push(i)?;
            nest_code(alloc, b, at, &lengths[1..], moved, columns, code)?;
            b.end_loop(alloc, i, *length)
        }
        _ => plane_code(alloc, b, at, lengths[0], lengths[1], columns, code),
    }
}
