//! Code that finds the widths of columns.
//! It must not know how a row is printed.

ghost use Rattle.std.specs.Prelude.{◌≡◌, ◌+◌, ◌-◌, ◌≤◌, ◌++◌, ◌∷◌, [], OnOk, IfOk, length, slice_index_or};
ghost use Rattle.aplc_cprof.specs.declared.syntax.Int.{Int};
ghost use Rattle.aplc_cprof.specs.Blocks.{IsKept};
ghost use Rattle.aplc_cprof.specs.Frames.{AreGiven, AreOld, IsOld, IsOldBuf};
ghost use Rattle.aplc_quad.specs.Printing.{with_code};
ghost use Rattle.aplc_quad.specs.Printed.{Adds};
ghost use Rattle.aplc_quad.specs.Ranges.{set_if_less, widen_stmts, zero_stmts, with_widths, AreApart, IsApart, IsRange, RangeRuns, ColumnRuns, WidthsRun};

use aplc_collect::ElementCode;
use aplc_cprof::{Buf, Builder, CExpr, CStmt, Int, less};
use sqlite_items::Items;
use std::alloc::{AllocError, Global};

/// The least and the greatest number of a column so far; the number 0 counts too, since no text is narrower.
#[derive(Clone, Copy)]
pub struct Range {
    pub least: Int,
    pub greatest: Int,
}

fn set_block(alloc: Global, x: Int, value: Int) -> Result<Items<CStmt>, AllocError>
    ensures { IfOk result (λ l. l ≡ CStmt.Set x (CExpr.Var value) ∷ []) }
{
    let mut block = Items::new(alloc);
    block.push(CStmt::Set(x, CExpr::Var(value)))?;
    Ok(block)
}

/// Sets a variable to another's value where one variable is less than another.
fn set_if_less(
    alloc: Global,
    b: &mut Builder,
    x: Int,
    y: Int,
    target: Int,
    value: Int,
) -> Result<(), AllocError>
    ensures code { OnOk result (b.new ≡ with_code (set_if_less x y target value ∷ []) b.old) }
    ensures kept { IsKept b.old b.new }
{
    let test = less(alloc, x, y)?;
    let block = set_block(alloc, target, value)?;
    b.emit(CStmt::If(test, block, None))
}

/// Widens the range by a number.
fn widen_code(alloc: Global, b: &mut Builder, range: Range, v: Int) -> Result<(), AllocError>
    ensures code { OnOk result (b.new ≡ with_code (widen_stmts v range.least range.greatest) b.old) }
    ensures kept { IsKept b.old b.new }
{
    set_if_less(alloc, b, v, range.least, range.least, v)?;
    set_if_less(alloc, b, range.greatest, v, range.greatest, v)
}

/// Widens the range by one element.
fn range_one<E: ElementCode>(
    alloc: Global,
    b: &mut Builder,
    at: &mut Items<Int>,
    column: Int,
    range: Range,
    code: &mut E,
) -> Result<(), AllocError>
    requires given { AreGiven (E.given code.old) b.old }
    requires range { IsRange (E.given code.old).ints b.old.ints range.least range.greatest }
    requires at { AreApart b.old.ints range.least range.greatest at.old }
    requires column { IsApart b.old.ints range.least range.greatest column }
    ensures ok { OnOk result ((length : Int) → Adds (E.given code.old) (1 + E.depth code.old) b.old b.new (range.least ∷ range.greatest ∷ column ∷ at.old ++ length ∷ []) [] (RangeRuns (E.test code.old) (E.steps code.old) at.old (length ∷ []) column range.least range.greatest)) }
    ensures kept { IsKept b.old b.new }
    ensures same { (E.test code.new ≡ E.test code.old) × (E.steps code.new ≡ E.steps code.old) × (E.given code.new ≡ E.given code.old) × (E.depth code.new ≡ E.depth code.old) }
{
    at.push(column)?;
    let v = code.emit(alloc, b, at.as_slice())?;
    widen_code(alloc, b, range, v)
}

/// Widens the range by the elements of a column, with a loop for each axis that is left but the last.
fn range_nest<E: ElementCode>(
    alloc: Global,
    b: &mut Builder,
    at: &mut Items<Int>,
    lengths: &[Int],
    column: Int,
    range: Range,
    code: &mut E,
) -> Result<(), AllocError>
    requires given { AreGiven (E.given code.old) b.old }
    requires ranked { 1 ≤ length lengths.now }
    requires range { IsRange (E.given code.old).ints b.old.ints range.least range.greatest }
    requires at { AreApart b.old.ints range.least range.greatest at.old }
    requires lengths { AreApart b.old.ints range.least range.greatest lengths.now }
    requires column { IsApart b.old.ints range.least range.greatest column }
    ensures ok { OnOk result (Adds (E.given code.old) (E.depth code.old + length lengths.now) b.old b.new (range.least ∷ range.greatest ∷ column ∷ at.old ++ lengths.now) [] (RangeRuns (E.test code.old) (E.steps code.old) at.old lengths.now column range.least range.greatest)) }
    ensures kept { IsKept b.old b.new }
    ensures same { (E.test code.new ≡ E.test code.old) × (E.steps code.new ≡ E.steps code.old) × (E.given code.new ≡ E.given code.old) × (E.depth code.new ≡ E.depth code.old) }
{
    match lengths {
        [length, _, ..] => {
            let i = b.begin_loop()?;
            at.push(i)?;
            range_nest(alloc, b, at, &lengths[1..], column, range, code)?;
            b.end_loop(alloc, i, *length)
        }
        _ => range_one(alloc, b, at, column, range, code),
    }
}

/// A range that holds 0 alone.
fn zero_range(b: &mut Builder) -> Result<Range, AllocError>
    ensures names { IfOk result (λ range. (range.least ≡ Int.Local b.old.ints) × (range.greatest ≡ Int.Local (b.old.ints + 1))) }
    ensures code { OnOk result (b.new ≡ record b.old { inner = b.old.inner ++ zero_stmts (Int.Local b.old.ints) (Int.Local (b.old.ints + 1)); ints = b.old.ints + 2 }) }
    ensures kept { IsKept b.old b.new }
{
    let least = b.fresh_int()?;
    b.emit(CStmt::Set(least, CExpr::Lit(0)))?;
    let greatest = b.fresh_int()?;
    b.emit(CStmt::Set(greatest, CExpr::Lit(0)))?;
    Ok(Range { least, greatest })
}

/// The wider one of the texts of the two numbers, as the width of a column.
fn width_code(
    alloc: Global,
    b: &mut Builder,
    range: Range,
    widths: Buf,
    column: Int,
) -> Result<(), AllocError>
    ensures code { OnOk result (b.new ≡ with_widths range.least range.greatest widths column b.old) }
    ensures kept { IsKept b.old b.new }
{
    let width = b.fresh_int()?;
    b.emit(CStmt::Width(width, CExpr::Var(range.greatest)))?;
    let other = b.fresh_int()?;
    b.emit(CStmt::Width(other, CExpr::Var(range.least)))?;
    set_if_less(alloc, b, width, other, width, other)?;
    b.emit(CStmt::SetCell(widths, CExpr::Var(column), CExpr::Var(width)))
}

/// Sets the cell of a column to its width: the greatest over all axes but the last.
fn column_code<E: ElementCode>(
    alloc: Global,
    b: &mut Builder,
    lengths: &[Int],
    column: Int,
    widths: Buf,
    code: &mut E,
) -> Result<(), AllocError>
    requires given { AreGiven (E.given code.old) b.old }
    requires ranked { 1 ≤ length lengths.now }
    requires lengths { AreOld b.old.ints lengths.now }
    requires column { IsOld b.old.ints column }
    requires widths { IsOldBuf b.old.bufs widths }
    ensures ok { OnOk result (Adds (E.given code.old) (E.depth code.old + length lengths.now) b.old b.new (column ∷ lengths.now) (widths ∷ []) (ColumnRuns (E.test code.old) (E.steps code.old) lengths.now column widths)) }
    ensures kept { IsKept b.old b.new }
    ensures same { (E.test code.new ≡ E.test code.old) × (E.steps code.new ≡ E.steps code.old) × (E.given code.new ≡ E.given code.old) × (E.depth code.new ≡ E.depth code.old) }
{
    let range = zero_range(b)?;
    let mut at = Items::new(alloc);
    range_nest(alloc, b, &mut at, lengths, column, range, code)?;
    width_code(alloc, b, range, widths, column)
}

/// Adds code that sets the cells of `widths`, of which there are as many as the last axis is long, to the widths of the
/// columns.
pub fn widths_code<E: ElementCode>(
    alloc: Global,
    b: &mut Builder,
    lengths: &[Int],
    last: Int,
    widths: Buf,
    code: &mut E,
) -> Result<(), AllocError>
    requires given { AreGiven (E.given code.old) b.old }
    requires ranked { 1 ≤ length lengths.now }
    requires last { last ≡ slice_index_or lengths.now (length lengths.now - 1) (Int.Local 0) }
    requires lengths { AreOld b.old.ints lengths.now }
    requires widths { IsOldBuf b.old.bufs widths }
    ensures ok { OnOk result (Adds (E.given code.old) (1 + E.depth code.old + length lengths.now) b.old b.new lengths.now (widths ∷ []) (WidthsRun (E.test code.old) (E.steps code.old) (E.given code.old) lengths.now widths)) }
    ensures kept { IsKept b.old b.new }
    ensures same { (E.test code.new ≡ E.test code.old) × (E.steps code.new ≡ E.steps code.old) × (E.given code.new ≡ E.given code.old) × (E.depth code.new ≡ E.depth code.old) }
{
    let column = b.begin_loop()?;
    column_code(alloc, b, lengths, column, widths, code)?;
    b.end_loop(alloc, column, last)
}
