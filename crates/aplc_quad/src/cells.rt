//! Code that prints rows and lines.
//! It must not know how an element is printed, nor what makes the elements.

ghost use Rattle.std.specs.Prelude.{◌≡◌, ◌+◌, ◌++◌, ◌∷◌, [], OnOk};
ghost use Rattle.aplc_cprof.specs.Blocks.{IsKept};
ghost use Rattle.aplc_cprof.specs.Frames.{AreGiven, AreOld, IsOld};
ghost use Rattle.aplc_quad.specs.Printing.{line_feed, with_code};
ghost use Rattle.aplc_quad.specs.Printed.{bufs_of, AreOldColumns, Adds, CellPuts, RowPuts, LinePuts};

use crate::printing::{Columns, element_code, gap_code};
use aplc_collect::ElementCode;
use aplc_cprof::{Builder, CExpr, CStmt, Int};
use sqlite_items::Items;
use std::alloc::{AllocError, Global};

/// Adds code that ends a line.
pub fn line_feed(b: &mut Builder) -> Result<(), AllocError>
    ensures code { OnOk result (b.new ≡ with_code (line_feed ∷ []) b.old) }
    ensures kept { IsKept b.old b.new }
{
    b.emit(CStmt::PutChar(CExpr::Lit(10)))
}

/// One element, behind what parts it from those before it.
fn cell_code<E: ElementCode>(
    alloc: Global,
    b: &mut Builder,
    at: &mut Items<Int>,
    column: Int,
    columns: Columns,
    code: &mut E,
) -> Result<(), AllocError>
    requires given { AreGiven (E.given code.old) b.old }
    requires at { AreOld b.old.ints at.old }
    requires column { IsOld b.old.ints column }
    requires columns { AreOldColumns b.old.bufs columns }
    ensures ok { OnOk result (Adds (E.given code.old) (2 + E.depth code.old) b.old b.new (at.old ++ column ∷ []) (bufs_of columns) (CellPuts (E.test code.old) (E.steps code.old) at.old column columns)) }
    ensures kept { IsKept b.old b.new }
    ensures same { (E.test code.new ≡ E.test code.old) × (E.steps code.new ≡ E.steps code.old) × (E.given code.new ≡ E.given code.old) × (E.depth code.new ≡ E.depth code.old) }
{
    gap_code(alloc, b, columns, column)?;
    at.push(column)?;
    let v = code.emit(alloc, b, at.as_slice())?;
    element_code(alloc, b, columns, column, v)
}

/// The elements along the last axis.
fn row_code<E: ElementCode>(
    alloc: Global,
    b: &mut Builder,
    at: &mut Items<Int>,
    length: Int,
    columns: Columns,
    code: &mut E,
) -> Result<(), AllocError>
    requires given { AreGiven (E.given code.old) b.old }
    requires at { AreOld b.old.ints at.old }
    requires length { IsOld b.old.ints length }
    requires columns { AreOldColumns b.old.bufs columns }
    ensures ok { OnOk result (Adds (E.given code.old) (3 + E.depth code.old) b.old b.new (at.old ++ length ∷ []) (bufs_of columns) (RowPuts (E.test code.old) (E.steps code.old) at.old length columns)) }
    ensures kept { IsKept b.old b.new }
    ensures same { (E.test code.new ≡ E.test code.old) × (E.steps code.new ≡ E.steps code.old) × (E.given code.new ≡ E.given code.old) × (E.depth code.new ≡ E.depth code.old) }
{
    let column = b.begin_loop()?;
    cell_code(alloc, b, at, column, columns, code)?;
    b.end_loop(alloc, column, length)
}

/// The elements along the last axis, and the end of the line.
pub fn row_line<E: ElementCode>(
    alloc: Global,
    b: &mut Builder,
    at: &mut Items<Int>,
    length: Int,
    columns: Columns,
    code: &mut E,
) -> Result<(), AllocError>
    requires given { AreGiven (E.given code.old) b.old }
    requires at { AreOld b.old.ints at.old }
    requires length { IsOld b.old.ints length }
    requires columns { AreOldColumns b.old.bufs columns }
    ensures ok { OnOk result (Adds (E.given code.old) (3 + E.depth code.old) b.old b.new (at.old ++ length ∷ []) (bufs_of columns) (LinePuts (E.test code.old) (E.steps code.old) at.old length columns)) }
    ensures kept { IsKept b.old b.new }
    ensures same { (E.test code.new ≡ E.test code.old) × (E.steps code.new ≡ E.steps code.old) × (E.given code.new ≡ E.given code.old) × (E.depth code.new ≡ E.depth code.old) }
{
    row_code(alloc, b, at, length, columns, code)?;
    line_feed(b)
}
