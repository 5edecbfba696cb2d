//! Code that prints arrays of every kind and rank.
//! It must not know how a row is printed, nor what makes the elements.

ghost use Rattle.std.specs.Prelude.{◌≡◌, ◌+◌, ◌≤◌, [], OnOk, length};
ghost use Rattle.aplc_cprof.specs.Blocks.{IsKept};
ghost use Rattle.aplc_cprof.specs.Frames.{AreGiven, AreOld};
ghost use Rattle.aplc_quad.specs.Printed.{Adds};
ghost use Rattle.aplc_quad.specs.Shows.{MatrixShows, NumbersShow, Shows};

use crate::matrices::{characters_code, planes_code, some_element};
use crate::printing::Columns;
use crate::ranging::widths_code;
use crate::showing::line_code;
use aplc_collect::ElementCode;
use aplc_cprof::{Builder, CExpr, CStmt, Int};
use aplc_scalar::Kind;
use std::alloc::{AllocError, Global};

/// All planes of numbers, of which there is one at least: a buffer holds the widths of the columns, and is freed.
fn matrix_code<E: ElementCode>(
    alloc: Global,
    b: &mut Builder,
    lengths: &[Int],
    code: &mut E,
) -> Result<(), AllocError>
    requires given { AreGiven (E.given code.old) b.old }
    requires ranked { 2 ≤ length lengths.now }
    requires lengths { AreOld b.old.ints lengths.now }
    ensures ok { OnOk result (Adds (E.given code.old) (2 + E.depth code.old + length lengths.now) b.old b.new lengths.now [] (MatrixShows (E.test code.old) (E.steps code.old) (E.given code.old) lengths.now)) }
    ensures kept { IsKept b.old b.new }
    ensures same { (E.test code.new ≡ E.test code.old) × (E.steps code.new ≡ E.steps code.old) × (E.given code.new ≡ E.given code.old) × (E.depth code.new ≡ E.depth code.old) }
{
    let last = lengths[lengths.len() - 1];
    let widths = b.fresh_buf()?;
    b.emit(CStmt::Cells(widths, CExpr::Var(last)))?;
    widths_code(alloc, b, lengths, last, widths, code)?;
    planes_code(alloc, b, lengths, Columns::Justified(widths), code)?;
    b.emit(CStmt::Free(widths))
}

/// Adds code that prints the array of numbers of these lengths, two at least, for which `code` stands, none of whose
/// elements faults.
fn numbers_code<E: ElementCode>(
    alloc: Global,
    b: &mut Builder,
    lengths: &[Int],
    code: &mut E,
) -> Result<(), AllocError>
    requires given { AreGiven (E.given code.old) b.old }
    requires ranked { 2 ≤ length lengths.now }
    requires lengths { AreOld b.old.ints lengths.now }
    ensures ok { OnOk result (Adds (E.given code.old) (3 + E.depth code.old + length lengths.now) b.old b.new lengths.now [] (NumbersShow (E.test code.old) (E.steps code.old) (E.given code.old) lengths.now)) }
    ensures kept { IsKept b.old b.new }
    ensures same { (E.test code.new ≡ E.test code.old) × (E.steps code.new ≡ E.steps code.old) × (E.given code.new ≡ E.given code.old) × (E.depth code.new ≡ E.depth code.old) }
{
    let some = some_element(alloc, lengths)?;
    b.open()?;
    matrix_code(alloc, b, lengths, code)?;
    let matrix = b.close();
    b.emit(CStmt::If(some, matrix, None))
}

/// Adds code that prints the array of this kind for which `code` stands, with the text that `show` gives. The variables
/// hold its lengths, and none of its elements faults. The code nests by the rank and three more; for numbers of two axes
/// or more it holds a buffer of as many cells as the last axis is long, and frees it.
pub fn show_code<E: ElementCode>(
    alloc: Global,
    b: &mut Builder,
    kind: Kind,
    lengths: &[Int],
    code: &mut E,
) -> Result<(), AllocError>
    requires given { AreGiven (E.given code.old) b.old }
    requires lengths { AreOld b.old.ints lengths.now }
    ensures shows { OnOk result (Shows (E.test code.old) (E.steps code.old) (E.given code.old) (E.depth code.old) b.old b.new kind lengths.now) }
    ensures kept { IsKept b.old b.new }
    ensures same { (E.test code.new ≡ E.test code.old) × (E.steps code.new ≡ E.steps code.old) × (E.given code.new ≡ E.given code.old) × (E.depth code.new ≡ E.depth code.old) }
{
    if lengths.len() < 2 {
        return line_code(alloc, b, kind, lengths, code);
    }
    match kind {
        Kind::Char => characters_code(alloc, b, lengths, code),
        Kind::Num => numbers_code(alloc, b, lengths, code),
    }
}
