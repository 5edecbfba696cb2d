//! Code that prints arrays of rank 2 or more.
//! It must not know how an element is printed, nor what makes the elements.

ghost use Rattle.std.specs.Prelude.{◌≡◌, ◌+◌, ◌≤◌, ◌++◌, ◌∷◌, [], OnOk, IfOk, length};
ghost use Rattle.aplc_cprof.specs.Blocks.{IsKept};
ghost use Rattle.aplc_cprof.specs.Frames.{AreGiven, AreOld};
ghost use Rattle.aplc_quad.specs.Printed.{bufs_of, AreOldColumns, Adds, PlanesPut};
ghost use Rattle.aplc_quad.specs.Shows.{some_element, CharactersShow};

use crate::planes::nest_code;
use crate::printing::Columns;
use aplc_collect::ElementCode;
use aplc_cprof::{Builder, CExpr, CStmt, Int, Op, binary};
use sqlite_items::Items;
use std::alloc::{AllocError, Global};

/// Whether none of the variables holds 0.
pub fn some_element(alloc: Global, lengths: &[Int]) -> Result<CExpr, AllocError>
    ensures { IfOk result (λ e. e ≡ some_element lengths.now) }
{
    let mut all = CExpr::Lit(1);
    for index in (0..lengths.len()).rev() {
        let first = binary(
            alloc,
            Op::Greater,
            CExpr::Var(lengths[index]),
            CExpr::Lit(0),
        )?;
        all = binary(alloc, Op::And, first, all)?;
    }
    Ok(all)
}

/// All planes, of which there is one at least.
pub fn planes_code<E: ElementCode>(
    alloc: Global,
    b: &mut Builder,
    lengths: &[Int],
    columns: Columns,
    code: &mut E,
) -> Result<(), AllocError>
    requires given { AreGiven (E.given code.old) b.old }
    requires ranked { 2 ≤ length lengths.now }
    requires lengths { AreOld b.old.ints lengths.now }
    requires columns { AreOldColumns b.old.bufs columns }
    ensures ok { OnOk result (Adds (E.given code.old) (2 + E.depth code.old + length lengths.now) b.old b.new lengths.now (bufs_of columns) (PlanesPut (E.test code.old) (E.steps code.old) lengths.now columns)) }
    ensures kept { IsKept b.old b.new }
    ensures same { (E.test code.new ≡ E.test code.old) × (E.steps code.new ≡ E.steps code.old) × (E.given code.new ≡ E.given code.old) × (E.depth code.new ≡ E.depth code.old) }
{
    let started = b.fresh_int()?;
    b.emit(CStmt::Set(started, CExpr::Lit(0)))?;
    let mut at = Items::new(alloc);
    nest_code(alloc, b, &mut at, lengths, started, columns, code)
}

/// Adds code that prints the array of characters of these lengths, two at least, for which `code` stands, none of whose
/// elements faults.
pub fn characters_code<E: ElementCode>(
    alloc: Global,
    b: &mut Builder,
    lengths: &[Int],
    code: &mut E,
) -> Result<(), AllocError>
    requires given { AreGiven (E.given code.old) b.old }
    requires ranked { 2 ≤ length lengths.now }
    requires lengths { AreOld b.old.ints lengths.now }
    ensures ok { OnOk result (Adds (E.given code.old) (3 + E.depth code.old + length lengths.now) b.old b.new lengths.now [] (CharactersShow (E.test code.old) (E.steps code.old) lengths.now)) }
    ensures kept { IsKept b.old b.new }
    ensures same { (E.test code.new ≡ E.test code.old) × (E.steps code.new ≡ E.steps code.old) × (E.given code.new ≡ E.given code.old) × (E.depth code.new ≡ E.depth code.old) }
{
    let some = some_element(alloc, lengths)?;
    b.open()?;
    planes_code(alloc, b, lengths, Columns::Characters, code)?;
    let planes = b.close();
    b.emit(CStmt::If(some, planes, None))
}
