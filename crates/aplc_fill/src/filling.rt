//! Loops that fill a buffer.
//! They must not know what the elements are, nor what is done with the buffer.

ghost use Rattle.std.specs.Prelude.{◌≡◌, OnOk, []};
ghost use Rattle.aplc_cprof.specs.Blocks.{IsKept};
ghost use Rattle.aplc_cprof.specs.Frames.{AreGiven, AreOld, AreOldBut, IsFresh, IsOldBuf, number};
ghost use Rattle.aplc_fill.specs.Fills.{Fills};
ghost use Rattle.aplc_fill.specs.Nests.{FillsNest};

use crate::expressions::some_element;
use aplc_collect::ElementCode;
use aplc_cprof::{Buf, Builder, CExpr, CStmt, Int, plus_one};
use sqlite_items::Items;
use std::alloc::{AllocError, Global};

/// One element, written at the place, which goes on by one.
fn fill_one<E: ElementCode>(
    alloc: Global,
    b: &mut Builder,
    at: &[Int],
    code: &mut E,
    into: Buf,
    place: Int,
) -> Result<(), AllocError>
    requires given { AreGiven (E.given code.old) b.old }
    requires place { IsFresh (E.given code.old).ints b.old.ints place }
    requires at { AreOldBut b.old.ints (number place) at.now }
    requires into { IsOldBuf b.old.bufs into }
    ensures ok { OnOk result (FillsNest (E.test code.old) (E.steps code.old) (E.given code.old) (E.depth code.old) b.old b.new at.now [] into (number place)) }
    ensures kept { IsKept b.old b.new }
    ensures same { (E.test code.new ≡ E.test code.old) × (E.steps code.new ≡ E.steps code.old) × (E.given code.new ≡ E.given code.old) × (E.depth code.new ≡ E.depth code.old) }
{
    let v = code.emit(alloc, b, at)?;
    b.emit(CStmt::SetCell(into, CExpr::Var(place), CExpr::Var(v)))?;
    let next = plus_one(alloc, place)?;
    b.emit(CStmt::Set(place, next))
}

/// A loop for each axis that is left, and in the innermost one the element.
fn fill_nest<E: ElementCode>(
    alloc: Global,
    b: &mut Builder,
    at: &mut Items<Int>,
    lengths: &[Int],
    code: &mut E,
    into: Buf,
    place: Int,
) -> Result<(), AllocError>
    requires given { AreGiven (E.given code.old) b.old }
    requires place { IsFresh (E.given code.old).ints b.old.ints place }
    requires at { AreOldBut b.old.ints (number place) at.old }
    requires lengths { AreOldBut b.old.ints (number place) lengths.now }
    requires into { IsOldBuf b.old.bufs into }
    ensures ok { OnOk result (FillsNest (E.test code.old) (E.steps code.old) (E.given code.old) (E.depth code.old) b.old b.new at.old lengths.now into (number place)) }
    ensures kept { IsKept b.old b.new }
    ensures same { (E.test code.new ≡ E.test code.old) × (E.steps code.new ≡ E.steps code.old) × (E.given code.new ≡ E.given code.old) × (E.depth code.new ≡ E.depth code.old) }
{
    match lengths {
        [] => fill_one(alloc, b, at.as_slice(), code, into, place),
        [length, rest @ ..] => {
            let i = b.begin_loop()?;
            at.push(i)?;
            fill_nest(alloc, b, at, rest, code, into, place)?;
            b.end_loop(alloc, i, *length)
        }
    }
}

/// Adds code that writes the elements of an array of these lengths to the first cells of `into`, in row-major order.
/// It ends with the fault of the first element that has one. It nests by the rank, and counts the place up.
pub fn fill<E: ElementCode>(
    alloc: Global,
    b: &mut Builder,
    lengths: &[Int],
    code: &mut E,
    into: Buf,
) -> Result<(), AllocError>
    requires given { AreGiven (E.given code.old) b.old }
    requires lengths { AreOld b.old.ints lengths.now }
    requires into { IsOldBuf b.old.bufs into }
    ensures ok { OnOk result (Fills (E.test code.old) (E.steps code.old) (E.given code.old) (E.depth code.old) b.old b.new lengths.now into) }
    ensures kept { IsKept b.old b.new }
    ensures same { (E.test code.new ≡ E.test code.old) × (E.steps code.new ≡ E.steps code.old) × (E.given code.new ≡ E.given code.old) × (E.depth code.new ≡ E.depth code.old) }
{
    let place = b.fresh_int()?;
    b.emit(CStmt::Set(place, CExpr::Lit(0)))?;
    let some = some_element(alloc, lengths)?;
    b.open()?;
    let mut at = Items::new(alloc);
    fill_nest(alloc, b, &mut at, lengths, code, into, place)?;
    let nest = b.close();
    b.emit(CStmt::If(some, nest, None))
}
