//! What the programs have in common: their names, and how they read and write.
//! It must not know what they compute.

ghost use Rattle.std.specs.Prelude.{◌≡◌, OnOk};

use aplc_cprof::{Buf, Builder, CExpr, CFunction, CProgram, CStmt, Int, List};
use sqlite_items::Boxed;
use std::alloc::{AllocError, Global};

/// The arguments of one place, of which a scalar has the first.
pub(crate) const LEFT: Int = Int::Global(0);

pub(crate) const RIGHT: Int = Int::Global(1);

/// How many elements there are.
pub(crate) const COUNT: Int = Int::Global(2);

/// The lengths of an array come behind these.
const NAMES: u32 = 11;

/// The numbers that were read, and those that are made.
pub(crate) const LEFTS: Buf = Buf::Global(0);

pub(crate) const RIGHTS: Buf = Buf::Global(1);

pub(crate) const MADE: Buf = Buf::Global(2);

/// The program of one function, with the names above.
pub(crate) fn program_of(alloc: Global, function: CFunction) -> Result<CProgram, AllocError> {
    let mut functions = Vec::new(alloc);
    functions.push(function)?;
    Ok(CProgram {
        tables: List::from_vec(Vec::new(alloc)),
        ints: NAMES,
        bufs: 3,
        functions: List::from_vec(functions),
    })
}

/// Sets a variable to a cell.
pub(crate) fn take(
    alloc: Global,
    b: &mut Builder,
    x: Int,
    from: Buf,
    place: Int,
) -> Result<(), AllocError>
    ensures { OnOk result (b.new.outer ≡ b.old.outer) }
{
    let place = Boxed::new(alloc, CExpr::Var(place))?;
    b.emit(CStmt::Set(x, CExpr::Cell(from, place)))
}

/// Writes the number in a variable, and the end of the line.
pub(crate) fn put_line(b: &mut Builder, x: Int) -> Result<(), AllocError>
    ensures { OnOk result (b.new.outer ≡ b.old.outer) }
{
    b.emit(CStmt::PutNum(CExpr::Var(x), CExpr::Lit(0)))?;
    b.emit(CStmt::PutChar(CExpr::Lit(10)))
}
