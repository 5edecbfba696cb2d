//! Elements in a buffer of their own.
//! It must not know what the elements are.

ghost use Rattle.std.specs.Prelude.{◌≡◌, IfOk};
ghost use Rattle.aplc_cprof.specs.Blocks.{IsKept};
ghost use Rattle.aplc_cprof.specs.Frames.{AreGiven, AreOld};
ghost use Rattle.aplc_stage.specs.Pieces.{Gathers};

use crate::counting::count_code;
use crate::staged::Staged;
use aplc_collect::ElementCode;
use aplc_cprof::{Builder, CExpr, CStmt, Int, List};
use aplc_fill::fill;
use aplc_step::Origin;
use std::alloc::{AllocError, Global};

/// Adds code that puts the elements of an array of these lengths into a buffer of their own.
pub fn gather<E: ElementCode>(
    alloc: Global,
    b: &mut Builder,
    lengths: List<Int>,
    code: &mut E,
) -> Result<Staged, AllocError>
    requires given { AreGiven (E.given code.old) b.old }
    requires lengths { AreOld b.old.ints lengths }
    ensures ok { IfOk result (λ x. Gathers (E.test code.old) (E.steps code.old) (E.given code.old) (E.depth code.old) b.old b.new lengths x) }
    ensures kept { IsKept b.old b.new }
{
    let count = count_code(alloc, b, lengths.as_slice())?;
    let p = b.fresh_buf()?;
    b.emit(CStmt::Cells(p, CExpr::Var(count)))?;
    fill(alloc, b, lengths.as_slice(), code, p)?;
    Ok(Staged::Cells(Origin::Buffer(p), lengths))
}
