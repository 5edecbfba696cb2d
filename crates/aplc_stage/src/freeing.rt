//! The end of a value: its buffer is freed.
//! It must not know what it was for.

ghost use Rattle.std.specs.Prelude.{◌≡◌, OnOk};
ghost use Rattle.aplc_cprof.specs.Blocks.{IsKept};
ghost use Rattle.aplc_cprof.specs.Frames.{AreGiven};
ghost use Rattle.aplc_stage.specs.Staged.{IsRanked, scope_of_staged};
ghost use Rattle.aplc_stage.specs.Computes.{Frees};

use crate::staged::Staged;
use aplc_cprof::{Builder, CStmt};
use aplc_step::Origin;
use std::alloc::AllocError;

/// Adds code that frees the buffer of a value. A number in a variable and a table have none.
pub fn free_staged(b: &mut Builder, value: &Staged) -> Result<(), AllocError>
    requires ranked { IsRanked value.now }
    requires given { AreGiven (scope_of_staged value.now) b.old }
    ensures frees { OnOk result (Frees (scope_of_staged value.now) b.old b.new value.now) }
    ensures kept { IsKept b.old b.new }
{
    match value {
        Staged::Scalar(_) => Ok(()),
        Staged::Cells(from, _) => match from {
            Origin::Buffer(p) => b.emit(CStmt::Free(*p)),
            Origin::Table(_) => Ok(()),
        },
    }
}
