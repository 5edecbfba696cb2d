//! A variable of its own for a value.
//! It must not know what the value is for.

ghost use Rattle.std.specs.Prelude.{◌≡◌, IfOk, OnOk};
ghost use Rattle.aplc_cprof.specs.Blocks.{IsKept};
ghost use Rattle.aplc_step.specs.Wholes.{with_set};

use aplc_cprof::{Builder, CExpr, CStmt, Int};
use std::alloc::AllocError;

/// Adds a statement that sets a fresh variable to the value.
pub fn set_fresh(b: &mut Builder, value: CExpr) -> Result<Int, AllocError>
    ensures name { IfOk result (λ v. v ≡ Int.Local b.old.ints) }
    ensures set { OnOk result (b.new ≡ with_set value b.old) }
    ensures kept { IsKept b.old b.new }
{
    let v = b.fresh_int()?;
    b.emit(CStmt::Set(v, value))?;
    Ok(v)
}
