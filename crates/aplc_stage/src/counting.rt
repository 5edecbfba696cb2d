//! The number of elements of an array.
//! It must not know which array it is.

ghost use Rattle.std.specs.Prelude.{◌≡◌, IfOk, OnOk};
ghost use Rattle.aplc_cprof.specs.Blocks.{IsKept};
ghost use Rattle.aplc_cprof.specs.Frames.{AreOld};
ghost use Rattle.aplc_stage.specs.Pieces.{product_expr, count_stmt, Counts};

use aplc_cprof::{Builder, CExpr, CStmt, Int, Op, binary};
use aplc_step::some_element;
use sqlite_items::Items;
use std::alloc::{AllocError, Global};

fn product(alloc: Global, lengths: &[Int]) -> Result<CExpr, AllocError>
    ensures { IfOk result (λ e. e ≡ product_expr lengths.now) }
{
    let mut all = CExpr::Lit(1);
    for index in (0..lengths.len()).rev() {
        all = binary(alloc, Op::Mul, CExpr::Var(lengths[index]), all)?;
    }
    Ok(all)
}

/// The product of the lengths where there are elements: else it might leave the range on the way.
fn count_statement(alloc: Global, v: Int, lengths: &[Int]) -> Result<CStmt, AllocError>
    ensures { IfOk result (λ s. s ≡ count_stmt v lengths.now) }
{
    let some = some_element(alloc, lengths)?;
    let all = product(alloc, lengths)?;
    let mut code = Items::new(alloc);
    code.push(CStmt::Set(v, all))?;
    Ok(CStmt::If(some, code, None))
}

/// A variable with the number of elements of an array of these lengths: that of a vector is its length.
pub fn count_code(alloc: Global, b: &mut Builder, lengths: &[Int]) -> Result<Int, AllocError>
    requires lengths { AreOld b.old.ints lengths.now }
    ensures ok { IfOk result (λ v. Counts b.old b.new lengths.now v) }
    ensures kept { IsKept b.old b.new }
{
    if lengths.len() == 1 {
        return Ok(lengths[0]);
    }
    let v = b.fresh_int()?;
    b.emit(CStmt::Set(v, CExpr::Lit(0)))?;
    let counted = count_statement(alloc, v, lengths)?;
    b.emit(counted)?;
    Ok(v)
}
