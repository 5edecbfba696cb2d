//! The test whether an array has elements.
//! It must not know what is done with them.

ghost use Rattle.std.specs.Prelude.{◌≡◌, IfOk};
ghost use Rattle.aplc_fill.specs.Nests.{some_element};

use aplc_cprof::{CExpr, Int, Op, binary};
use std::alloc::{AllocError, Global};

/// Whether none of the variables holds 0.
pub fn some_element(alloc: Global, lengths: &[Int]) -> Result<CExpr, AllocError>
    ensures { IfOk result (λ e. e ≡ some_element lengths.now) }
{
    let mut all = CExpr::Lit(1);
    for index in (0..lengths.len()).rev() {
        let first = binary(
            alloc,
            Op::Greater,
            CExpr::Var(lengths[index]),
            CExpr::Lit(0),
        )?;
        all = binary(alloc, Op::And, first, all)?;
    }
    Ok(all)
}
