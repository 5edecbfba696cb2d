//! The place of an element.
//! It must not know which cells stand there.

ghost use Rattle.std.specs.Prelude.{◌≡◌, IfOk};
ghost use Rattle.aplc_step.specs.Steppers.{address_expr};

use aplc_cprof::{CExpr, Int, Op, binary, on_values};
use std::alloc::{AllocError, Global};

/// The base and each stride times its index.
#[tactic(auto, using(crate::proofs::Accesses::one_term))]
pub fn place(alloc: Global, base: Int, strides: &[Int], at: &[Int]) -> Result<CExpr, AllocError>
    ensures { IfOk result (λ e. e ≡ address_expr (CExpr.Var base) strides.now at.now) }
{
    let mut sum = CExpr::Var(base);
    let mut axis = 0;
    while axis < strides.len() && axis < at.len() {
        let term = on_values(alloc, Op::Mul, at[axis], strides[axis])?;
        sum = binary(alloc, Op::Add, sum, term)?;
        axis += 1;
    }
    Ok(sum)
}
