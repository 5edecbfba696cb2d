//! Tests of numbers in variables.
//! They must not know what hangs on them.

ghost use Rattle.std.specs.Prelude.{◌≡◌, IfOk};
ghost use Rattle.aplc_collect.specs.Scalars.{within, both_within, small, is_bit, both_bits, below_zero, other_sign};

use aplc_cprof::{CExpr, Checked, Int, Op, binary};
use std::alloc::{AllocError, Global};

/// Whether a variable is small enough for arithmetic that is not checked.
fn within(alloc: Global, o: Checked, x: Int) -> Result<CExpr, AllocError>
    ensures { IfOk result (λ e. e ≡ within (small o) x) }
{
    let bound = match o {
        Checked::Mul => 2147483648,
        _ => 4611686018427387904,
    };
    let below = binary(alloc, Op::Less, CExpr::Var(x), CExpr::Lit(bound))?;
    let least = binary(alloc, Op::Sub, CExpr::Lit(0), CExpr::Lit(bound))?;
    let above = binary(alloc, Op::Greater, CExpr::Var(x), least)?;
    binary(alloc, Op::And, below, above)
}

/// Whether both variables are.
pub(crate) fn both_within(alloc: Global, o: Checked, x: Int, y: Int) -> Result<CExpr, AllocError>
    ensures { IfOk result (λ e. e ≡ both_within (small o) x y) }
{
    let left = within(alloc, o, x)?;
    let right = within(alloc, o, y)?;
    binary(alloc, Op::And, left, right)
}

/// Whether a variable holds 0 or 1.
pub(crate) fn is_bit(alloc: Global, x: Int) -> Result<CExpr, AllocError>
    ensures { IfOk result (λ e. e ≡ is_bit x) }
{
    let zero = binary(alloc, Op::Equal, CExpr::Var(x), CExpr::Lit(0))?;
    let one = binary(alloc, Op::Equal, CExpr::Var(x), CExpr::Lit(1))?;
    binary(alloc, Op::Or, zero, one)
}

/// Whether both variables do.
pub(crate) fn both_bits(alloc: Global, x: Int, y: Int) -> Result<CExpr, AllocError>
    ensures { IfOk result (λ e. e ≡ both_bits x y) }
{
    let left = is_bit(alloc, x)?;
    let right = is_bit(alloc, y)?;
    binary(alloc, Op::And, left, right)
}

/// Whether a variable is below 0.
pub(crate) fn below_zero(alloc: Global, x: Int) -> Result<CExpr, AllocError>
    ensures { IfOk result (λ e. e ≡ below_zero x) }
{
    binary(alloc, Op::Less, CExpr::Var(x), CExpr::Lit(0))
}

/// Whether a remainder is not 0 and has another sign than the divisor.
pub(crate) fn other_sign(alloc: Global, v: Int, divisor: Int) -> Result<CExpr, AllocError>
    ensures { IfOk result (λ e. e ≡ other_sign v divisor) }
{
    let some = binary(alloc, Op::NotEqual, CExpr::Var(v), CExpr::Lit(0))?;
    let of_value = below_zero(alloc, v)?;
    let of_divisor = below_zero(alloc, divisor)?;
    let other = binary(alloc, Op::NotEqual, of_value, of_divisor)?;
    binary(alloc, Op::And, some, other)
}
