//! Code of scalar functions of one argument.
//! It must not know where the argument comes from.

ghost use Rattle.std.specs.Prelude.{◌≡◌, IfOk, IsTrue};
ghost use Rattle.aplc_scalar.specs.Scalar.{monadic, is_monadic};
ghost use Rattle.aplc_cprof.specs.Blocks.{IsKept};
ghost use Rattle.aplc_collect.specs.Scalars.{EmitsMono, mono_steps, mono_depth, minus, sign_of, magnitude_stmt, not_stmt, mono_stmt};

use crate::blocks::{fault_block, set_block};
use crate::guards::{below_zero, is_bit};
use aplc_cprof::{Builder, CExpr, CStmt, Int, Op, binary};
use aplc_scalar::{FaultKind, ScalarFn};
use std::alloc::{AllocError, Global};

fn minus(alloc: Global, x: Int) -> Result<CExpr, AllocError>
    ensures { IfOk result (λ e. e ≡ minus x) }
{
    binary(alloc, Op::Sub, CExpr::Lit(0), CExpr::Var(x))
}

/// 1 above 0 and -1 below it, by two comparisons.
fn sign(alloc: Global, x: Int) -> Result<CExpr, AllocError>
    ensures { IfOk result (λ e. e ≡ sign_of x) }
{
    let above = binary(alloc, Op::Less, CExpr::Lit(0), CExpr::Var(x))?;
    let below = below_zero(alloc, x)?;
    binary(alloc, Op::Sub, above, below)
}

fn magnitude(alloc: Global, v: Int, a: Int) -> Result<CStmt, AllocError>
    ensures { IfOk result (λ s. s ≡ magnitude_stmt v a) }
{
    let negated = minus(alloc, a)?;
    let below = set_block(alloc, v, negated)?;
    let other = set_block(alloc, v, CExpr::Var(a))?;
    let test = below_zero(alloc, a)?;
    Ok(CStmt::If(test, below, Some(other)))
}

fn not(alloc: Global, v: Int, a: Int) -> Result<CStmt, AllocError>
    ensures { IfOk result (λ s. s ≡ not_stmt v a) }
{
    let value = binary(alloc, Op::Sub, CExpr::Lit(1), CExpr::Var(a))?;
    let bit = set_block(alloc, v, value)?;
    let other = fault_block(alloc, FaultKind::Domain)?;
    let test = is_bit(alloc, a)?;
    Ok(CStmt::If(test, bit, Some(other)))
}

fn statement(alloc: Global, f: ScalarFn, v: Int, a: Int) -> Result<CStmt, AllocError>
    ensures { IfOk result (λ s. s ≡ mono_stmt f v a) }
{
    match f {
        ScalarFn::Sub => Ok(CStmt::Set(v, minus(alloc, a)?)),
        ScalarFn::Mul => Ok(CStmt::Set(v, sign(alloc, a)?)),
        ScalarFn::Residue => magnitude(alloc, v, a),
        ScalarFn::Not => not(alloc, v, a),
        _ => Ok(CStmt::Set(v, CExpr::Var(a))),
    }
}

/// Adds code that sets a fresh variable to what `mono` gives for the number in `a`, or that faults with its kind.
pub fn mono_code(alloc: Global, b: &mut Builder, f: ScalarFn, a: Int) -> Result<Int, AllocError>
    requires { IsTrue (is_monadic f) }
    ensures emits { IfOk result (λ v. EmitsMono (monadic f) mono_steps mono_depth b.old b.new a v) }
    ensures kept { IsKept b.old b.new }
{
    let v = b.fresh_int()?;
    let code = statement(alloc, f, v, a)?;
    b.emit(code)?;
    Ok(v)
}
