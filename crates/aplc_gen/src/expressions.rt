//! Small parts of code.
//! They must not know functions.

ghost use Rattle.std.specs.Prelude.{◌≡◌, ◌∷◌, ◌≤◌, [], IfOk, OnOk, pos, length};
ghost use Rattle.aplc_scalar.specs.Scalar.{IsInRange};
ghost use Rattle.aplc_gen.specs.Built.{number_of};
ghost use Rattle.aplc_gen.specs.Emitted.{literal_expr, guard, flag_code};
ghost use Rattle.aplc_gen.specs.Writing.{added};

use aplc_cprof::{Builder, CExpr, CStmt, Int, Op, binary};
use aplc_scalar::FaultKind;
use sqlite_items::Items;
use std::alloc::{AllocError, Global};

pub fn block(alloc: Global, statement: CStmt) -> Result<Items<CStmt>, AllocError>
    ensures { IfOk result (λ b. b ≡ statement ∷ []) }
{
    let mut statements = Items::new(alloc);
    statements.push(statement)?;
    Ok(statements)
}

/// A number. The text has no negative literals.
#[tactic(auto, unfolding(aplc_scalar::specs::Scalar::in_range))]
pub fn literal(alloc: Global, number: i64) -> Result<CExpr, AllocError>
    requires { IsInRange number }
    ensures { IfOk result (λ e. e ≡ literal_expr number) }
{
    if number >= 0 {
        return Ok(CExpr::Lit(number));
    }
    binary(alloc, Op::Sub, CExpr::Lit(0), CExpr::Lit(-number))
}

/// The number of a literal of one.
pub fn number_of(numbers: &[i64]) -> i64
    ensures { result ≡ number_of numbers.now }
{
    match numbers {
        [] => 0,
        [number, ..] => *number,
    }
}

/// A fault where the flag is 0.
pub fn emit_guard(alloc: Global, b: &mut Builder, flag: Int) -> Result<(), AllocError>
    ensures { OnOk result (b.new ≡ added (guard flag) b.old) }
{
    let unset = binary(alloc, Op::Equal, CExpr::Var(flag), CExpr::Lit(0))?;
    let fault = block(alloc, CStmt::Fault(FaultKind::Value))?;
    b.emit(CStmt::If(unset, fault, None))
}

/// The flag is set, where there is one.
#[tactic(auto, using(crate::proofs::Adding::nothing_added))]
pub fn emit_flag(b: &mut Builder, flag: Int, is_there: bool) -> Result<(), AllocError>
    ensures { OnOk result (b.new ≡ added (flag_code flag is_there) b.old) }
{
    if is_there {
        b.emit(CStmt::Set(flag, CExpr::Lit(1)))?;
    }
    Ok(())
}
