//! Variables that take on the values of others.
//! They must not know what the values are for.

ghost use Rattle.std.specs.Prelude.{◌≡◌, ◌+◌, IfOk, OnOk, length};
ghost use Rattle.aplc_cprof.specs.Blocks.{IsKept};
ghost use Rattle.aplc_stage.specs.Pieces.{with_code, locals, copies, clears};

use aplc_cprof::{Builder, CExpr, CStmt, Int};
use sqlite_items::Items;
use std::alloc::{AllocError, Global};

/// As many variables of their own as there are others.
#[tactic(auto, using(crate::proofs::Lists::one_name, crate::proofs::Lists::all_named))]
pub fn fresh_ints(alloc: Global, b: &mut Builder, others: &[Int]) -> Result<Vec<Int>, AllocError>
    ensures names { IfOk result (λ l. l.items ≡ locals b.old.ints others.now) }
    ensures given { OnOk result (b.new ≡ record b.old { ints = b.old.ints + length others.now }) }
    ensures kept { IsKept b.old b.new }
{
    let mut names = Vec::new(alloc);
    for _ in 0..others.len() {
        names.push(b.fresh_int()?)?;
    }
    Ok(names)
}

/// Statements that set each variable to the value of the other one at its place.
#[tactic(auto, using(crate::proofs::Lists::one_copy, crate::proofs::Lists::all_copied))]
pub fn copies(alloc: Global, to: &[Int], from: &[Int]) -> Result<Items<CStmt>, AllocError>
    requires { length to.now ≡ length from.now }
    ensures { IfOk result (λ l. l ≡ copies to.now from.now) }
{
    let mut code = Items::new(alloc);
    for index in 0..to.len() {
        code.push(CStmt::Set(to[index], CExpr::Var(from[index])))?;
    }
    Ok(code)
}

/// Statements that set each variable to 0.
#[tactic(auto, using(crate::proofs::Lists::one_clear, crate::proofs::Lists::all_cleared))]
pub fn clears(alloc: Global, to: &[Int]) -> Result<Items<CStmt>, AllocError>
    ensures { IfOk result (λ l. l ≡ clears to.now) }
{
    let mut code = Items::new(alloc);
    for index in 0..to.len() {
        code.push(CStmt::Set(to[index], CExpr::Lit(0)))?;
    }
    Ok(code)
}

/// Adds code that sets each variable to the value of the other one at its place.
pub fn emit_copies(b: &mut Builder, to: &[Int], from: &[Int]) -> Result<(), AllocError>
    requires { length to.now ≡ length from.now }
    ensures ok { OnOk result (b.new ≡ with_code (copies to.now from.now) b.old) }
    ensures kept { IsKept b.old b.new }
{
    for index in 0..to.len() {
        b.emit(CStmt::Set(to[index], CExpr::Var(from[index])))?;
    }
    Ok(())
}
