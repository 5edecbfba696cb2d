//! Code of scalar functions of two arguments.
//! It must not know where the arguments come from.

ghost use Rattle.std.specs.Prelude.{◌≡◌, IfOk, IsTrue};
ghost use Rattle.aplc_scalar.specs.Scalar.{dyadic, is_dyadic, is_logical};
ghost use Rattle.aplc_cprof.specs.Blocks.{IsKept};
ghost use Rattle.aplc_cprof.specs.Frames.{IsOld};
ghost use Rattle.aplc_collect.specs.Scalars.{EmitsDyad, dyad_steps, dyad_depth, plain_op, arithmetic_stmt, choice_stmt, is_comparison, comparison, of_bits, logical_stmt, remainder_code, residue_stmt, dyad_stmt};

use crate::blocks::{checked_block, fault_block, set_block};
use crate::guards::{both_bits, both_within, other_sign};
use aplc_cprof::{Builder, CExpr, CStmt, Checked, Int, Op, binary, less, on_values};
use aplc_scalar::{FaultKind, ScalarFn};
use sqlite_items::Items;
use std::alloc::{AllocError, Global};

fn plain_op(o: Checked) -> Op
    ensures { result ≡ plain_op o }
{
    match o {
        Checked::Add => Op::Add,
        Checked::Sub => Op::Sub,
        Checked::Mul => Op::Mul,
    }
}

/// A sum, difference or product: plain where both sides are small, else checked.
fn arithmetic(alloc: Global, o: Checked, v: Int, left: Int, right: Int) -> Result<CStmt, AllocError>
    ensures { IfOk result (λ s. s ≡ arithmetic_stmt o v left right) }
{
    let value = on_values(alloc, plain_op(o), left, right)?;
    let plain = set_block(alloc, v, value)?;
    let checked = checked_block(alloc, o, v, left, right)?;
    let small = both_within(alloc, o, left, right)?;
    Ok(CStmt::If(small, plain, Some(checked)))
}

/// One of two variables, by whether the left side is below the right one.
fn choice(
    alloc: Global,
    v: Int,
    left: Int,
    right: Int,
    one: Int,
    other: Int,
) -> Result<CStmt, AllocError>
    ensures { IfOk result (λ s. s ≡ choice_stmt v left right one other) }
{
    let below = set_block(alloc, v, CExpr::Var(one))?;
    let otherwise = set_block(alloc, v, CExpr::Var(other))?;
    let test = less(alloc, left, right)?;
    Ok(CStmt::If(test, below, Some(otherwise)))
}

fn comparison(f: ScalarFn) -> Op
    ensures { result ≡ comparison f }
{
    match f {
        ScalarFn::Less => Op::Less,
        ScalarFn::LessEq => Op::LessEq,
        ScalarFn::Equal => Op::Equal,
        ScalarFn::GreaterEq => Op::GreaterEq,
        ScalarFn::Greater => Op::Greater,
        _ => Op::NotEqual,
    }
}

/// A function of two truth values, by arithmetic.
fn of_bits(alloc: Global, f: ScalarFn, x: Int, y: Int) -> Result<CExpr, AllocError>
    ensures { IfOk result (λ e. e ≡ of_bits f x y) }
{
    match f {
        ScalarFn::And => on_values(alloc, Op::Mul, x, y),
        ScalarFn::Or => {
            let sum = on_values(alloc, Op::Add, x, y)?;
            binary(alloc, Op::NotEqual, sum, CExpr::Lit(0))
        }
        ScalarFn::Nand => {
            let product = on_values(alloc, Op::Mul, x, y)?;
            binary(alloc, Op::Equal, product, CExpr::Lit(0))
        }
        _ => {
            let sum = on_values(alloc, Op::Add, x, y)?;
            binary(alloc, Op::Equal, sum, CExpr::Lit(0))
        }
    }
}

/// A function of truth values, or DOMAIN where one side is none.
fn logical(alloc: Global, f: ScalarFn, v: Int, left: Int, right: Int) -> Result<CStmt, AllocError>
    ensures { IfOk result (λ s. s ≡ logical_stmt f v left right) }
{
    let value = of_bits(alloc, f, left, right)?;
    let bits = set_block(alloc, v, value)?;
    let other = fault_block(alloc, FaultKind::Domain)?;
    let test = both_bits(alloc, left, right)?;
    Ok(CStmt::If(test, bits, Some(other)))
}

/// The remainder, with the divisor added where its sign is the other one.
fn remainder(alloc: Global, v: Int, divisor: Int, dividend: Int) -> Result<Items<CStmt>, AllocError>
    ensures { IfOk result (λ l. l ≡ remainder_code v divisor dividend) }
{
    let remainder = on_values(alloc, Op::Rem, dividend, divisor)?;
    let mut code = set_block(alloc, v, remainder)?;
    let sum = on_values(alloc, Op::Add, v, divisor)?;
    let moved = set_block(alloc, v, sum)?;
    let test = other_sign(alloc, v, divisor)?;
    code.push(CStmt::If(test, moved, None))?;
    Ok(code)
}

/// What is left of the right side by the left one, which may be 0.
fn residue(alloc: Global, v: Int, left: Int, right: Int) -> Result<CStmt, AllocError>
    ensures { IfOk result (λ s. s ≡ residue_stmt v left right) }
{
    let divided = remainder(alloc, v, left, right)?;
    let other = set_block(alloc, v, CExpr::Var(right))?;
    let test = binary(alloc, Op::NotEqual, CExpr::Var(left), CExpr::Lit(0))?;
    Ok(CStmt::If(test, divided, Some(other)))
}

fn statement(alloc: Global, f: ScalarFn, v: Int, left: Int, right: Int) -> Result<CStmt, AllocError>
    requires { IsTrue (is_dyadic f) }
    ensures { IfOk result (λ s. s ≡ dyad_stmt f v left right) }
{
    match f {
        ScalarFn::Add => arithmetic(alloc, Checked::Add, v, left, right),
        ScalarFn::Sub => arithmetic(alloc, Checked::Sub, v, left, right),
        ScalarFn::Mul => arithmetic(alloc, Checked::Mul, v, left, right),
        ScalarFn::Max => choice(alloc, v, left, right, right, left),
        ScalarFn::Min => choice(alloc, v, left, right, left, right),
        ScalarFn::Residue => residue(alloc, v, left, right),
        ScalarFn::And | ScalarFn::Or | ScalarFn::Nand | ScalarFn::Nor => {
            logical(alloc, f, v, left, right)
        }
        ScalarFn::Not => unreachable!(),
        _ => Ok(CStmt::Set(v, on_values(alloc, comparison(f), left, right)?)),
    }
}

/// Adds code that sets a fresh variable to what `dyad` gives for the numbers in two variables, or that faults with its
/// kind.
pub fn dyad_code(
    alloc: Global,
    b: &mut Builder,
    f: ScalarFn,
    left: Int,
    right: Int,
) -> Result<Int, AllocError>
    requires form { IsTrue (is_dyadic f) }
    requires left { IsOld b.old.ints left }
    ensures emits { IfOk result (λ v. EmitsDyad (dyadic f) (dyad_steps f) dyad_depth b.old b.new left right v) }
    ensures kept { IsKept b.old b.new }
{
    let v = b.fresh_int()?;
    let code = statement(alloc, f, v, left, right)?;
    b.emit(code)?;
    Ok(v)
}
