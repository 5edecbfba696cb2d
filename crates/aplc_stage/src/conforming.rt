//! The shape of two arrays together.
//! It must not know what is made of their elements.

ghost use Rattle.std.specs.Prelude.{◌≡◌, IfOk, length};
ghost use Rattle.aplc_scalar.specs.Scalar.{truth};
ghost use Rattle.aplc_cprof.specs.Blocks.{IsKept};
ghost use Rattle.aplc_cprof.specs.Frames.{AreOld};
ghost use Rattle.aplc_stage.specs.Pieces.{differ, all_one, takes_on, extended_block, conform_stmt, Conforms};

use crate::moving::{copies, fresh_ints};
use aplc_cprof::{Builder, CExpr, CStmt, Int, List, Op, binary, on_values};
use aplc_scalar::FaultKind;
use sqlite_items::Items;
use std::alloc::{AllocError, Global};

/// The variables of the lengths that two arrays have together, and of each array one that is 1 where it keeps its own
/// shape and 0 where its one element is extended.
#[derive(Drop)]
pub struct Common {
    pub lengths: List<Int>,
    pub keeps_left: Int,
    pub keeps_right: Int,
}

/// Whether a length differs from the one at its place.
fn differ(alloc: Global, left: &[Int], right: &[Int]) -> Result<CExpr, AllocError>
    requires { length left.now ≡ length right.now }
    ensures { IfOk result (λ e. e ≡ differ left.now right.now) }
{
    let mut any = CExpr::Lit(0);
    for index in (0..left.len()).rev() {
        let here = on_values(alloc, Op::NotEqual, left[index], right[index])?;
        any = binary(alloc, Op::Or, here, any)?;
    }
    Ok(any)
}

/// Whether all lengths are 1.
fn all_one(alloc: Global, lengths: &[Int]) -> Result<CExpr, AllocError>
    ensures { IfOk result (λ e. e ≡ all_one lengths.now) }
{
    let mut all = CExpr::Lit(1);
    for index in (0..lengths.len()).rev() {
        let first = binary(alloc, Op::Equal, CExpr::Var(lengths[index]), CExpr::Lit(1))?;
        all = binary(alloc, Op::And, first, all)?;
    }
    Ok(all)
}

fn flag(keeps: bool) -> CExpr
    ensures { result ≡ CExpr.Lit (truth keeps) }
{
    if keeps { CExpr::Lit(1) } else { CExpr::Lit(0) }
}

/// The lengths of one of the arrays, and which of them keep their shapes.
fn takes_on(
    alloc: Global,
    common: &Common,
    left: bool,
    right: bool,
    from: &[Int],
) -> Result<Items<CStmt>, AllocError>
    requires { length common.now.lengths ≡ length from.now }
    ensures { IfOk result (λ l. l ≡ takes_on common.now.lengths common.now.keeps_left common.now.keeps_right left right from.now) }
{
    let mut code = copies(alloc, common.lengths.as_slice(), from)?;
    code.push(CStmt::Set(common.keeps_left, flag(left)))?;
    code.push(CStmt::Set(common.keeps_right, flag(right)))?;
    Ok(code)
}

/// What is done where the shapes differ.
fn extended_block(
    alloc: Global,
    common: &Common,
    left: &[Int],
    right: &[Int],
) -> Result<Items<CStmt>, AllocError>
    requires left { length common.now.lengths ≡ length left.now }
    requires right { length common.now.lengths ≡ length right.now }
    ensures { IfOk result (λ l. l ≡ extended_block common.now.lengths common.now.keeps_left common.now.keeps_right left.now right.now) }
{
    let mut fault = Items::new(alloc);
    fault.push(CStmt::Fault(FaultKind::Length))?;
    let as_left = takes_on(alloc, common, true, false, left)?;
    let right_one = all_one(alloc, right)?;
    let mut otherwise = Items::new(alloc);
    otherwise.push(CStmt::If(right_one, as_left, Some(fault)))?;
    let as_right = takes_on(alloc, common, false, true, right)?;
    let left_one = all_one(alloc, left)?;
    let mut code = Items::new(alloc);
    code.push(CStmt::If(left_one, as_right, Some(otherwise)))?;
    Ok(code)
}

fn conform_statement(
    alloc: Global,
    common: &Common,
    left: &[Int],
    right: &[Int],
) -> Result<CStmt, AllocError>
    requires left { length common.now.lengths ≡ length left.now }
    requires right { length common.now.lengths ≡ length right.now }
    ensures { IfOk result (λ s. s ≡ conform_stmt common.now.lengths common.now.keeps_left common.now.keeps_right left.now right.now) }
{
    let extended = extended_block(alloc, common, left, right)?;
    let same = takes_on(alloc, common, true, true, left)?;
    let test = differ(alloc, left, right)?;
    Ok(CStmt::If(test, extended, Some(same)))
}

/// Adds code that finds the shape of two arrays of one rank together. It ends with LENGTH where the shapes differ and
/// neither array has one element alone.
pub fn conform(
    alloc: Global,
    b: &mut Builder,
    left: &[Int],
    right: &[Int],
) -> Result<Common, AllocError>
    requires many { length left.now ≡ length right.now }
    requires left { AreOld b.old.ints left.now }
    requires right { AreOld b.old.ints right.now }
    ensures ok { IfOk result (λ x. Conforms b.old b.new left.now right.now x.lengths x.keeps_left x.keeps_right) }
    ensures kept { IsKept b.old b.new }
{
    let lengths = fresh_ints(alloc, b, left)?;
    let keeps_left = b.fresh_int()?;
    let keeps_right = b.fresh_int()?;
    let common = Common {
        lengths: List::from_vec(lengths),
        keeps_left,
        keeps_right,
    };
    let statement = conform_statement(alloc, &common, left, right)?;
    b.emit(statement)?;
    Ok(common)
}
