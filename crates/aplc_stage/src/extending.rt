//! Steppers of an array beside others, whose shape it keeps or whose one element is extended.
//! It must not know which elements these are.

ghost use Rattle.std.specs.Prelude.{◌≡◌, IfOk, length};
ghost use Rattle.aplc_cprof.specs.Blocks.{IsKept};
ghost use Rattle.aplc_cprof.specs.Frames.{AreOld, IsOld};
ghost use Rattle.aplc_stage.specs.Pieces.{extend_stmt, KeepsOrExtends};

use crate::moving::{clears, copies, fresh_ints};
use aplc_cprof::{Builder, CExpr, CStmt, Int, List};
use aplc_step::Stepper;
use std::alloc::{AllocError, Global};

fn extend_statement(
    alloc: Global,
    keeps: Int,
    names: &[Int],
    strides: &[Int],
) -> Result<CStmt, AllocError>
    requires { length names.now ≡ length strides.now }
    ensures { IfOk result (λ s. s ≡ extend_stmt keeps names.now strides.now) }
{
    let own = copies(alloc, names, strides)?;
    let still = clears(alloc, names)?;
    Ok(CStmt::If(CExpr::Var(keeps), own, Some(still)))
}

/// A stepper over an array of these lengths, whose strides are those of the other one where the variable is 1, and 0
/// where it is 0.
pub fn keep_or_extend(
    alloc: Global,
    b: &mut Builder,
    s: &Stepper,
    lengths: &[Int],
    keeps: Int,
) -> Result<Stepper, AllocError>
    requires base { IsOld b.old.ints s.now.base }
    requires strides { AreOld b.old.ints s.now.strides }
    requires lengths { AreOld b.old.ints lengths.now }
    requires keeps { IsOld b.old.ints keeps }
    ensures ok { IfOk result (λ x. (x.from ≡ s.now.from) × (x.lengths ≡ lengths.now) × (x.base ≡ s.now.base) × KeepsOrExtends b.old b.new keeps s.now.lengths s.now.base s.now.strides lengths.now x.strides) }
    ensures kept { IsKept b.old b.new }
{
    let names = fresh_ints(alloc, b, s.strides.as_slice())?;
    let statement = extend_statement(alloc, keeps, names.as_slice(), s.strides.as_slice())?;
    b.emit(statement)?;
    let lengths = Vec::from_slice(alloc, lengths)?;
    Ok(Stepper {
        from: s.from,
        lengths: List::from_vec(lengths),
        base: s.base,
        strides: List::from_vec(names),
    })
}
