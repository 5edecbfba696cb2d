//! Equality of a number and a character, which are never equal: a constant in the shape of both arguments.
//! It must not know what the elements are.

ghost use Rattle.std.specs.Prelude.{◌≡◌, true, false, max, IfOk, length};
ghost use Rattle.aplc_arr.specs.Arrays.{kind_eq};
ghost use Rattle.aplc_arr.specs.Each.{kinds_suit, ranks_suit};
ghost use Rattle.aplc_cprof.specs.Blocks.{IsKept};
ghost use Rattle.aplc_cprof.specs.Frames.{AreGiven, AreOld};
ghost use Rattle.aplc_cprof.specs.Emitted.{joint};
ghost use Rattle.aplc_stage.specs.Staged.{IsRanked, rank_of, scope_of_staged};
ghost use Rattle.aplc_stage.specs.Computes.{Computes, DyadicOf};
ghost use Rattle.aplc_stage.specs.Pieces.{Shares, unlike_expr};

use crate::conforming::conform;
use crate::gathering::gather;
use crate::staged::Staged;
use crate::wholes::own_lengths;
use aplc_collect::ScalarElement;
use aplc_cprof::{Builder, CExpr, CStmt, Int, List};
use aplc_scalar::{Kind, ScalarFn};
use std::alloc::{AllocError, Global};

/// 1 for inequality, else 0.
fn constant(f: ScalarFn) -> CExpr
    ensures { result ≡ unlike_expr f }
{
    match f {
        ScalarFn::NotEqual => CExpr::Lit(1),
        _ => CExpr::Lit(0),
    }
}

/// The lengths of the shape of both: those of the array beside a scalar, else those on which the arrays conform.
fn common_lengths(
    alloc: Global,
    b: &mut Builder,
    left: &[Int],
    right: &[Int],
) -> Result<List<Int>, AllocError>
    requires left { AreOld b.old.ints left.now }
    requires right { AreOld b.old.ints right.now }
    requires ranks { ranks_suit (length left.now) (length right.now) ≡ true }
    ensures ok { IfOk result (λ l. Shares b.old b.new left.now right.now l) }
    ensures kept { IsKept b.old b.new }
{
    if left.is_empty() {
        return own_lengths(alloc, b, right);
    }
    if right.is_empty() {
        return own_lengths(alloc, b, left);
    }
    let common = conform(alloc, b, left, right)?;
    Ok(common.lengths)
}

/// Adds code that makes `A f B` of two values of unlike kinds, where f is equality or inequality.
pub fn held_unlike(
    alloc: Global,
    b: &mut Builder,
    f: ScalarFn,
    left_kind: Kind,
    left: &Staged,
    right_kind: Kind,
    right: &Staged,
) -> Result<Staged, AllocError>
    requires unlike { kind_eq left_kind right_kind ≡ false }
    requires kinds { kinds_suit f left_kind right_kind ≡ true }
    requires ranks { ranks_suit (rank_of left.now) (rank_of right.now) ≡ true }
    requires left { IsRanked left.now }
    requires right { IsRanked right.now }
    requires given { AreGiven (joint (scope_of_staged left.now) (scope_of_staged right.now)) b.old }
    ensures computes { IfOk result (λ x. Computes (DyadicOf f left_kind left.now right_kind right.now) (joint (scope_of_staged left.now) (scope_of_staged right.now)) (max (rank_of left.now) (rank_of right.now)) b.old b.new x) }
    ensures kept { IsKept b.old b.new }
{
    let lengths = common_lengths(alloc, b, left.lengths(), right.lengths())?;
    let v = b.fresh_int()?;
    b.emit(CStmt::Set(v, constant(f)))?;
    if lengths.as_slice().is_empty() {
        return Ok(Staged::Scalar(v));
    }
    let mut code = ScalarElement { variable: v };
    gather(alloc, b, lengths, &mut code)
}
