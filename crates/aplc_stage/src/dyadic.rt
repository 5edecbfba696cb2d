//! Scalar functions of two arguments.
//! They must not know where the arguments came from, nor what is done with the result.

ghost use Rattle.std.specs.Prelude.{◌≡◌, ◌≤◌, true, max, IfOk, length};
ghost use Rattle.aplc_arr.specs.Each.{kinds_suit, ranks_suit};
ghost use Rattle.aplc_cprof.specs.Blocks.{IsKept};
ghost use Rattle.aplc_cprof.specs.Frames.{AreGiven};
ghost use Rattle.aplc_cprof.specs.Emitted.{joint};
ghost use Rattle.aplc_stage.specs.Staged.{IsRanked, rank_of, scope_of_staged};
ghost use Rattle.aplc_stage.specs.Computes.{Computes, DyadicOf};

use crate::conforming::conform;
use crate::extending::keep_or_extend;
use crate::gathering::gather;
use crate::staged::Staged;
use crate::unlike::held_unlike;
use crate::wholes::{over, own_lengths};
use aplc_collect::{Dyad, ScalarElement, dyad_code};
use aplc_cprof::{Builder, Int};
use aplc_scalar::{Kind, ScalarFn};
use aplc_step::Origin;
use std::alloc::{AllocError, Global};

/// A number and an array, which has its shape alone.
fn scalar_left(
    alloc: Global,
    b: &mut Builder,
    f: ScalarFn,
    kind: Kind,
    x: Int,
    from: Origin,
    lengths: &[Int],
) -> Result<Staged, AllocError>
    requires kinds { kinds_suit f kind kind ≡ true }
    requires ranked { 1 ≤ length lengths.now }
    requires given { AreGiven (joint (scope_of_staged (Staged.Scalar x)) (scope_of_staged (Staged.Cells from lengths.now))) b.old }
    ensures computes { IfOk result (λ y. Computes (DyadicOf f kind (Staged.Scalar x) kind (Staged.Cells from lengths.now)) (joint (scope_of_staged (Staged.Scalar x)) (scope_of_staged (Staged.Cells from lengths.now))) (length lengths.now) b.old b.new y) }
    ensures kept { IsKept b.old b.new }
{
    let own = own_lengths(alloc, b, lengths)?;
    let right = over(alloc, b, from, lengths)?;
    let left = ScalarElement { variable: x };
    let mut code = Dyad { f, left, right };
    gather(alloc, b, own, &mut code)
}

/// An array and a number.
fn scalar_right(
    alloc: Global,
    b: &mut Builder,
    f: ScalarFn,
    kind: Kind,
    from: Origin,
    lengths: &[Int],
    y: Int,
) -> Result<Staged, AllocError>
    requires kinds { kinds_suit f kind kind ≡ true }
    requires ranked { 1 ≤ length lengths.now }
    requires given { AreGiven (joint (scope_of_staged (Staged.Cells from lengths.now)) (scope_of_staged (Staged.Scalar y))) b.old }
    ensures computes { IfOk result (λ x. Computes (DyadicOf f kind (Staged.Cells from lengths.now) kind (Staged.Scalar y)) (joint (scope_of_staged (Staged.Cells from lengths.now)) (scope_of_staged (Staged.Scalar y))) (length lengths.now) b.old b.new x) }
    ensures kept { IsKept b.old b.new }
{
    let own = own_lengths(alloc, b, lengths)?;
    let left = over(alloc, b, from, lengths)?;
    let right = ScalarElement { variable: y };
    let mut code = Dyad { f, left, right };
    gather(alloc, b, own, &mut code)
}

/// Two arrays of one rank: first the shape, then which of them is extended, then the elements.
fn cells_and_cells(
    alloc: Global,
    b: &mut Builder,
    f: ScalarFn,
    kind: Kind,
    left_from: Origin,
    left_lengths: &[Int],
    right_from: Origin,
    right_lengths: &[Int],
) -> Result<Staged, AllocError>
    requires kinds { kinds_suit f kind kind ≡ true }
    requires ranked { 1 ≤ length left_lengths.now }
    requires ranks { length left_lengths.now ≡ length right_lengths.now }
    requires given { AreGiven (joint (scope_of_staged (Staged.Cells left_from left_lengths.now)) (scope_of_staged (Staged.Cells right_from right_lengths.now))) b.old }
    ensures computes { IfOk result (λ x. Computes (DyadicOf f kind (Staged.Cells left_from left_lengths.now) kind (Staged.Cells right_from right_lengths.now)) (joint (scope_of_staged (Staged.Cells left_from left_lengths.now)) (scope_of_staged (Staged.Cells right_from right_lengths.now))) (length left_lengths.now) b.old b.new x) }
    ensures kept { IsKept b.old b.new }
{
    let common = conform(alloc, b, left_lengths, right_lengths)?;
    let whole_left = over(alloc, b, left_from, left_lengths)?;
    let whole_right = over(alloc, b, right_from, right_lengths)?;
    let lengths = common.lengths.as_slice();
    let left = keep_or_extend(alloc, b, &whole_left, lengths, common.keeps_left)?;
    let right = keep_or_extend(alloc, b, &whole_right, lengths, common.keeps_right)?;
    let mut code = Dyad { f, left, right };
    gather(alloc, b, common.lengths, &mut code)
}

/// Two values of one kind.
fn held_alike(
    alloc: Global,
    b: &mut Builder,
    f: ScalarFn,
    kind: Kind,
    left: &Staged,
    right: &Staged,
) -> Result<Staged, AllocError>
    requires kinds { kinds_suit f kind kind ≡ true }
    requires ranks { ranks_suit (rank_of left.now) (rank_of right.now) ≡ true }
    requires left { IsRanked left.now }
    requires right { IsRanked right.now }
    requires given { AreGiven (joint (scope_of_staged left.now) (scope_of_staged right.now)) b.old }
    ensures computes { IfOk result (λ x. Computes (DyadicOf f kind left.now kind right.now) (joint (scope_of_staged left.now) (scope_of_staged right.now)) (max (rank_of left.now) (rank_of right.now)) b.old b.new x) }
    ensures kept { IsKept b.old b.new }
{
    match left {
        Staged::Scalar(x) => match right {
            Staged::Scalar(y) => Ok(Staged::Scalar(dyad_code(alloc, b, f, *x, *y)?)),
            Staged::Cells(from, lengths) => {
                scalar_left(alloc, b, f, kind, *x, *from, lengths.as_slice())
            }
        },
        Staged::Cells(left_from, left_lengths) => match right {
            Staged::Scalar(y) => {
                scalar_right(alloc, b, f, kind, *left_from, left_lengths.as_slice(), *y)
            }
            Staged::Cells(right_from, right_lengths) => cells_and_cells(
                alloc,
                b,
                f,
                kind,
                *left_from,
                left_lengths.as_slice(),
                *right_from,
                right_lengths.as_slice(),
            ),
        },
    }
}

/// Adds code that makes `A f B` of two values of these kinds and of ranks that suit: a number in a variable of its own, or
/// an array in a buffer and with lengths of its own. The code ends with LENGTH where the shapes do not conform, before any
/// element, or with the fault of the first element that has one. `Err` says that memory for the code ran out.
pub fn held_dyad(
    alloc: Global,
    b: &mut Builder,
    f: ScalarFn,
    left_kind: Kind,
    left: &Staged,
    right_kind: Kind,
    right: &Staged,
) -> Result<Staged, AllocError>
    requires kinds { kinds_suit f left_kind right_kind ≡ true }
    requires ranks { ranks_suit (rank_of left.now) (rank_of right.now) ≡ true }
    requires left { IsRanked left.now }
    requires right { IsRanked right.now }
    requires given { AreGiven (joint (scope_of_staged left.now) (scope_of_staged right.now)) b.old }
    ensures computes { IfOk result (λ x. Computes (DyadicOf f left_kind left.now right_kind right.now) (joint (scope_of_staged left.now) (scope_of_staged right.now)) (max (rank_of left.now) (rank_of right.now)) b.old b.new x) }
    ensures kept { IsKept b.old b.new }
{
    match (left_kind, right_kind) {
        (Kind::Num, Kind::Num) | (Kind::Char, Kind::Char) => {
            held_alike(alloc, b, f, left_kind, left, right)
        }
        _ => held_unlike(alloc, b, f, left_kind, left, right_kind, right),
    }
}
