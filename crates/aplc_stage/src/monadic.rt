//! Scalar functions of one argument, and copies.
//! They must not know where the argument came from, nor what is done with the result.

ghost use Rattle.std.specs.Prelude.{◌≡◌, ◌≤◌, IfOk, IsTrue, length};
ghost use Rattle.aplc_scalar.specs.Scalar.{is_monadic};
ghost use Rattle.aplc_cprof.specs.Blocks.{IsKept};
ghost use Rattle.aplc_cprof.specs.Frames.{AreGiven};
ghost use Rattle.aplc_stage.specs.Staged.{IsRanked, rank_of, scope_of_staged};
ghost use Rattle.aplc_stage.specs.Computes.{Computes, MonadicOf, CopyOf};

use crate::gathering::gather;
use crate::staged::Staged;
use crate::wholes::{over, own_lengths};
use aplc_collect::{ElementCode, Mono, ScalarElement, mono_code};
use aplc_cprof::{Builder, Int};
use aplc_scalar::ScalarFn;
use aplc_step::Origin;
use std::alloc::{AllocError, Global};

fn mono_cells(
    alloc: Global,
    b: &mut Builder,
    f: ScalarFn,
    from: Origin,
    lengths: &[Int],
) -> Result<Staged, AllocError>
    requires form { IsTrue (is_monadic f) }
    requires ranked { 1 ≤ length lengths.now }
    requires given { AreGiven (scope_of_staged (Staged.Cells from lengths.now)) b.old }
    ensures computes { IfOk result (λ x. Computes (MonadicOf f (Staged.Cells from lengths.now)) (scope_of_staged (Staged.Cells from lengths.now)) (length lengths.now) b.old b.new x) }
    ensures kept { IsKept b.old b.new }
{
    let own = own_lengths(alloc, b, lengths)?;
    let argument = over(alloc, b, from, lengths)?;
    let mut code = Mono { f, argument };
    gather(alloc, b, own, &mut code)
}

fn mono_scalar(alloc: Global, b: &mut Builder, f: ScalarFn, x: Int) -> Result<Staged, AllocError>
    requires form { IsTrue (is_monadic f) }
    requires given { AreGiven (scope_of_staged (Staged.Scalar x)) b.old }
    ensures computes { IfOk result (λ y. Computes (MonadicOf f (Staged.Scalar x)) (scope_of_staged (Staged.Scalar x)) 0 b.old b.new y) }
    ensures kept { IsKept b.old b.new }
{
    let v = mono_code(alloc, b, f, x)?;
    Ok(Staged::Scalar(v))
}

/// Adds code that makes `f B` of a value of numbers: a number in a variable of its own, or an array in a buffer and with
/// lengths of its own. The code ends with the fault of the first element that has one. `Err` says that memory for the code
/// ran out.
pub fn held_mono(
    alloc: Global,
    b: &mut Builder,
    f: ScalarFn,
    argument: &Staged,
) -> Result<Staged, AllocError>
    requires form { IsTrue (is_monadic f) }
    requires ranked { IsRanked argument.now }
    requires given { AreGiven (scope_of_staged argument.now) b.old }
    ensures computes { IfOk result (λ x. Computes (MonadicOf f argument.now) (scope_of_staged argument.now) (rank_of argument.now) b.old b.new x) }
    ensures kept { IsKept b.old b.new }
{
    match argument {
        Staged::Scalar(x) => mono_scalar(alloc, b, f, *x),
        Staged::Cells(from, lengths) => mono_cells(alloc, b, f, *from, lengths.as_slice()),
    }
}

fn copy_cells(
    alloc: Global,
    b: &mut Builder,
    from: Origin,
    lengths: &[Int],
) -> Result<Staged, AllocError>
    requires ranked { 1 ≤ length lengths.now }
    requires given { AreGiven (scope_of_staged (Staged.Cells from lengths.now)) b.old }
    ensures computes { IfOk result (λ x. Computes (CopyOf (Staged.Cells from lengths.now)) (scope_of_staged (Staged.Cells from lengths.now)) (length lengths.now) b.old b.new x) }
    ensures kept { IsKept b.old b.new }
{
    let own = own_lengths(alloc, b, lengths)?;
    let mut code = over(alloc, b, from, lengths)?;
    gather(alloc, b, own, &mut code)
}

fn copy_scalar(alloc: Global, b: &mut Builder, x: Int) -> Result<Staged, AllocError>
    requires given { AreGiven (scope_of_staged (Staged.Scalar x)) b.old }
    ensures computes { IfOk result (λ y. Computes (CopyOf (Staged.Scalar x)) (scope_of_staged (Staged.Scalar x)) 0 b.old b.new y) }
    ensures kept { IsKept b.old b.new }
{
    let mut code = ScalarElement { variable: x };
    let v = code.emit(alloc, b, &[])?;
    Ok(Staged::Scalar(v))
}

/// Adds code that copies a value: into a variable, or into a buffer and with lengths of its own.
pub fn copy_staged(alloc: Global, b: &mut Builder, value: &Staged) -> Result<Staged, AllocError>
    requires ranked { IsRanked value.now }
    requires given { AreGiven (scope_of_staged value.now) b.old }
    ensures computes { IfOk result (λ x. Computes (CopyOf value.now) (scope_of_staged value.now) (rank_of value.now) b.old b.new x) }
    ensures kept { IsKept b.old b.new }
{
    match value {
        Staged::Scalar(x) => copy_scalar(alloc, b, *x),
        Staged::Cells(from, lengths) => copy_cells(alloc, b, *from, lengths.as_slice()),
    }
}
