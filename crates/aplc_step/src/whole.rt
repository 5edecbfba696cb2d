//! Steppers over whole buffers and tables.
//! They must not know what the elements are.

ghost use Rattle.std.specs.Prelude.{◌≡◌, IfOk};
ghost use Rattle.aplc_cprof.specs.Blocks.{IsKept};
ghost use Rattle.aplc_cprof.specs.Frames.{AreOld, IsOld};
ghost use Rattle.aplc_step.specs.Wholes.{some_element, EmitsProducts, MakesStepper};

use crate::setting::set_fresh;
use crate::stepper::{Origin, Stepper};
use aplc_cprof::{Buf, Builder, CExpr, Int, List, Op, binary, on_values};
use std::alloc::{AllocError, Global};

/// Whether none of the variables holds 0: whether an array of these lengths has elements.
pub fn some_element(alloc: Global, lengths: &[Int]) -> Result<CExpr, AllocError>
    ensures { IfOk result (λ e. e ≡ some_element lengths.now) }
{
    let mut all = CExpr::Lit(1);
    for index in (0..lengths.len()).rev() {
        let first = binary(
            alloc,
            Op::Greater,
            CExpr::Var(lengths[index]),
            CExpr::Lit(0),
        )?;
        all = binary(alloc, Op::And, first, all)?;
    }
    Ok(all)
}

/// A variable for the product of each length and those behind it, put before the others, and the one that `some` has.
fn products(
    alloc: Global,
    b: &mut Builder,
    some: Int,
    lengths: &[Int],
    strides: &mut Vec<Int>,
) -> Result<Int, AllocError>
    requires some { IsOld b.old.ints some }
    requires lengths { AreOld b.old.ints lengths.now }
    ensures ok { IfOk result (λ v. EmitsProducts b.old b.new some lengths.now strides.old.items strides.new.items v) }
    ensures kept { IsKept b.old b.new }
{
    match lengths {
        [] => Ok(some),
        [length, rest @ ..] => {
            let behind = products(alloc, b, some, rest, strides)?;
            let value = on_values(alloc, Op::Mul, *length, behind)?;
            let v = set_fresh(b, value)?;
            strides.insert(0, v)?;
            Ok(v)
        }
    }
}

/// The base, and the stride of each axis, of elements in row-major order.
fn row_major(alloc: Global, b: &mut Builder, lengths: &[Int]) -> Result<(Int, Vec<Int>), AllocError>
    requires lengths { AreOld b.old.ints lengths.now }
    ensures ok { IfOk result (λ p. MakesStepper b.old b.new lengths.now p.0 p.1.items) }
    ensures kept { IsKept b.old b.new }
{
    let base = set_fresh(b, CExpr::Lit(0))?;
    let one = set_fresh(b, CExpr::Lit(1))?;
    let test = some_element(alloc, lengths)?;
    let some = set_fresh(b, test)?;
    let mut strides = Vec::new(alloc);
    match lengths {
        [] => Ok((base, strides)),
        [_, rest @ ..] => {
            strides.push(one)?;
            products(alloc, b, some, rest, &mut strides)?;
            Ok((base, strides))
        }
    }
}

/// A stepper over an array in a buffer that has as many cells as the array has elements, or more.
pub fn of_buffer(
    alloc: Global,
    b: &mut Builder,
    from: Buf,
    lengths: &[Int],
) -> Result<Stepper, AllocError>
    requires lengths { AreOld b.old.ints lengths.now }
    ensures ok { IfOk result (λ x. (x.from ≡ Origin.Buffer from) × (x.lengths ≡ lengths.now) × MakesStepper b.old b.new lengths.now x.base x.strides) }
    ensures kept { IsKept b.old b.new }
{
    let (base, strides) = row_major(alloc, b, lengths)?;
    let lengths = Vec::from_slice(alloc, lengths)?;
    Ok(Stepper {
        from: Origin::Buffer(from),
        lengths: List::from_vec(lengths),
        base,
        strides: List::from_vec(strides),
    })
}

/// A stepper over an array in a table that has as many numbers as the array has elements, or more.
pub fn of_table(
    alloc: Global,
    b: &mut Builder,
    from: u32,
    lengths: &[Int],
) -> Result<Stepper, AllocError>
    requires lengths { AreOld b.old.ints lengths.now }
    ensures ok { IfOk result (λ x. (x.from ≡ Origin.Table from) × (x.lengths ≡ lengths.now) × MakesStepper b.old b.new lengths.now x.base x.strides) }
    ensures kept { IsKept b.old b.new }
{
    let (base, strides) = row_major(alloc, b, lengths)?;
    let lengths = Vec::from_slice(alloc, lengths)?;
    Ok(Stepper {
        from: Origin::Table(from),
        lengths: List::from_vec(lengths),
        base,
        strides: List::from_vec(strides),
    })
}
