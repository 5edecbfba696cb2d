//! Steppers and lengths of arrays that stand in memory.
//! They must not know what is made of their elements.

ghost use Rattle.std.specs.Prelude.{◌≡◌, IfOk};
ghost use Rattle.aplc_cprof.specs.Blocks.{IsKept};
ghost use Rattle.aplc_cprof.specs.Frames.{AreOld};
ghost use Rattle.aplc_step.specs.Wholes.{MakesStepper};
ghost use Rattle.aplc_stage.specs.Pieces.{OwnLengths};

use crate::moving::{emit_copies, fresh_ints};
use aplc_cprof::{Builder, Int, List};
use aplc_step::{Origin, Stepper, of_buffer, of_table};
use std::alloc::{AllocError, Global};

/// A stepper over an array in a buffer or in a table.
pub fn over(
    alloc: Global,
    b: &mut Builder,
    from: Origin,
    lengths: &[Int],
) -> Result<Stepper, AllocError>
    requires lengths { AreOld b.old.ints lengths.now }
    ensures ok { IfOk result (λ x. (x.from ≡ from) × (x.lengths ≡ lengths.now) × MakesStepper b.old b.new lengths.now x.base x.strides) }
    ensures kept { IsKept b.old b.new }
{
    match from {
        Origin::Buffer(p) => of_buffer(alloc, b, p, lengths),
        Origin::Table(k) => of_table(alloc, b, k, lengths),
    }
}

/// Variables of its own for the lengths of a new array that has the shape of another one.
pub fn own_lengths(alloc: Global, b: &mut Builder, lengths: &[Int]) -> Result<List<Int>, AllocError>
    requires lengths { AreOld b.old.ints lengths.now }
    ensures ok { IfOk result (λ l. OwnLengths b.old b.new lengths.now l) }
    ensures kept { IsKept b.old b.new }
{
    let names = fresh_ints(alloc, b, lengths)?;
    emit_copies(b, names.as_slice(), lengths)?;
    Ok(List::from_vec(names))
}
