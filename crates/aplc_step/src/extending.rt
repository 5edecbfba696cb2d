//! Steppers that have one element everywhere.
//! They must not know which element it is.

ghost use Rattle.std.specs.Prelude.{◌≡◌, IfOk};
ghost use Rattle.aplc_cprof.specs.Blocks.{IsKept};
ghost use Rattle.aplc_cprof.specs.Frames.{AreGiven, AreOld};
ghost use Rattle.aplc_step.specs.Steppers.{stepper_scope};
ghost use Rattle.aplc_step.specs.Wholes.{ExtendsStepper};

use crate::setting::set_fresh;
use crate::stepper::Stepper;
use aplc_cprof::{Builder, CExpr, Int, List};
use std::alloc::{AllocError, Global};

/// A stepper over an array of these lengths that has the first element of another one everywhere, as a scalar and an
/// array of one element have beside other arrays.
pub fn extend(
    alloc: Global,
    b: &mut Builder,
    s: &Stepper,
    lengths: &[Int],
) -> Result<Stepper, AllocError>
    requires given { AreGiven (stepper_scope s.now.from s.now.base s.now.strides) b.old }
    requires lengths { AreOld b.old.ints lengths.now }
    ensures ok { IfOk result (λ x. (x.from ≡ s.now.from) × (x.lengths ≡ lengths.now) × (x.base ≡ s.now.base) × ExtendsStepper b.old b.new s.now.lengths s.now.base s.now.strides lengths.now x.strides) }
    ensures kept { IsKept b.old b.new }
{
    let stride = set_fresh(b, CExpr::Lit(0))?;
    let strides = vec![in alloc; stride; lengths.len()]?;
    let lengths = Vec::from_slice(alloc, lengths)?;
    Ok(Stepper {
        from: s.from,
        lengths: List::from_vec(lengths),
        base: s.base,
        strides: List::from_vec(strides),
    })
}
