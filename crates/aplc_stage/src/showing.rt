//! The display of a value.
//! It must not know what the value is for.

ghost use Rattle.std.specs.Prelude.{◌≡◌, OnOk};
ghost use Rattle.aplc_cprof.specs.Blocks.{IsKept};
ghost use Rattle.aplc_cprof.specs.Frames.{AreGiven};
ghost use Rattle.aplc_stage.specs.Staged.{IsRanked, scope_of_staged};
ghost use Rattle.aplc_stage.specs.Displays.{Displays};

use crate::staged::Staged;
use crate::wholes::over;
use aplc_collect::ScalarElement;
use aplc_cprof::{Builder, Int};
use aplc_quad::show_code;
use aplc_scalar::Kind;
use aplc_step::Origin;
use std::alloc::{AllocError, Global};

fn show_cells(
    alloc: Global,
    b: &mut Builder,
    kind: Kind,
    from: Origin,
    lengths: &[Int],
) -> Result<(), AllocError>
    requires given { AreGiven (scope_of_staged (Staged.Cells from lengths.now)) b.old }
    ensures shows { OnOk result (Displays (scope_of_staged (Staged.Cells from lengths.now)) b.old b.new kind (Staged.Cells from lengths.now)) }
    ensures kept { IsKept b.old b.new }
{
    let mut code = over(alloc, b, from, lengths)?;
    show_code(alloc, b, kind, lengths, &mut code)
}

fn show_scalar(alloc: Global, b: &mut Builder, kind: Kind, x: Int) -> Result<(), AllocError>
    requires given { AreGiven (scope_of_staged (Staged.Scalar x)) b.old }
    ensures shows { OnOk result (Displays (scope_of_staged (Staged.Scalar x)) b.old b.new kind (Staged.Scalar x)) }
    ensures kept { IsKept b.old b.new }
{
    let mut code = ScalarElement { variable: x };
    show_code(alloc, b, kind, &[], &mut code)
}

/// Adds code that prints a value of this kind, as the definition displays it. On the way it holds as many cells more as the
/// last axis is long, where widths of columns are wanted.
pub fn show_staged(
    alloc: Global,
    b: &mut Builder,
    kind: Kind,
    value: &Staged,
) -> Result<(), AllocError>
    requires ranked { IsRanked value.now }
    requires given { AreGiven (scope_of_staged value.now) b.old }
    ensures shows { OnOk result (Displays (scope_of_staged value.now) b.old b.new kind value.now) }
    ensures kept { IsKept b.old b.new }
{
    match value {
        Staged::Scalar(x) => show_scalar(alloc, b, kind, *x),
        Staged::Cells(from, lengths) => show_cells(alloc, b, kind, *from, lengths.as_slice()),
    }
}
