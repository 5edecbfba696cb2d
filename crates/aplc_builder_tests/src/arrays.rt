//! Arrays that programs read: their lengths, and their elements in a buffer.
//! It must not know what is done with them.

ghost use Rattle.std.specs.Prelude.{◌≡◌, ℕ, IfOk, OnOk};
ghost use Rattle.aplc_cprof.specs.Blocks.{IsKept};
ghost use Rattle.aplc_cprof.specs.Frames.{AreGiven, AreOld, IsOldBuf};
ghost use Rattle.aplc_step.specs.Steppers.{stepper_scope};

use crate::building::{COUNT, MADE};
use aplc_cprof::{Buf, Builder, CExpr, CStmt, Int};
use aplc_step::{Stepper, of_buffer};
use sqlite_items::Boxed;
use std::alloc::{AllocError, Global};

const A: Int = Int::Global(3);

const B: Int = Int::Global(4);

const C: Int = Int::Global(5);

const D: Int = Int::Global(6);

const E: Int = Int::Global(7);

const F: Int = Int::Global(8);

const G: Int = Int::Global(9);

const H: Int = Int::Global(10);

/// The lengths of an array of this rank, which is at most 8.
pub(crate) fn axes(rank: usize) -> &'static [Int]
    ensures { (n : ℕ) → AreOld n result.now }
{
    match rank {
        0 => &[],
        1 => &[A],
        2 => &[A, B],
        3 => &[A, B, C],
        4 => &[A, B, C, D],
        5 => &[A, B, C, D, E],
        6 => &[A, B, C, D, E, F],
        7 => &[A, B, C, D, E, F, G],
        _ => &[A, B, C, D, E, F, G, H],
    }
}

/// The lengths of another array beside one of rank 3 at most, of this rank, which is at most 3.
pub(crate) fn other_axes(rank: usize) -> &'static [Int]
    ensures { (n : ℕ) → AreOld n result.now }
{
    match rank {
        0 => &[],
        1 => &[D],
        2 => &[D, E],
        _ => &[D, E, F],
    }
}

/// Reads a line: how many elements there are, and the lengths.
pub(crate) fn read_lengths(
    alloc: Global,
    b: &mut Builder,
    lengths: &[Int],
) -> Result<(), AllocError>
    ensures { OnOk result (b.new.outer ≡ b.old.outer) }
{
    b.emit(CStmt::ReadNums(MADE))?;
    let first = Boxed::new(alloc, CExpr::Lit(0))?;
    b.emit(CStmt::Set(COUNT, CExpr::Cell(MADE, first)))?;
    let mut place: i64 = 1;
    for length in lengths {
        let at = Boxed::new(alloc, CExpr::Lit(place))?;
        b.emit(CStmt::Set(*length, CExpr::Cell(MADE, at)))?;
        place = place.saturating_add(1);
    }
    b.emit(CStmt::Free(MADE))
}

/// The array of these lengths in a buffer.
pub(crate) fn stepper(
    alloc: Global,
    b: &mut Builder,
    from: Buf,
    lengths: &[Int],
) -> Result<Stepper, AllocError>
    requires buffer { (n : ℕ) → IsOldBuf n from }
    requires lengths { (n : ℕ) → AreOld n lengths.now }
    ensures given { IfOk result (λ x. AreGiven (stepper_scope x.from x.base x.strides) b.new) }
    ensures blocks { OnOk result (b.new.outer ≡ b.old.outer) }
    ensures kept { IsKept b.old b.new }
{
    let x = of_buffer(alloc, b, from, lengths)?;
    Ok(x)
}
