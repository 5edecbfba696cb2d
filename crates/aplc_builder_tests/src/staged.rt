//! Programs that make values in memory of others that they read, and display what they made.
//! It must not know which values they are given, nor what comes of them.

ghost use Rattle.std.specs.Prelude.{◌≡◌, ◌≤◌, ℕ, true, IfOk, IsTrue, OnOk, length};
ghost use Rattle.aplc_scalar.specs.Scalar.{is_monadic};
ghost use Rattle.aplc_arr.specs.Each.{is_equality, kinds_suit, ranks_suit};
ghost use Rattle.aplc_cprof.specs.Blocks.{Blocks, IsKept};
ghost use Rattle.aplc_cprof.specs.Frames.{AreGiven, AreOld, IsOld, IsOldBuf};
ghost use Rattle.aplc_stage.specs.Staged.{IsRanked, rank_of, scope_of_staged};

use crate::arrays::read_lengths;
use crate::building::{LEFT, LEFTS, RIGHT, RIGHTS, program_of};
use aplc_cprof::{Buf, Builder, CExpr, CProgram, CStmt, Int, List};
use aplc_scalar::{Kind, ScalarFn};
use aplc_stage::{Staged, copy_staged, free_staged, held_dyad, held_mono, show_staged};
use aplc_step::Origin;
use sqlite_items::Boxed;
use std::alloc::{AllocError, Global};

/// Whether the function takes characters too.
fn is_equality(f: ScalarFn) -> bool
    ensures { result ≡ is_equality f }
{
    match f {
        ScalarFn::Equal | ScalarFn::NotEqual => true,
        _ => false,
    }
}

/// Whether the function takes these kinds.
pub(crate) fn kinds_suit(f: ScalarFn, left: Kind, right: Kind) -> bool
    ensures { result ≡ kinds_suit f left right }
{
    match left {
        Kind::Num => match right {
            Kind::Num => f != ScalarFn::Not,
            Kind::Char => is_equality(f),
        },
        Kind::Char => is_equality(f),
    }
}

/// Whether arrays of these ranks go together.
pub(crate) fn ranks_suit(left: usize, right: usize) -> bool
    ensures { result ≡ ranks_suit left right }
{
    left == 0 || right == 0 || left == right
}

/// What was read stands in a variable.
fn read_scalar(
    alloc: Global,
    b: &mut Builder,
    scalar: Int,
    cells: Buf,
) -> Result<Staged, AllocError>
    requires name { (n : ℕ) → IsOld n scalar }
    ensures ranked { IfOk result (λ x. IsRanked x) }
    ensures rank { IfOk result (λ x. rank_of x ≡ 0) }
    ensures given { IfOk result (λ x. (c : Blocks) → AreGiven (scope_of_staged x) c) }
    ensures blocks { OnOk result (b.new.outer ≡ b.old.outer) }
{
    let first = Boxed::new(alloc, CExpr::Lit(0))?;
    b.emit(CStmt::Set(scalar, CExpr::Cell(cells, first)))?;
    b.emit(CStmt::Free(cells))?;
    Ok(Staged::Scalar(scalar))
}

/// What was read stays in its buffer.
fn read_cells(alloc: Global, cells: Buf, lengths: &[Int]) -> Result<Staged, AllocError>
    requires buffer { (n : ℕ) → IsOldBuf n cells }
    requires lengths { (n : ℕ) → AreOld n lengths.now }
    requires some { 1 ≤ length lengths.now }
    ensures ranked { IfOk result (λ x. IsRanked x) }
    ensures rank { IfOk result (λ x. rank_of x ≡ length lengths.now) }
    ensures given { IfOk result (λ x. (c : Blocks) → AreGiven (scope_of_staged x) c) }
{
    let lengths = Vec::from_slice(alloc, lengths)?;
    Ok(Staged::Cells(Origin::Buffer(cells), List::from_vec(lengths)))
}

/// Reads an array: its lengths, and its elements.
fn read_staged(
    alloc: Global,
    b: &mut Builder,
    scalar: Int,
    cells: Buf,
    lengths: &[Int],
) -> Result<Staged, AllocError>
    requires name { (n : ℕ) → IsOld n scalar }
    requires buffer { (n : ℕ) → IsOldBuf n cells }
    requires lengths { (n : ℕ) → AreOld n lengths.now }
    ensures ranked { IfOk result (λ x. IsRanked x) }
    ensures rank { IfOk result (λ x. rank_of x ≡ length lengths.now) }
    ensures given { IfOk result (λ x. (c : Blocks) → AreGiven (scope_of_staged x) c) }
    ensures blocks { OnOk result (b.new.outer ≡ b.old.outer) }
{
    read_lengths(alloc, b, lengths)?;
    b.emit(CStmt::ReadNums(cells))?;
    match lengths {
        [_, ..] => read_cells(alloc, cells, lengths),
        [] => read_scalar(alloc, b, scalar, cells),
    }
}

/// Frees a value that was just made.
fn free_made(b: &mut Builder, made: &Staged, freed: bool) -> Result<(), AllocError>
    requires ranked { IsRanked made.now }
    requires given { AreGiven (scope_of_staged made.now) b.old }
    ensures blocks { OnOk result (b.new.outer ≡ b.old.outer) }
{
    if freed {
        return free_staged(b, made);
    }
    Ok(())
}

/// Displays a value, and frees it if that is wanted.
fn display_made(
    alloc: Global,
    b: &mut Builder,
    kind: Kind,
    made: &Staged,
    freed: bool,
) -> Result<(), AllocError>
    requires ranked { IsRanked made.now }
    requires given { AreGiven (scope_of_staged made.now) b.old }
    ensures blocks { OnOk result (b.new.outer ≡ b.old.outer) }
{
    show_staged(alloc, b, kind, made)?;
    free_made(b, made, freed)
}

/// The function of two values, which are freed.
fn make_dyad(
    alloc: Global,
    b: &mut Builder,
    f: ScalarFn,
    left_kind: Kind,
    left: &Staged,
    right_kind: Kind,
    right: &Staged,
) -> Result<Staged, AllocError>
    requires kinds { kinds_suit f left_kind right_kind ≡ true }
    requires ranks { ranks_suit (rank_of left.now) (rank_of right.now) ≡ true }
    requires left { IsRanked left.now }
    requires right { IsRanked right.now }
    requires given_left { (c : Blocks) → AreGiven (scope_of_staged left.now) c }
    requires given_right { (c : Blocks) → AreGiven (scope_of_staged right.now) c }
    ensures ranked { IfOk result (λ x. IsRanked x) }
    ensures given { IfOk result (λ x. AreGiven (scope_of_staged x) b.new) }
    ensures blocks { OnOk result (b.new.outer ≡ b.old.outer) }
{
    let made = held_dyad(alloc, b, f, left_kind, left, right_kind, right)?;
    free_staged(b, left)?;
    free_staged(b, right)?;
    Ok(made)
}

/// Reads two arrays, displays the function of them, and frees all but the result; that too if it is wanted.
pub fn staged_dyad(
    alloc: Global,
    f: ScalarFn,
    left_kind: Kind,
    left_lengths: &[Int],
    right_kind: Kind,
    right_lengths: &[Int],
    freed: bool,
) -> Result<CProgram, AllocError>
    requires kinds { kinds_suit f left_kind right_kind ≡ true }
    requires ranks { ranks_suit (length left_lengths.now) (length right_lengths.now) ≡ true }
    requires left { (n : ℕ) → AreOld n left_lengths.now }
    requires right { (n : ℕ) → AreOld n right_lengths.now }
{
    let mut b = Builder::new(alloc);
    let left = read_staged(alloc, &mut b, LEFT, LEFTS, left_lengths)?;
    let right = read_staged(alloc, &mut b, RIGHT, RIGHTS, right_lengths)?;
    let made = make_dyad(alloc, &mut b, f, left_kind, &left, right_kind, &right)?;
    display_made(alloc, &mut b, Kind::Num, &made, freed)?;
    program_of(alloc, b.finish())
}

fn make_mono(
    alloc: Global,
    b: &mut Builder,
    f: ScalarFn,
    argument: &Staged,
) -> Result<Staged, AllocError>
    requires form { IsTrue (is_monadic f) }
    requires ranked { IsRanked argument.now }
    requires given { (c : Blocks) → AreGiven (scope_of_staged argument.now) c }
    ensures ranked { IfOk result (λ x. IsRanked x) }
    ensures given { IfOk result (λ x. AreGiven (scope_of_staged x) b.new) }
    ensures blocks { OnOk result (b.new.outer ≡ b.old.outer) }
{
    let made = held_mono(alloc, b, f, argument)?;
    free_staged(b, argument)?;
    Ok(made)
}

/// The same of one array.
pub fn staged_mono(
    alloc: Global,
    f: ScalarFn,
    lengths: &[Int],
    freed: bool,
) -> Result<CProgram, AllocError>
    requires form { IsTrue (is_monadic f) }
    requires lengths { (n : ℕ) → AreOld n lengths.now }
{
    let mut b = Builder::new(alloc);
    let argument = read_staged(alloc, &mut b, LEFT, LEFTS, lengths)?;
    let made = make_mono(alloc, &mut b, f, &argument)?;
    display_made(alloc, &mut b, Kind::Num, &made, freed)?;
    program_of(alloc, b.finish())
}

fn make_copy(alloc: Global, b: &mut Builder, value: &Staged) -> Result<Staged, AllocError>
    requires ranked { IsRanked value.now }
    requires given { (c : Blocks) → AreGiven (scope_of_staged value.now) c }
    ensures ranked { IfOk result (λ x. IsRanked x) }
    ensures given { IfOk result (λ x. AreGiven (scope_of_staged x) b.new) }
    ensures blocks { OnOk result (b.new.outer ≡ b.old.outer) }
{
    let made = copy_staged(alloc, b, value)?;
    free_staged(b, value)?;
    Ok(made)
}

/// The same of a copy, which is displayed when what it was copied from is freed.
pub fn staged_copy(
    alloc: Global,
    kind: Kind,
    lengths: &[Int],
    freed: bool,
) -> Result<CProgram, AllocError>
    requires lengths { (n : ℕ) → AreOld n lengths.now }
{
    let mut b = Builder::new(alloc);
    let value = read_staged(alloc, &mut b, LEFT, LEFTS, lengths)?;
    let made = make_copy(alloc, &mut b, &value)?;
    display_made(alloc, &mut b, kind, &made, freed)?;
    program_of(alloc, b.finish())
}
