//! Programs that fill a buffer with the elements of an array that they read, and what their runs come to.
//! It must not take an expected value from a run.

ghost use Rattle.std.specs.Prelude.{◌≡◌, ℕ, OnOk};
ghost use Rattle.aplc_cprof.specs.Frames.{AreOld};

use crate::arrays::{axes, read_lengths, stepper};
use crate::building::{COUNT, LEFT, LEFTS, MADE, RIGHT, RIGHTS, program_of, put_line, take};
use crate::running::{Run, put_number};
use aplc_collect::{Dyad, ScalarElement};
use aplc_cprof::{Builder, CExpr, CProgram, CStmt, Int};
use aplc_fill::fill;
use aplc_scalar::{FaultKind, ScalarFn};
use std::alloc::{AllocError, Global};

/// Each element is the left one plus the right one, where the right one is a truth value. So LIMIT comes of two places,
/// and DOMAIN of the right one.
fn fill_elements(alloc: Global, b: &mut Builder, lengths: &[Int]) -> Result<(), AllocError>
    requires { (n : ℕ) → AreOld n lengths.now }
    ensures { OnOk result (b.new.outer ≡ b.old.outer) }
{
    b.emit(CStmt::Set(LEFT, CExpr::Lit(1)))?;
    let left = stepper(alloc, b, LEFTS, lengths)?;
    let right = stepper(alloc, b, RIGHTS, lengths)?;
    let mut code = Dyad {
        f: ScalarFn::Add,
        left,
        right: Dyad {
            f: ScalarFn::And,
            left: ScalarElement { variable: LEFT },
            right,
        },
    };
    fill(alloc, b, lengths, &mut code, MADE)
}

fn write_elements(alloc: Global, b: &mut Builder) -> Result<(), AllocError>
    ensures { OnOk result (b.new.outer ≡ b.old.outer) }
{
    let i = b.begin_loop()?;
    take(alloc, b, RIGHT, MADE, i)?;
    put_line(b, RIGHT)?;
    b.end_loop(alloc, i, COUNT)
}

/// Reads the number of elements and the lengths, the left numbers and the right ones, fills a buffer with the elements,
/// and writes it.
pub fn fill_program(alloc: Global, rank: usize) -> Result<CProgram, AllocError> {
    let lengths = axes(rank);
    let mut b = Builder::new(alloc);
    read_lengths(alloc, &mut b, lengths)?;
    b.emit(CStmt::ReadNums(LEFTS))?;
    b.emit(CStmt::ReadNums(RIGHTS))?;
    b.emit(CStmt::Cells(MADE, CExpr::Var(COUNT)))?;
    fill_elements(alloc, &mut b, lengths)?;
    write_elements(alloc, &mut b)?;
    program_of(alloc, b.finish())
}

/// Lengths of arrays with elements.
fn shape(rank: usize) -> &'static [u32] {
    match rank {
        0 => &[],
        1 => &[5],
        2 => &[2, 3],
        3 => &[3, 2, 2],
        4 => &[2, 1, 3, 2],
        5 => &[2, 3, 1, 2, 2],
        6 => &[1, 2, 2, 3, 1, 2],
        7 => &[2, 1, 2, 1, 2, 1, 3],
        _ => &[2, 2, 1, 2, 2, 3, 1, 2],
    }
}

/// How many elements they have.
fn count(rank: usize) -> u32 {
    match rank {
        0 => 1,
        1 => 5,
        2 => 6,
        3 => 12,
        4 => 12,
        5 => 24,
        6 => 24,
        7 => 24,
        _ => 96,
    }
}

/// The left side and the right side of an element that faults.
fn faulty(kind: FaultKind) -> (i64, i64) {
    match kind {
        FaultKind::Limit => (i64::MAX, 1),
        _ => (0, 2),
    }
}

fn other(kind: FaultKind) -> FaultKind {
    match kind {
        FaultKind::Limit => FaultKind::Domain,
        _ => FaultKind::Limit,
    }
}

/// The sides of the element at a place, where the one at `bad` and all behind it fault: that one so, and those otherwise.
fn sides(place: u32, bad: u32, kind: FaultKind) -> (i64, i64) {
    if place == bad {
        return faulty(kind);
    }
    if place > bad {
        return faulty(other(kind));
    }
    (i64::from(place) * 7 - 20, i64::from(place % 2))
}

fn lengths_line(alloc: Global, rank: usize) -> Result<String, AllocError> {
    let mut line = format!(in alloc; "{}", count(rank))?;
    for length in shape(rank) {
        write!(line, " {length}")?;
    }
    line.push('\n')?;
    Ok(line)
}

/// The run in which the element at `bad` is the first that faults.
fn run_of(alloc: Global, rank: usize, bad: u32, kind: FaultKind) -> Result<Run, AllocError> {
    let elements = count(rank);
    let mut lefts = String::new(alloc);
    let mut rights = String::new(alloc);
    let mut out = String::new(alloc);
    for place in 0..elements {
        let (left, right) = sides(place, bad, kind);
        write!(lefts, "{left} ")?;
        write!(rights, "{right} ")?;
        if bad >= elements {
            put_number(&mut out, left.saturating_add(right))?;
            out.push('\n')?;
        }
    }
    let lengths = lengths_line(alloc, rank)?;
    let input = format!(in alloc; "{lengths}{lefts}\n{rights}\n")?;
    let fault = if bad < elements { Some(kind) } else { None };
    Ok(Run { input, out, fault })
}

/// No fault; and one in the first, a middle and the last place.
pub fn fill_runs(alloc: Global, rank: usize) -> Result<Vec<Run>, AllocError> {
    let elements = count(rank);
    let mut runs = Vec::new(alloc);
    runs.push(run_of(alloc, rank, elements, FaultKind::Limit)?)?;
    for bad in [0, elements / 2, elements.saturating_sub(1)] {
        runs.push(run_of(alloc, rank, bad, FaultKind::Limit)?)?;
        runs.push(run_of(alloc, rank, bad, FaultKind::Domain)?)?;
    }
    Ok(runs)
}

/// A line of lengths, of which one is 0.
fn empty_line(alloc: Global, rank: usize, none: usize, rest: u32) -> Result<String, AllocError> {
    let mut line = String::from_str(alloc, "0")?;
    for axis in 0..rank {
        let length = if axis == none { 0 } else { rest };
        write!(line, " {length}")?;
    }
    line.push_str("\n\n\n")?;
    Ok(line)
}

/// Arrays without elements: a length 0 in each place, beside 3 and beside the greatest length.
pub fn empty_runs(alloc: Global, rank: usize) -> Result<Vec<Run>, AllocError> {
    let mut runs = Vec::new(alloc);
    for none in 0..rank {
        for rest in [3, 2147483647] {
            runs.push(Run {
                input: empty_line(alloc, rank, none, rest)?,
                out: String::new(alloc),
                fault: None,
            })?;
        }
    }
    Ok(runs)
}
