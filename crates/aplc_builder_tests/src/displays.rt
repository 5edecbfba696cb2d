//! Programs that display an array that they read, and what their runs come to.
//! It must not take an expected text from a run.

ghost use Rattle.std.specs.Prelude.{◌≡◌, ℕ, OnOk};
ghost use Rattle.aplc_cprof.specs.Frames.{AreOld};

use crate::arrays::{axes, read_lengths, stepper};
use crate::building::{LEFTS, program_of};
use crate::display_cases::{CASES, Case};
use crate::running::Run;
use aplc_cprof::{Builder, CProgram, CStmt, Int};
use aplc_quad::show_code;
use aplc_scalar::Kind;
use std::alloc::{AllocError, Global};

fn display(alloc: Global, b: &mut Builder, kind: Kind, lengths: &[Int]) -> Result<(), AllocError>
    requires { (n : ℕ) → AreOld n lengths.now }
    ensures { OnOk result (b.new.outer ≡ b.old.outer) }
{
    let mut code = stepper(alloc, b, LEFTS, lengths)?;
    show_code(alloc, b, kind, lengths, &mut code)
}

/// Reads the number of elements and the lengths, and the elements, and displays the array.
pub fn display_program(alloc: Global, kind: Kind, rank: usize) -> Result<CProgram, AllocError> {
    let lengths = axes(rank);
    let mut b = Builder::new(alloc);
    read_lengths(alloc, &mut b, lengths)?;
    b.emit(CStmt::ReadNums(LEFTS))?;
    display(alloc, &mut b, kind, lengths)?;
    program_of(alloc, b.finish())
}

/// What a case comes to.
pub(crate) fn display_run(alloc: Global, case: &Case<'_>) -> Result<Run, AllocError> {
    let mut input = format!(in alloc; "{}", case.cells.len())?;
    for length in case.shape {
        write!(input, " {length}")?;
    }
    input.push('\n')?;
    for cell in case.cells {
        write!(input, "{cell} ")?;
    }
    input.push('\n')?;
    Ok(Run {
        input,
        out: String::from_str(alloc, case.text)?,
        fault: None,
    })
}

/// The cases of this kind and rank.
pub fn display_runs(alloc: Global, kind: Kind, rank: usize) -> Result<Vec<Run>, AllocError> {
    let mut runs = Vec::new(alloc);
    for case in &CASES {
        if case.kind == kind && case.shape.len() == rank {
            runs.push(display_run(alloc, case)?)?;
        }
    }
    Ok(runs)
}
