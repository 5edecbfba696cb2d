//! Arrays that emitted code displays.
//! It must not take an expected text from a run.

use crate::carrying::carries_out;
use crate::display_cases::{CASES, Case};
use crate::displays::{display_program, display_run};
use std::alloc::Global;
use std::process::Abort;
use std::test::Fail;

/// What is held at the end are the elements that were read.
fn displays(rt: &impl Abort, alloc: Global, case: &Case<'_>) -> Result<(), Fail> {
    let program = display_program(alloc, case.kind, case.shape.len())?;
    let run = display_run(alloc, case)?;
    let held = carries_out(rt, alloc, program, &run, 100_000)?;
    assert_eq!(rt; held, case.cells.len() as u128);
    Ok(())
}

#[test]
fn texts_by_code(rt: HostRuntime) -> Result<(), Fail> {
    for case in &CASES {
        displays(&rt, rt.alloc(), case)?;
    }
    Ok(())
}
