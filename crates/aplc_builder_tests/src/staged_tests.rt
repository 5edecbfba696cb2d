//! Functions of values in memory: what they give, their faults, and what is held when they are done.
//! It must not take an expected value from a run.

use crate::carrying::carries_out;
use crate::staged_cases::{
    COPIES, Case, EQUAL_SHAPES, FAULTY, MONADS, ONE_ELEMENT, OTHER_LENGTHS, Outcome, SCALAR_BESIDE,
};
use crate::staged_runs::{staged_program, staged_run};
use std::alloc::Global;
use std::process::Abort;
use std::test::Fail;

/// Where the result is freed nothing is held at the end, else just its cells.
fn comes(rt: &impl Abort, alloc: Global, case: &Case<'_>, freed: bool) -> Result<(), Fail> {
    let program = staged_program(alloc, &case.making, freed)?.expect(rt, "it takes these");
    let run = staged_run(alloc, case)?;
    let held = carries_out(rt, alloc, program, &run, 10_000)?;
    if let Outcome::Shown(_, cells) = case.outcome {
        assert_eq!(rt; held, u128::from(if freed { 0 } else { cells }));
    }
    Ok(())
}

fn all_come(rt: &impl Abort, alloc: Global, cases: &[Case<'_>]) -> Result<(), Fail> {
    for case in cases {
        comes(rt, alloc, case, false)?;
        comes(rt, alloc, case, true)?;
    }
    Ok(())
}

#[test]
fn equal_shapes(rt: HostRuntime) -> Result<(), Fail> {
    all_come(&rt, rt.alloc(), &EQUAL_SHAPES)
}

#[test]
fn scalars_beside_arrays(rt: HostRuntime) -> Result<(), Fail> {
    all_come(&rt, rt.alloc(), &SCALAR_BESIDE)
}

#[test]
fn arrays_of_one_element(rt: HostRuntime) -> Result<(), Fail> {
    all_come(&rt, rt.alloc(), &ONE_ELEMENT)
}

#[test]
fn shapes_that_do_not_conform(rt: HostRuntime) -> Result<(), Fail> {
    all_come(&rt, rt.alloc(), &OTHER_LENGTHS)
}

#[test]
fn elements_that_fault(rt: HostRuntime) -> Result<(), Fail> {
    all_come(&rt, rt.alloc(), &FAULTY)
}

#[test]
fn functions_of_one_argument(rt: HostRuntime) -> Result<(), Fail> {
    all_come(&rt, rt.alloc(), &MONADS)
}

#[test]
fn copies(rt: HostRuntime) -> Result<(), Fail> {
    all_come(&rt, rt.alloc(), &COPIES)
}
