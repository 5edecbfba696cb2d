//! The programs of the cases of values in memory, and what their runs come to.
//! It must not take an expected value from a run.

use crate::arrays::{axes, other_axes};
use crate::running::Run;
use crate::scalars::is_monadic;
use crate::staged::{kinds_suit, ranks_suit, staged_copy, staged_dyad, staged_mono};
use crate::staged_cases::{Case, Making, Outcome, TABLES, Value};
use aplc_cprof::CProgram;
use aplc_scalar::ScalarFn;
use std::alloc::{AllocError, Global};

/// The program of a function of two arguments, if it takes such.
fn dyadic(
    alloc: Global,
    f: ScalarFn,
    left: &Value<'_>,
    right: &Value<'_>,
    freed: bool,
) -> Result<Option<CProgram>, AllocError> {
    let (left_kind, right_kind) = (left.kind(), right.kind());
    let lefts = axes(left.shape().len());
    let rights = other_axes(right.shape().len());
    if !kinds_suit(f, left_kind, right_kind) || !ranks_suit(lefts.len(), rights.len()) {
        return Ok(None);
    }
    let program = staged_dyad(alloc, f, left_kind, lefts, right_kind, rights, freed)?;
    Ok(Some(program))
}

/// The same of one argument.
fn monadic(
    alloc: Global,
    f: ScalarFn,
    argument: &Value<'_>,
    freed: bool,
) -> Result<Option<CProgram>, AllocError> {
    if !is_monadic(f) {
        return Ok(None);
    }
    let program = staged_mono(alloc, f, axes(argument.shape().len()), freed)?;
    Ok(Some(program))
}

/// The program of a case, which frees the result if that is wanted. There is none for arguments that the function does not take.
pub(crate) fn staged_program(
    alloc: Global,
    making: &Making<'_>,
    freed: bool,
) -> Result<Option<CProgram>, AllocError> {
    match making {
        Making::Dyadic(f, left, right) => dyadic(alloc, *f, left, right, freed),
        Making::Monadic(f, argument) => monadic(alloc, *f, argument, freed),
        Making::Copied(value) => {
            let lengths = axes(value.shape().len());
            let program = staged_copy(alloc, value.kind(), lengths, freed)?;
            Ok(Some(program))
        }
    }
}

/// The lines that are read for an array.
fn put_value(input: &mut String, value: &Value<'_>) -> Result<(), AllocError> {
    write!(input, "{}", value.cells().len())?;
    for length in value.shape() {
        write!(input, " {length}")?;
    }
    input.push('\n')?;
    for cell in value.cells() {
        write!(input, "{cell} ")?;
    }
    input.push('\n')
}

/// What a case comes to.
pub(crate) fn staged_run(alloc: Global, case: &Case<'_>) -> Result<Run, AllocError> {
    let mut input = String::new(alloc);
    match &case.making {
        Making::Dyadic(_, left, right) => {
            put_value(&mut input, left)?;
            put_value(&mut input, right)?;
        }
        Making::Monadic(_, value) | Making::Copied(value) => put_value(&mut input, value)?,
    }
    let (text, fault) = match case.outcome {
        Outcome::Shown(text, _) => (text, None),
        Outcome::Faulted(kind) => ("", Some(kind)),
    };
    let out = String::from_str(alloc, text)?;
    Ok(Run { input, out, fault })
}

fn put_programs(
    alloc: Global,
    programs: &mut Vec<(CProgram, Run)>,
    cases: &[Case<'_>],
) -> Result<(), AllocError> {
    for case in cases {
        if let Some(program) = staged_program(alloc, &case.making, true)? {
            programs.push((program, staged_run(alloc, case)?))?;
        }
    }
    Ok(())
}

/// The program of each case, which frees all that it makes, and its run.
pub fn staged_programs(alloc: Global) -> Result<Vec<(CProgram, Run)>, AllocError> {
    let mut programs = Vec::new(alloc);
    for cases in TABLES {
        put_programs(alloc, &mut programs, cases)?;
    }
    Ok(programs)
}
