//! Each scalar function on each pair of numbers at the edges, as emitted and as `aplc_scalar` computes it.
//! It must not take an expected value from a run.

use crate::carrying::carries_out;
use crate::scalars::{
    DYADIC, MONADIC, dyad_program, dyad_runs, is_monadic, mono_program, mono_runs,
};
use aplc_scalar::ScalarFn;
use std::alloc::Global;
use std::process::Abort;
use std::test::Fail;

fn dyadic(rt: &impl Abort, alloc: Global, f: ScalarFn) -> Result<(), Fail> {
    assert!(rt; f != ScalarFn::Not);
    for run in &dyad_runs(alloc, f)? {
        carries_out(rt, alloc, dyad_program(alloc, f)?, run, 100_000)?;
    }
    Ok(())
}

#[test]
fn dyadic_functions(rt: HostRuntime) -> Result<(), Fail> {
    for f in DYADIC {
        dyadic(&rt, rt.alloc(), f)?;
    }
    Ok(())
}

fn monadic(rt: &impl Abort, alloc: Global, f: ScalarFn) -> Result<(), Fail> {
    assert!(rt; is_monadic(f));
    for run in &mono_runs(alloc, f)? {
        carries_out(rt, alloc, mono_program(alloc, f)?, run, 1000)?;
    }
    Ok(())
}

#[test]
fn monadic_functions(rt: HostRuntime) -> Result<(), Fail> {
    for f in MONADIC {
        monadic(&rt, rt.alloc(), f)?;
    }
    Ok(())
}
