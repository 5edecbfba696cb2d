//! Buffers that emitted code fills, at each rank.
//! It must not take an expected value from a run.

use crate::carrying::carries_out;
use crate::fills::{empty_runs, fill_program, fill_runs};
use std::test::Fail;

#[test]
fn elements_and_first_faults(rt: HostRuntime) -> Result<(), Fail> {
    let alloc = rt.alloc();
    for rank in 0..9 {
        for run in &fill_runs(alloc, rank)? {
            carries_out(&rt, alloc, fill_program(alloc, rank)?, run, 10_000)?;
        }
    }
    Ok(())
}

/// Without elements no loop is turned: what stands before and behind the loops takes at most 3 steps an axis and 19 more.
#[test]
fn no_elements(rt: HostRuntime) -> Result<(), Fail> {
    let alloc = rt.alloc();
    for rank in 1..9 {
        for run in &empty_runs(alloc, rank)? {
            carries_out(&rt, alloc, fill_program(alloc, rank)?, run, 43)?;
        }
    }
    Ok(())
}
