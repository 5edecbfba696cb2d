//! Carries out programs that are built.
//! It must not know how a program is built, nor what it computes.

use crate::formed::is_well_formed;
use crate::running::Run;
use aplc_cprof::CProgram;
use aplc_crun::{Machine, RunStop};
use aplc_io::{MemSink, MemSource};
use std::alloc::Global;
use std::process::Abort;
use std::test::Fail;

/// Carries a program out, in at most so many steps. It gives how many cells are held at the end.
pub fn carries_out(
    rt: &impl Abort,
    alloc: Global,
    program: CProgram,
    run: &Run,
    budget: u32,
) -> Result<u128, Fail> {
    assert!(rt; is_well_formed(&program));
    let mut machine = Machine::start(alloc, program)?;
    let bytes = Vec::from_slice(alloc, run.input.as_bytes())?;
    let mut input = MemSource::new(bytes, Vec::new(alloc));
    let mut out = MemSink::new(alloc, 1 << 20, Vec::new(alloc))?;
    let answer = machine.run(&mut input, &mut out, u64::from(budget));
    let expected = match run.fault {
        None => Ok(()),
        Some(kind) => Err(RunStop::Fault(kind)),
    };
    assert_eq!(rt; answer, expected, "on {}", run.input);
    assert_eq!(rt; out.bytes(), run.out.as_bytes(), "on {}", run.input);
    Ok(machine.cells())
}
