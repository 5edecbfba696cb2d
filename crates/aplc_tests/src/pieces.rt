//! Texts made of pieces, for several tests.
//! It must not know what is tested by them.

ghost use Rattle.std.specs.Prelude.{IfOk};
ghost use Rattle.aplc_cprof.specs.WellFormed.{IsWellFormed};

use aplc_cprof::{CProgram, preamble_bytes, tail_bytes};
use aplc_cread::read;
use std::alloc::Global;
use std::test::Fail;

/// One piece so many times.
pub fn times(alloc: Global, piece: &str, count: usize) -> Result<String, Fail> {
    let mut out = String::new(alloc);
    for _ in 0..count {
        out.push_str(piece)?;
    }
    Ok(out)
}

/// The program of the C text that has this between its preamble and its tail.
pub fn program_of(alloc: Global, functions: &str) -> Result<CProgram, Fail>
    ensures { IfOk result IsWellFormed }
{
    let mut text = Vec::from_slice(alloc, preamble_bytes())?;
    text.extend_from_slice(functions.as_bytes())?;
    text.extend_from_slice(tail_bytes())?;
    let program = read(alloc, text.as_slice())?;
    Ok(program)
}
