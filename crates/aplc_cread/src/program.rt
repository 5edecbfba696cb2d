//! Reads programs.
//! It must not know why a text is refused.

ghost use Rattle.std.specs.Prelude.{◌≡◌, ◌<◌};
ghost use Rattle.aplc_cread.specs.Reading.{Reads, Any};
ghost use Rattle.aplc_cread.specs.Refusal.{Program};
ghost use Rattle.aplc_cread.specs.Programs.{Preambled, whole_of};

use crate::answer::Mode;
use crate::below::{Code, globals_behind, heading};
use crate::lexical::{Halt, literal};
use crate::table::table;
use aplc_cprof::{CProgram, List, preamble_bytes};
use std::alloc::Global;

fn with_tables(tables: List<List<i64>>, code: Code) -> CProgram
    ensures { result ≡ whole_of (tables, code) }
{
    let Code {
        ints,
        bufs,
        functions,
    } = code;
    CProgram {
        tables,
        ints,
        bufs,
        functions,
    }
}

/// A program behind the preamble.
fn preambled(alloc: Global, mode: Mode, input: &[u8]) -> Result<(CProgram, &[u8]), Halt>
    ensures { Reads Any (Preambled mode) input.now result }
{
    let mut tables = Vec::new(alloc);
    let mut number: u32 = 0;
    let mut rest = input;
    'tables: loop {
        let (i, behind) = heading(number < u32::MAX, true, true, rest)?;
        if i < 3 {
            let (code, end) = globals_behind(alloc, mode, number, i, behind)?;
            return Ok((with_tables(List::from_vec(tables), code), end));
        }
        let (table, next) = table(alloc, u64::from(number), behind)?;
        tables.push(table)?;
        number += 1;
        rest = next;
    }
}

/// A program's text, and what is behind it.
pub(crate) fn program(alloc: Global, mode: Mode, input: &[u8]) -> Result<(CProgram, &[u8]), Halt>
    ensures { Reads Any (Program mode) input.now result }
{
    let rest = literal(preamble_bytes(), input)?;
    preambled(alloc, mode, rest)
}
