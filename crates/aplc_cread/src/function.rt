//! Reads functions.
//! It must not know what stands around them.

ghost use Rattle.std.specs.Prelude.{◌≡◌, ◌<◌, get_or, true, false};
ghost use Rattle.aplc_cread.specs.Reading.{Reads, Any};
ghost use Rattle.aplc_cread.specs.Exprs.{AreSmall, scope};
ghost use Rattle.aplc_cread.specs.Stmts.{opening_may};
ghost use Rattle.aplc_cread.specs.Functions.{scope_in, Function, Declared, WithBufs, Opened};

use crate::answer::Mode;
use crate::block::{block_behind, block_then, opening};
use crate::expr::Names;
use crate::lexical::{Halt, literal};
use crate::listing::more_names;
use aplc_cprof::CFunction;
use std::alloc::Global;

/// How many tables, global variables and functions a program has.
#[derive(Clone, Copy)]
pub(crate) struct Counts {
    pub(crate) tables: u32,
    pub(crate) ints: u32,
    pub(crate) bufs: u32,
    pub(crate) functions: u32,
}

const ALL: u64 = 1 << 32;

/// The names that a function with so many variables may use.
fn names_of(mode: Mode, counts: Counts, ints: u32, bufs: u32) -> Names
    requires some { 0 < counts.functions }
    ensures scope { scope result ≡ scope_in mode.free counts ints bufs }
    ensures small { AreSmall result }
{
    if mode.free {
        return Names {
            ints: ALL,
            bufs: ALL,
            global_ints: ALL,
            global_bufs: ALL,
            tables: ALL,
            functions: ALL,
        };
    }
    Names {
        ints: u64::from(ints),
        bufs: u64::from(bufs),
        global_ints: u64::from(counts.ints),
        global_bufs: u64::from(counts.bufs),
        tables: u64::from(counts.tables),
        functions: u64::from(counts.functions),
    }
}

/// Behind the name of the first buffer.
fn with_bufs(
    alloc: Global,
    mode: Mode,
    counts: Counts,
    ints: u32,
    input: &[u8],
) -> Result<(CFunction, &[u8]), Halt>
    requires some { 0 < counts.functions }
    ensures { Reads Any (WithBufs mode counts ints) input.now result }
{
    let (bufs, rest) = more_names(b"*b", b" = 0", input)?;
    let names = names_of(mode, counts, ints, bufs);
    let (body, rest) = block_then(alloc, names, mode.limit, b"\n", rest)?;
    Ok((CFunction { ints, bufs, body }, rest))
}

/// Behind a keyword or the name of the first buffer, by the number of that opening.
fn behind_opening(
    alloc: Global,
    mode: Mode,
    counts: Counts,
    ints: u32,
    number: usize,
    input: &[u8],
) -> Result<(CFunction, &[u8]), Halt>
    requires some { 0 < counts.functions }
    requires within { number < 17 }
    requires may { get_or (opening_may (scope_in mode.free counts ints 0) mode.limit true false) number false ≡ true }
    ensures { Reads Any (Opened mode counts ints number) input.now result }
{
    if number == 16 {
        return with_bufs(alloc, mode, counts, ints, input);
    }
    let names = names_of(mode, counts, ints, 0);
    let (body, rest) = block_behind(alloc, names, mode.limit, number, input)?;
    let rest = literal(b"\n", rest)?;
    Ok((
        CFunction {
            ints,
            bufs: 0,
            body,
        },
        rest,
    ))
}

/// Behind the line that declares so many whole variables.
fn declared(
    alloc: Global,
    mode: Mode,
    counts: Counts,
    ints: u32,
    input: &[u8],
) -> Result<(CFunction, &[u8]), Halt>
    requires some { 0 < counts.functions }
    ensures { Reads Any (Declared mode counts ints) input.now result }
{
    let names = names_of(mode, counts, ints, 0);
    let (i, rest) = opening(names, mode.limit, true, false, input)?;
    behind_opening(alloc, mode, counts, ints, i, rest)
}

/// A function behind its first line.
pub(crate) fn function(
    alloc: Global,
    mode: Mode,
    counts: Counts,
    input: &[u8],
) -> Result<(CFunction, &[u8]), Halt>
    requires some { 0 < counts.functions }
    ensures { Reads Any (Function mode counts) input.now result }
{
    let names = names_of(mode, counts, 0, 0);
    let (i, rest) = opening(names, mode.limit, true, true, input)?;
    if i != 17 {
        return behind_opening(alloc, mode, counts, 0, i, rest);
    }
    let (ints, rest) = more_names(b"v", b"", rest)?;
    declared(alloc, mode, counts, ints, rest)
}
