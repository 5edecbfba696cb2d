//! Reads what stands below the tables: global variables, prototypes and functions.
//! It must not know tables.

ghost use Rattle.std.specs.Prelude.{◌≡◌, ◌<◌};
ghost use Rattle.aplc_cread.specs.Reading.{Reads, Any, OneOf, first};
ghost use Rattle.aplc_cread.specs.Programs.{FunctionsOn, Prototyped, is_last as is_last_code, headings, heading_may, BuffersBehind, Buffers, GlobalsBehind};

use crate::answer::Mode;
use crate::function::{Counts, function};
use crate::lexical::{Halt, literal, one_of, split};
use crate::listing::{more_names, numbered};
use aplc_cprof::{CFunction, List, tail_bytes};
use std::alloc::Global;

/// A program without its tables.
#[derive(Drop)]
pub(crate) struct Code {
    pub(crate) ints: u32,
    pub(crate) bufs: u32,
    pub(crate) functions: List<CFunction>,
}

/// Behind the first line of the first function: the functions and the tail.
fn functions(
    alloc: Global,
    mode: Mode,
    counts: Counts,
    input: &[u8],
) -> Result<(List<CFunction>, &[u8]), Halt>
    requires some { 0 < counts.functions }
    ensures { Reads Any (FunctionsOn mode counts 1 counts.functions) input.now result }
{
    let mut functions = Vec::new(alloc);
    let (first, behind) = function(alloc, mode, counts, input)?;
    functions.push(first)?;
    let mut number: u32 = 1;
    let mut rest = behind;
    'functions: while number < counts.functions {
        let line = numbered(b"static void f", u64::from(number), b"(void) {\n", rest)?;
        let (other, next) = function(alloc, mode, counts, line)?;
        functions.push(other)?;
        number += 1;
        rest = next;
    }
    let end = literal(tail_bytes(), rest)?;
    Ok((List::from_vec(functions), end))
}

/// Whether so many prototypes are all, where the number of a function stands there.
fn is_last(count: u32, input: &[u8]) -> bool
    ensures { result ≡ is_last_code count (first input.now) }
{
    let zero = match split(input) {
        None => false,
        Some((c, _)) => c == b'0',
    };
    zero || count == u32::MAX
}

/// Prototypes from the second on, the functions and the tail.
fn prototypes(
    alloc: Global,
    mode: Mode,
    tables: u32,
    ints: u32,
    bufs: u32,
    input: &[u8],
) -> Result<(List<CFunction>, &[u8]), Halt>
    ensures { Reads Any (Prototyped mode tables ints bufs 1) input.now result }
{
    let mut count: u32 = 1;
    let mut rest = input;
    'prototypes: loop {
        let behind = literal(b"static void f", rest)?;
        if is_last(count, behind) {
            let line = literal(b"0(void) {\n", behind)?;
            let counts = Counts {
                tables,
                ints,
                bufs,
                functions: count,
            };
            return functions(alloc, mode, counts, line);
        }
        rest = numbered(b"", u64::from(count), b"(void);\n", behind)?;
        count += 1;
    }
}

/// What a line at the top of a text begins with. A prototype may always stand there.
pub(crate) fn heading(
    tables: bool,
    ints: bool,
    bufs: bool,
    input: &[u8],
) -> Result<(usize, &[u8]), Halt>
    ensures { Reads Any (OneOf headings (heading_may tables ints bufs)) input.now result }
{
    one_of(
        &[
            b"static void f0(void);\n",
            b"static int64_t *h0",
            b"static int64_t g0",
            b"static const int64_t k",
        ],
        &[true, bufs, ints, tables],
        input,
    )
}

/// Behind the first prototype, or behind the name of the first buffer, by the number of that heading.
fn buffers_behind(
    alloc: Global,
    mode: Mode,
    tables: u32,
    ints: u32,
    number: usize,
    input: &[u8],
) -> Result<(Code, &[u8]), Halt>
    ensures { Reads Any (BuffersBehind mode tables ints number) input.now result }
{
    if number == 0 {
        let (functions, rest) = prototypes(alloc, mode, tables, ints, 0, input)?;
        return Ok((
            Code {
                ints,
                bufs: 0,
                functions,
            },
            rest,
        ));
    }
    let (bufs, rest) = more_names(b"*h", b"", input)?;
    let rest = literal(b"static void f0(void);\n", rest)?;
    let (functions, rest) = prototypes(alloc, mode, tables, ints, bufs, rest)?;
    Ok((
        Code {
            ints,
            bufs,
            functions,
        },
        rest,
    ))
}

/// Behind the line that declares so many whole variables.
fn buffers(
    alloc: Global,
    mode: Mode,
    tables: u32,
    ints: u32,
    input: &[u8],
) -> Result<(Code, &[u8]), Halt>
    ensures { Reads Any (Buffers mode tables ints) input.now result }
{
    let (i, rest) = heading(false, false, true, input)?;
    buffers_behind(alloc, mode, tables, ints, i, rest)
}

/// Behind a heading that ends the tables, by its number.
pub(crate) fn globals_behind(
    alloc: Global,
    mode: Mode,
    tables: u32,
    number: usize,
    input: &[u8],
) -> Result<(Code, &[u8]), Halt>
    requires within { number < 3 }
    ensures { Reads Any (GlobalsBehind mode tables number) input.now result }
{
    if number < 2 {
        return buffers_behind(alloc, mode, tables, 0, number, input);
    }
    let (ints, rest) = more_names(b"g", b"", input)?;
    buffers(alloc, mode, tables, ints, rest)
}
