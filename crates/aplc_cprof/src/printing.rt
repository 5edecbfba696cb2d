//! Writes a program as a C text.
//! It must not know what a program means.

ghost use Rattle.std.specs.Prelude.{◌≡◌, ◌++◌, ◌<◌, OnOk, IfOk, codes, decimal, length};
ghost use Rattle.aplc_cprof.specs.Text.{listed, declaration, local_int, local_buf, global_int, global_buf, more_numbers, numbers_text, table_text, tables_text, prototypes_text, function_text, functions_text, program_text};
ghost use Rattle.aplc_cprof.specs.WellFormed.{IsWellFormed};

use crate::expressions::{put, put_number, put_signed};
use crate::preamble::{preamble_bytes, tail_bytes};
use crate::statements::put_stmts;
use crate::{CFunction, CProgram, List};
use std::alloc::{AllocError, Global};

fn put_name(out: &mut Vec<u8>, before: &[u8], k: u32, after: &[u8]) -> Result<(), AllocError>
    ensures { OnOk result (out.new.items ≡ out.old.items ++ (before.now ++ decimal k ++ after.now)) }
{
    put(out, before)?;
    put_number(out, k as u64)?;
    put(out, after)
}

/// The names 0 to `count` - 1, each a number between two texts.
fn put_names(out: &mut Vec<u8>, before: &[u8], after: &[u8], count: u32) -> Result<(), AllocError>
    requires { 0 < count }
    ensures { OnOk result (out.new.items ≡ out.old.items ++ listed (λ k. before.now ++ decimal k ++ after.now) count) }
{
    put_name(out, before, 0, after)?;
    for k in 1..count {
        put(out, b", ")?;
        put_name(out, before, k, after)?;
    }
    Ok(())
}

/// A line that declares `count` variables, where there are any.
fn put_declaration(
    out: &mut Vec<u8>,
    head: &[u8],
    before: &[u8],
    after: &[u8],
    count: u32,
) -> Result<(), AllocError>
    ensures { OnOk result (out.new.items ≡ out.old.items ++ declaration head.now (λ k. before.now ++ decimal k ++ after.now) count) }
{
    if count == 0 {
        return Ok(());
    }
    put(out, head)?;
    put_names(out, before, after, count)?;
    put(out, b";\n")
}

fn put_globals(out: &mut Vec<u8>, ints: u32, bufs: u32) -> Result<(), AllocError>
    ensures { OnOk result (out.new.items ≡ out.old.items ++ (declaration (codes "static int64_t ") global_int ints ++ declaration (codes "static int64_t ") global_buf bufs)) }
{
    put_declaration(out, b"static int64_t ", b"g", b"", ints)?;
    put_declaration(out, b"static int64_t ", b"*h", b"", bufs)
}

fn put_locals(out: &mut Vec<u8>, ints: u32, bufs: u32) -> Result<(), AllocError>
    ensures { OnOk result (out.new.items ≡ out.old.items ++ (declaration (codes "int64_t ") local_int ints ++ declaration (codes "int64_t ") local_buf bufs)) }
{
    put_declaration(out, b"int64_t ", b"v", b"", ints)?;
    put_declaration(out, b"int64_t ", b"*b", b" = 0", bufs)
}

fn put_more_numbers(out: &mut Vec<u8>, numbers: &[i64]) -> Result<(), AllocError>
    ensures { OnOk result (out.new.items ≡ out.old.items ++ more_numbers numbers.now) }
{
    for n in numbers {
        put(out, b", ")?;
        put_signed(out, *n)?;
    }
    Ok(())
}

fn put_numbers(out: &mut Vec<u8>, numbers: &[i64]) -> Result<(), AllocError>
    ensures { OnOk result (out.new.items ≡ out.old.items ++ numbers_text numbers.now) }
{
    if numbers.is_empty() {
        return Ok(());
    }
    put_signed(out, numbers[0])?;
    put_more_numbers(out, &numbers[1..])
}

fn put_table(out: &mut Vec<u8>, k: usize, numbers: &[i64]) -> Result<(), AllocError>
    ensures { OnOk result (out.new.items ≡ out.old.items ++ table_text k numbers.now) }
{
    put(out, b"static const int64_t k")?;
    put_number(out, k as u64)?;
    put(out, b"[")?;
    put_number(out, numbers.len() as u64)?;
    put(out, b"] = {")?;
    put_numbers(out, numbers)?;
    put(out, b"};\n")
}

fn put_tables(out: &mut Vec<u8>, tables: &[List<i64>]) -> Result<(), AllocError>
    ensures { OnOk result (out.new.items ≡ out.old.items ++ tables_text 0 tables.now) }
{
    for k in 0..tables.len() {
        put_table(out, k, tables[k].as_slice())?;
    }
    Ok(())
}

fn put_prototypes(out: &mut Vec<u8>, count: usize) -> Result<(), AllocError>
    ensures { OnOk result (out.new.items ≡ out.old.items ++ prototypes_text 0 count) }
{
    for k in 0..count {
        put(out, b"static void f")?;
        put_number(out, k as u64)?;
        put(out, b"(void);\n")?;
    }
    Ok(())
}

fn put_function(out: &mut Vec<u8>, k: usize, function: &CFunction) -> Result<(), AllocError>
    ensures { OnOk result (out.new.items ≡ out.old.items ++ function_text k function.now) }
{
    put(out, b"static void f")?;
    put_number(out, k as u64)?;
    put(out, b"(void) {\n")?;
    put_locals(out, function.ints, function.bufs)?;
    put_stmts(out, function.body.as_slice())?;
    put(out, b"}\n")
}

fn put_functions(out: &mut Vec<u8>, functions: &[CFunction]) -> Result<(), AllocError>
    ensures { OnOk result (out.new.items ≡ out.old.items ++ functions_text 0 functions.now) }
{
    for k in 0..functions.len() {
        put_function(out, k, &functions[k])?;
    }
    Ok(())
}

/// The text of a program, byte for byte.
pub fn print(alloc: Global, program: &CProgram) -> Result<Vec<u8>, AllocError>
    requires { IsWellFormed program.now }
    ensures { IfOk result (λ bytes. bytes.items ≡ program_text program.now) }
{
    let functions = program.functions.as_slice();
    let mut out = Vec::from_slice(alloc, preamble_bytes())?;
    put_tables(&mut out, program.tables.as_slice())?;
    put_globals(&mut out, program.ints, program.bufs)?;
    put_prototypes(&mut out, functions.len())?;
    put_functions(&mut out, functions)?;
    put(&mut out, tail_bytes())?;
    Ok(out)
}
