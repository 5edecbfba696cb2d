//! Programs that apply a scalar function to numbers that they read, and what their runs come to.
//! It must not take an expected value from a run.

ghost use Rattle.std.specs.Prelude.{◌≡◌, IsTrue, OnOk};
ghost use Rattle.aplc_scalar.specs.Scalar.{is_dyadic, is_monadic};

use crate::building::{COUNT, LEFT, LEFTS, RIGHT, RIGHTS, program_of, put_line, take};
use crate::running::{Run, put_number};
use aplc_collect::{dyad_code, mono_code};
use aplc_cprof::{Builder, CProgram, CStmt};
use aplc_scalar::{FaultKind, ScalarFn, dyad, in_range, mono};
use std::alloc::{AllocError, Global};

/// The functions of two arguments.
pub const DYADIC: [ScalarFn; 16] = [
    ScalarFn::Add,
    ScalarFn::Sub,
    ScalarFn::Mul,
    ScalarFn::Max,
    ScalarFn::Min,
    ScalarFn::Residue,
    ScalarFn::Less,
    ScalarFn::LessEq,
    ScalarFn::Equal,
    ScalarFn::GreaterEq,
    ScalarFn::Greater,
    ScalarFn::NotEqual,
    ScalarFn::And,
    ScalarFn::Or,
    ScalarFn::Nand,
    ScalarFn::Nor,
];

/// The functions of one argument.
pub const MONADIC: [ScalarFn; 7] = [
    ScalarFn::Add,
    ScalarFn::Sub,
    ScalarFn::Mul,
    ScalarFn::Max,
    ScalarFn::Min,
    ScalarFn::Residue,
    ScalarFn::Not,
];

/// Small numbers, and those beside 2^31, beside the root of 2^63, beside 2^62 and at both ends of the range.
const EDGES: [i64; 35] = [
    0,
    1,
    -1,
    2,
    -2,
    3,
    -3,
    10,
    -10,
    2147483646,
    2147483647,
    2147483648,
    2147483649,
    -2147483647,
    -2147483648,
    -2147483649,
    3037000499,
    3037000500,
    -3037000499,
    -3037000500,
    4294967296,
    -4294967296,
    4611686018427387903,
    4611686018427387904,
    4611686018427387905,
    -4611686018427387903,
    -4611686018427387904,
    -4611686018427387905,
    9223372036854775805,
    9223372036854775806,
    9223372036854775807,
    -9223372036854775805,
    -9223372036854775806,
    -9223372036854775807,
    1000000007,
];

/// Whether a function has a form with one argument.
pub(crate) fn is_monadic(f: ScalarFn) -> bool
    ensures { result ≡ is_monadic f }
{
    match f {
        ScalarFn::Add | ScalarFn::Sub | ScalarFn::Mul => true,
        ScalarFn::Max | ScalarFn::Min | ScalarFn::Residue | ScalarFn::Not => true,
        _ => false,
    }
}

fn put_dyad(alloc: Global, b: &mut Builder, f: ScalarFn) -> Result<(), AllocError>
    requires { IsTrue (is_dyadic f) }
    ensures { OnOk result (b.new.outer ≡ b.old.outer) }
{
    let v = dyad_code(alloc, b, f, LEFT, RIGHT)?;
    put_line(b, v)
}

fn put_mono(alloc: Global, b: &mut Builder, f: ScalarFn) -> Result<(), AllocError>
    requires { IsTrue (is_monadic f) }
    ensures { OnOk result (b.new.outer ≡ b.old.outer) }
{
    let v = mono_code(alloc, b, f, LEFT)?;
    put_line(b, v)
}

fn dyad_line(alloc: Global, b: &mut Builder, f: ScalarFn) -> Result<(), AllocError>
    requires { IsTrue (is_dyadic f) }
    ensures { OnOk result (b.new.outer ≡ b.old.outer) }
{
    let i = b.begin_loop()?;
    take(alloc, b, LEFT, LEFTS, i)?;
    take(alloc, b, RIGHT, RIGHTS, i)?;
    put_dyad(alloc, b, f)?;
    b.end_loop(alloc, i, COUNT)
}

fn mono_line(alloc: Global, b: &mut Builder, f: ScalarFn) -> Result<(), AllocError>
    requires { IsTrue (is_monadic f) }
    ensures { OnOk result (b.new.outer ≡ b.old.outer) }
{
    let i = b.begin_loop()?;
    take(alloc, b, LEFT, LEFTS, i)?;
    put_mono(alloc, b, f)?;
    b.end_loop(alloc, i, COUNT)
}

/// Reads a line of left sides and a line of right sides, and writes what the function gives for each pair.
pub fn dyad_program(alloc: Global, f: ScalarFn) -> Result<CProgram, AllocError>
    requires { IsTrue (is_dyadic f) }
{
    let mut b = Builder::new(alloc);
    b.emit(CStmt::ReadNums(LEFTS))?;
    b.emit(CStmt::ReadNums(RIGHTS))?;
    b.emit(CStmt::ReadCount(COUNT))?;
    dyad_line(alloc, &mut b, f)?;
    program_of(alloc, b.finish())
}

/// Reads a line of numbers, and writes what the function gives for each.
pub fn mono_program(alloc: Global, f: ScalarFn) -> Result<CProgram, AllocError>
    requires { IsTrue (is_monadic f) }
{
    let mut b = Builder::new(alloc);
    b.emit(CStmt::ReadNums(LEFTS))?;
    b.emit(CStmt::ReadCount(COUNT))?;
    mono_line(alloc, &mut b, f)?;
    program_of(alloc, b.finish())
}

fn faulted(input: String, alloc: Global, kind: FaultKind) -> Run {
    Run {
        input,
        out: String::new(alloc),
        fault: Some(kind),
    }
}

/// The pairs for which there is a number in one run, and each other pair in a run of its own.
pub fn dyad_runs(alloc: Global, f: ScalarFn) -> Result<Vec<Run>, AllocError>
    requires { IsTrue (is_dyadic f) }
{
    let mut runs = Vec::new(alloc);
    let mut lefts = String::new(alloc);
    let mut rights = String::new(alloc);
    let mut out = String::new(alloc);
    for left in EDGES {
        for right in EDGES {
            if !in_range(left) || !in_range(right) {
                continue;
            }
            match dyad(f, left, right) {
                Ok(value) => {
                    write!(lefts, "{left} ")?;
                    write!(rights, "{right} ")?;
                    put_number(&mut out, value)?;
                    out.push('\n')?;
                }
                Err(kind) => {
                    let input = format!(in alloc; "{left}\n{right}\n")?;
                    runs.push(faulted(input, alloc, kind))?;
                }
            }
        }
    }
    let input = format!(in alloc; "{lefts}\n{rights}\n")?;
    runs.push(Run {
        input,
        out,
        fault: None,
    })?;
    Ok(runs)
}

/// The same of numbers.
pub fn mono_runs(alloc: Global, f: ScalarFn) -> Result<Vec<Run>, AllocError>
    requires { IsTrue (is_monadic f) }
{
    let mut runs = Vec::new(alloc);
    let mut numbers = String::new(alloc);
    let mut out = String::new(alloc);
    for number in EDGES {
        if !in_range(number) {
            continue;
        }
        match mono(f, number) {
            Ok(value) => {
                write!(numbers, "{number} ")?;
                put_number(&mut out, value)?;
                out.push('\n')?;
            }
            Err(kind) => {
                let input = format!(in alloc; "{number}\n")?;
                runs.push(faulted(input, alloc, kind))?;
            }
        }
    }
    let input = format!(in alloc; "{numbers}\n")?;
    runs.push(Run {
        input,
        out,
        fault: None,
    })?;
    Ok(runs)
}
