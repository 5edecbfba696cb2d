//! Reads the statements without blocks.
//! It must not know blocks.

ghost use Rattle.std.specs.Prelude.{◌≡◌, ◌≤◌, ◌<◌, ◌^◌, IsTrue, true, get_or, false};
ghost use Rattle.aplc_cread.specs.Reading.{Reads, Any, opens, first};
ghost use Rattle.aplc_cread.specs.Exprs.{AreSmall, scope};
ghost use Rattle.aplc_cread.specs.Stmts.{IntThen, BufThen, some_of, Assigned, AssignedBy, Checks, CallBehind, is_call as is_call_code, is_fault as is_fault_code, Signed, StoredBehind, SourceBehind, source_may, Called, CalledBy, StmtBehind};

use crate::expr::{Names, expr_then, number_then, two_exprs};
use crate::lexical::{Halt, number_below, one_of, split};
use crate::name::name;
use aplc_cprof::{Buf, CStmt, Checked, Int};
use aplc_scalar::FaultKind;
use std::alloc::Global;

fn is_call(input: &[u8]) -> bool
    ensures { result ≡ is_call_code (first input.now) }
{
    match split(input) {
        None => false,
        Some((c, _)) => c == b'a' || c == b's' || c == b'm' || c == b'w' || c == b'r',
    }
}

fn checks(
    alloc: Global,
    names: Names,
    room: Option<u32>,
    x: Int,
    c: Checked,
    input: &[u8],
) -> Result<(CStmt, &[u8]), Halt>
    requires small { AreSmall names }
    ensures { Reads Any (Checks (scope names) room x c) input.now result }
{
    let ((e, f), rest) = two_exprs(alloc, names, room, b", ", b");\n", input)?;
    Ok((CStmt::Check(x, c, e, f), rest))
}

fn width(
    alloc: Global,
    names: Names,
    room: Option<u32>,
    x: Int,
    input: &[u8],
) -> Result<(CStmt, &[u8]), Halt>
    requires small { AreSmall names }
    ensures { Reads Any (CallBehind (scope names) room x 3) input.now result }
{
    let (e, rest) = expr_then(alloc, names, room, b");\n", input)?;
    Ok((CStmt::Width(x, e), rest))
}

/// Behind `v0 = add(` and its like.
fn call_behind(
    alloc: Global,
    names: Names,
    room: Option<u32>,
    x: Int,
    call: usize,
    input: &[u8],
) -> Result<(CStmt, &[u8]), Halt>
    requires small { AreSmall names }
    requires within { call < 5 }
    ensures { Reads Any (CallBehind (scope names) room x call) input.now result }
{
    match call {
        0 => checks(alloc, names, room, x, Checked::Add, input),
        1 => checks(alloc, names, room, x, Checked::Sub, input),
        2 => checks(alloc, names, room, x, Checked::Mul, input),
        3 => width(alloc, names, room, x, input),
        4 => Ok((CStmt::ReadCount(x), input)),
        _ => unreachable!(),
    }
}

fn call(
    alloc: Global,
    names: Names,
    room: Option<u32>,
    x: Int,
    input: &[u8],
) -> Result<(CStmt, &[u8]), Halt>
    requires small { AreSmall names }
    ensures { Reads Any (AssignedBy (scope names) room x true) input.now result }
{
    let (i, rest) = one_of(
        &[b"add(", b"sub(", b"mul(", b"width(", b"read_n;\n"],
        &[true; 5],
        input,
    )?;
    call_behind(alloc, names, room, x, i, rest)
}

/// Behind `v0 = `.
fn assigned(
    alloc: Global,
    names: Names,
    room: Option<u32>,
    x: Int,
    input: &[u8],
) -> Result<(CStmt, &[u8]), Halt>
    requires small { AreSmall names }
    ensures { Reads Any (Assigned (scope names) room x) input.now result }
{
    if is_call(input) {
        return call(alloc, names, room, x, input);
    }
    let (e, rest) = expr_then(alloc, names, room, b";\n", input)?;
    Ok((CStmt::Set(x, e), rest))
}

/// Behind `v`.
pub(crate) fn set_local(
    alloc: Global,
    names: Names,
    room: Option<u32>,
    input: &[u8],
) -> Result<(CStmt, &[u8]), Halt>
    requires small { AreSmall names }
    requires some { 0 < names.ints }
    ensures { Reads Any (StmtBehind (scope names) room 3) input.now result }
{
    let (n, rest) = number_then(names.ints, b" = ", input)?;
    assigned(alloc, names, room, Int::Local(n as u32), rest)
}

/// Behind `g`.
pub(crate) fn set_global(
    alloc: Global,
    names: Names,
    room: Option<u32>,
    input: &[u8],
) -> Result<(CStmt, &[u8]), Halt>
    requires small { AreSmall names }
    requires some { 0 < names.global_ints }
    ensures { Reads Any (StmtBehind (scope names) room 4) input.now result }
{
    let (n, rest) = number_then(names.global_ints, b" = ", input)?;
    assigned(alloc, names, room, Int::Global(n as u32), rest)
}

pub(crate) fn put_num(
    alloc: Global,
    names: Names,
    room: Option<u32>,
    input: &[u8],
) -> Result<(CStmt, &[u8]), Halt>
    requires small { AreSmall names }
    ensures { Reads Any (StmtBehind (scope names) room 8) input.now result }
{
    let ((e, f), rest) = two_exprs(alloc, names, room, b", ", b");\n", input)?;
    Ok((CStmt::PutNum(e, f), rest))
}

pub(crate) fn put_char(
    alloc: Global,
    names: Names,
    room: Option<u32>,
    input: &[u8],
) -> Result<(CStmt, &[u8]), Halt>
    requires small { AreSmall names }
    ensures { Reads Any (StmtBehind (scope names) room 9) input.now result }
{
    let (e, rest) = expr_then(alloc, names, room, b");\n", input)?;
    Ok((CStmt::PutChar(e), rest))
}

/// `v0` or `g0`, and a fixed text behind it.
pub(crate) fn int_then<'a>(
    names: Names,
    text: &[u8],
    input: &'a [u8],
) -> Result<(Int, &'a [u8]), Halt<'a>>
    requires small { AreSmall names }
    requires some { some_of names.ints names.global_ints ≡ true }
    requires opens { IsTrue (opens text.now) }
    ensures { Reads Any (IntThen (scope names) text.now) input.now result }
{
    let (i, rest) = one_of(
        &[b"v", b"g"],
        &[0 < names.ints, 0 < names.global_ints],
        input,
    )?;
    if i == 0 {
        let (n, rest) = number_then(names.ints, text, rest)?;
        return Ok((Int::Local(n as u32), rest));
    }
    let (n, rest) = number_then(names.global_ints, text, rest)?;
    Ok((Int::Global(n as u32), rest))
}

/// `b0` or `h0`, and a fixed text behind it.
fn buf_then<'a>(names: Names, text: &[u8], input: &'a [u8]) -> Result<(Buf, &'a [u8]), Halt<'a>>
    requires small { AreSmall names }
    requires some { some_of names.bufs names.global_bufs ≡ true }
    requires opens { IsTrue (opens text.now) }
    ensures { Reads Any (BufThen (scope names) text.now) input.now result }
{
    let (i, rest) = one_of(
        &[b"b", b"h"],
        &[0 < names.bufs, 0 < names.global_bufs],
        input,
    )?;
    if i == 0 {
        let (n, rest) = number_then(names.bufs, text, rest)?;
        return Ok((Buf::Local(n as u32), rest));
    }
    let (n, rest) = number_then(names.global_bufs, text, rest)?;
    Ok((Buf::Global(n as u32), rest))
}

pub(crate) fn free(names: Names, room: Option<u32>, input: &[u8]) -> Result<(CStmt, &[u8]), Halt>
    requires small { AreSmall names }
    requires some { some_of names.bufs names.global_bufs ≡ true }
    ensures { Reads Any (StmtBehind (scope names) room 7) input.now result }
{
    let (p, rest) = buf_then(names, b");\n", input)?;
    Ok((CStmt::Free(p), rest))
}

/// A number, and whether `[` or ` = ` stands behind it.
fn signed(bound: u64, input: &[u8]) -> Result<((u32, usize), &[u8]), Halt>
    requires some { 0 < bound }
    requires small { bound ≤ 2 ^ 32 }
    ensures { Reads Any (Signed bound) input.now result }
{
    let (n, rest) = number_below(bound, input)?;
    let (i, rest) = one_of(&[b"[", b" = "], &[true; 2], rest)?;
    Ok(((n as u32, i), rest))
}

fn cells(
    alloc: Global,
    names: Names,
    room: Option<u32>,
    p: Buf,
    input: &[u8],
) -> Result<(CStmt, &[u8]), Halt>
    requires small { AreSmall names }
    ensures { Reads Any (SourceBehind (scope names) room p 1) input.now result }
{
    let (e, rest) = expr_then(alloc, names, room, b");\n", input)?;
    Ok((CStmt::Cells(p, e), rest))
}

fn from_local(names: Names, room: Option<u32>, p: Buf, input: &[u8]) -> Result<(CStmt, &[u8]), Halt>
    requires small { AreSmall names }
    requires some { 0 < names.bufs }
    ensures { Reads Any (SourceBehind (scope names) room p 4) input.now result }
{
    let (k, rest) = number_then(names.bufs, b";\n", input)?;
    Ok((CStmt::SetBuf(p, Some(Buf::Local(k as u32))), rest))
}

fn from_global(
    names: Names,
    room: Option<u32>,
    p: Buf,
    input: &[u8],
) -> Result<(CStmt, &[u8]), Halt>
    requires small { AreSmall names }
    requires some { 0 < names.global_bufs }
    ensures { Reads Any (SourceBehind (scope names) room p 5) input.now result }
{
    let (k, rest) = number_then(names.global_bufs, b";\n", input)?;
    Ok((CStmt::SetBuf(p, Some(Buf::Global(k as u32))), rest))
}

/// Behind `b0 = ` and a source.
fn source_behind(
    alloc: Global,
    names: Names,
    room: Option<u32>,
    p: Buf,
    source: usize,
    input: &[u8],
) -> Result<(CStmt, &[u8]), Halt>
    requires small { AreSmall names }
    requires within { source < 6 }
    requires may { get_or (source_may (scope names)) source false ≡ true }
    ensures { Reads Any (SourceBehind (scope names) room p source) input.now result }
{
    match source {
        0 => Ok((CStmt::SetBuf(p, None), input)),
        1 => cells(alloc, names, room, p, input),
        2 => Ok((CStmt::ReadText(p), input)),
        3 => Ok((CStmt::ReadNums(p), input)),
        4 => from_local(names, room, p, input),
        5 => from_global(names, room, p, input),
        _ => unreachable!(),
    }
}

fn set_cell(
    alloc: Global,
    names: Names,
    room: Option<u32>,
    p: Buf,
    input: &[u8],
) -> Result<(CStmt, &[u8]), Halt>
    requires small { AreSmall names }
    ensures { Reads Any (StoredBehind (scope names) room p 0) input.now result }
{
    let ((e, f), rest) = two_exprs(alloc, names, room, b"] = ", b";\n", input)?;
    Ok((CStmt::SetCell(p, e, f), rest))
}

fn set_buf(
    alloc: Global,
    names: Names,
    room: Option<u32>,
    p: Buf,
    input: &[u8],
) -> Result<(CStmt, &[u8]), Halt>
    requires small { AreSmall names }
    ensures { Reads Any (StoredBehind (scope names) room p 1) input.now result }
{
    let (i, rest) = one_of(
        &[
            b"0;\n",
            b"cells(",
            b"read_text();\n",
            b"read_nums();\n",
            b"b",
            b"h",
        ],
        &[
            true,
            true,
            true,
            true,
            0 < names.bufs,
            0 < names.global_bufs,
        ],
        input,
    )?;
    source_behind(alloc, names, room, p, i, rest)
}

/// Behind `b0` and its sign.
fn stored(
    alloc: Global,
    names: Names,
    room: Option<u32>,
    p: Buf,
    sign: usize,
    input: &[u8],
) -> Result<(CStmt, &[u8]), Halt>
    requires small { AreSmall names }
    requires within { sign < 2 }
    ensures { Reads Any (StoredBehind (scope names) room p sign) input.now result }
{
    match sign {
        0 => set_cell(alloc, names, room, p, input),
        1 => set_buf(alloc, names, room, p, input),
        _ => unreachable!(),
    }
}

/// Behind `b`.
pub(crate) fn store_local(
    alloc: Global,
    names: Names,
    room: Option<u32>,
    input: &[u8],
) -> Result<(CStmt, &[u8]), Halt>
    requires small { AreSmall names }
    requires some { 0 < names.bufs }
    ensures { Reads Any (StmtBehind (scope names) room 5) input.now result }
{
    let ((n, sign), rest) = signed(names.bufs, input)?;
    stored(alloc, names, room, Buf::Local(n), sign, rest)
}

/// Behind `h`.
pub(crate) fn store_global(
    alloc: Global,
    names: Names,
    room: Option<u32>,
    input: &[u8],
) -> Result<(CStmt, &[u8]), Halt>
    requires small { AreSmall names }
    requires some { 0 < names.global_bufs }
    ensures { Reads Any (StmtBehind (scope names) room 6) input.now result }
{
    let ((n, sign), rest) = signed(names.global_bufs, input)?;
    stored(alloc, names, room, Buf::Global(n), sign, rest)
}

fn is_fault(input: &[u8]) -> bool
    ensures { result ≡ is_fault_code (first input.now) }
{
    match split(input) {
        None => false,
        Some((c, _)) => c == b'a',
    }
}

/// Behind the `f` of `fault(`.
fn fault(_names: Names, input: &[u8]) -> Result<(CStmt, &[u8]), Halt>
    ensures { Reads Any (CalledBy (scope _names) true) input.now result }
{
    let (i, rest) = one_of(
        &[
            b"ault(0);\n",
            b"ault(1);\n",
            b"ault(2);\n",
            b"ault(3);\n",
            b"ault(4);\n",
            b"ault(5);\n",
            b"ault(6);\n",
        ],
        &[true; 7],
        input,
    )?;
    let kind = match i {
        0 => FaultKind::Domain,
        1 => FaultKind::Index,
        2 => FaultKind::Length,
        3 => FaultKind::Limit,
        4 => FaultKind::Rank,
        5 => FaultKind::Value,
        _ => FaultKind::Input,
    };
    Ok((CStmt::Fault(kind), rest))
}

/// Behind `f`.
pub(crate) fn called(names: Names, input: &[u8]) -> Result<(CStmt, &[u8]), Halt>
    requires small { AreSmall names }
    ensures { Reads Any (Called (scope names)) input.now result }
{
    if is_fault(input) {
        return fault(names, input);
    }
    let (n, rest) = number_then(names.functions, b"();\n", input)?;
    Ok((CStmt::Call(n as u32), rest))
}

/// Behind `at("`.
pub(crate) fn location(
    alloc: Global,
    names: Names,
    room: Option<u32>,
    input: &[u8],
) -> Result<(CStmt, &[u8]), Halt>
    requires small { AreSmall names }
    ensures { Reads Any (StmtBehind (scope names) room 10) input.now result }
{
    let (name, rest) = name(alloc, input)?;
    let (n, rest) = number_then(1 << 63, b");\n", rest)?;
    Ok((CStmt::At(name, n as i64), rest))
}
