//! Reads expressions.
//! It must not know statements.

ghost use Rattle.std.specs.Prelude.{◌≡◌, ◌≤◌, ◌<◌, ◌^◌, IsTrue};
ghost use Rattle.aplc_cread.specs.Reading.{Reads, Any, NoDigit, NumberThen, opens};
ghost use Rattle.aplc_cread.specs.Exprs.{AreSmall, scope, IsInner, IsAllowed, Constant, Operator, Operation, Indexed, Expr, ExprThen, TwoExprs};

use crate::lexical::{Halt, literal, number_below, one_of, split};
use aplc_cprof::{Buf, CExpr, Int, Op};
use sqlite_items::Boxed;
use std::alloc::Global;

/// How many names of each sort there are.
#[derive(Clone, Copy)]
pub(crate) struct Names {
    pub(crate) ints: u64,
    pub(crate) bufs: u64,
    pub(crate) global_ints: u64,
    pub(crate) global_bufs: u64,
    pub(crate) tables: u64,
    pub(crate) functions: u64,
}

/// The room inside one more that is open, where there is room.
pub(crate) fn inner(room: Option<u32>) -> Option<Option<u32>>
    ensures { IsInner room result }
{
    match room {
        None => Some(None),
        Some(0) => None,
        Some(n) => Some(Some(n - 1)),
    }
}

/// The same where besides there is a name.
fn allowed(count: u64, room: Option<u32>) -> Option<Option<u32>>
    ensures { IsAllowed count room result }
{
    if count == 0 { None } else { inner(room) }
}

/// A number and a fixed text behind it.
pub(crate) fn number_then<'a>(
    bound: u64,
    text: &[u8],
    input: &'a [u8],
) -> Result<(u64, &'a [u8]), Halt<'a>>
    requires positive { 0 < bound }
    requires small { bound ≤ 2 ^ 63 }
    requires opens { IsTrue (opens text.now) }
    ensures { Reads Any (NumberThen bound text.now) input.now result }
{
    let (n, rest) = number_below(bound, input)?;
    let rest = literal(text, rest)?;
    Ok((n, rest))
}

/// A number and `LL`.
fn constant(input: &[u8]) -> Result<(CExpr, &[u8]), Halt>
    ensures { Reads NoDigit Constant input.now result }
{
    let (n, rest) = number_below(1 << 63, input)?;
    let rest = literal(b"LL", rest)?;
    Ok((CExpr::Lit(n as i64), rest))
}

fn operator(input: &[u8]) -> Result<(Op, &[u8]), Halt>
    ensures { Reads Any Operator input.now result }
{
    let (i, rest) = one_of(
        &[
            b" + ", b" - ", b" * ", b" / ", b" % ", b" < ", b" <= ", b" == ", b" != ", b" >= ",
            b" > ", b" && ", b" || ",
        ],
        &[true; 13],
        input,
    )?;
    let op = match i {
        0 => Op::Add,
        1 => Op::Sub,
        2 => Op::Mul,
        3 => Op::Div,
        4 => Op::Rem,
        5 => Op::Less,
        6 => Op::LessEq,
        7 => Op::Equal,
        8 => Op::NotEqual,
        9 => Op::GreaterEq,
        10 => Op::Greater,
        11 => Op::And,
        _ => Op::Or,
    };
    Ok((op, rest))
}

/// Behind a letter: `0[e]`.
#[cycle(expr)]
fn indexed(
    alloc: Global,
    names: Names,
    count: u64,
    room: Option<u32>,
    input: &[u8],
) -> Result<((u32, CExpr), &[u8]), Halt>
    requires positive { 0 < count }
    requires few { count ≤ 2 ^ 32 }
    requires small { AreSmall names }
    ensures { Reads Any (Indexed count (scope names) room) input.now result }
{
    let (k, rest) = number_then(count, b"[", input)?;
    let (e, rest) = expr_then(alloc, names, room, b"]", rest)?;
    Ok(((k as u32, e), rest))
}

/// Behind `(`: `e op e)`.
#[cycle(expr)]
fn operation(
    alloc: Global,
    names: Names,
    room: Option<u32>,
    input: &[u8],
) -> Result<(CExpr, &[u8]), Halt>
    requires small { AreSmall names }
    ensures { Reads Any (Operation (scope names) room) input.now result }
{
    let (x, rest) = expr(alloc, names, room, input)?;
    let (op, rest) = operator(rest)?;
    let (y, rest) = expr_then(alloc, names, room, b")", rest)?;
    let x = Boxed::new(alloc, x)?;
    let y = Boxed::new(alloc, y)?;
    Ok((CExpr::Bin(op, x, y), rest))
}

/// An expression and a fixed text behind it.
#[cycle(expr)]
pub(crate) fn expr_then<'a>(
    alloc: Global,
    names: Names,
    room: Option<u32>,
    text: &[u8],
    input: &'a [u8],
) -> Result<(CExpr, &'a [u8]), Halt<'a>>
    requires small { AreSmall names }
    requires opens { IsTrue (opens text.now) }
    ensures { Reads Any (ExprThen (scope names) room text.now) input.now result }
{
    let (e, rest) = expr(alloc, names, room, input)?;
    let rest = literal(text, rest)?;
    Ok((e, rest))
}

/// Two expressions and a fixed text behind each.
pub(crate) fn two_exprs<'a>(
    alloc: Global,
    names: Names,
    room: Option<u32>,
    between: &[u8],
    end: &[u8],
    input: &'a [u8],
) -> Result<((CExpr, CExpr), &'a [u8]), Halt<'a>>
    requires small { AreSmall names }
    requires between { IsTrue (opens between.now) }
    requires end { IsTrue (opens end.now) }
    ensures { Reads Any (TwoExprs (scope names) room between.now end.now) input.now result }
{
    let (x, rest) = expr_then(alloc, names, room, between, input)?;
    let (y, rest) = expr_then(alloc, names, room, end, rest)?;
    Ok(((x, y), rest))
}

#[cycle(expr)]
pub(crate) fn expr(
    alloc: Global,
    names: Names,
    room: Option<u32>,
    input: &[u8],
) -> Result<(CExpr, &[u8]), Halt>
    requires small { AreSmall names }
    ensures { Reads NoDigit (Expr (scope names) room) input.now result }
{
    let (c, rest) = match split(input) {
        None => return constant(input),
        Some(front) => front,
    };
    if c == b'v' {
        if names.ints == 0 {
            return Err(Halt::At(input));
        }
        let (n, rest) = number_below(names.ints, rest)?;
        return Ok((CExpr::Var(Int::Local(n as u32)), rest));
    }
    if c == b'g' {
        if names.global_ints == 0 {
            return Err(Halt::At(input));
        }
        let (n, rest) = number_below(names.global_ints, rest)?;
        return Ok((CExpr::Var(Int::Global(n as u32)), rest));
    }
    if c == b'b' {
        let inside = match allowed(names.bufs, room) {
            None => return Err(Halt::At(input)),
            Some(inside) => inside,
        };
        let ((p, e), rest) = indexed(alloc, names, names.bufs, inside, rest)?;
        let e = Boxed::new(alloc, e)?;
        return Ok((CExpr::Cell(Buf::Local(p), e), rest));
    }
    if c == b'h' {
        let inside = match allowed(names.global_bufs, room) {
            None => return Err(Halt::At(input)),
            Some(inside) => inside,
        };
        let ((p, e), rest) = indexed(alloc, names, names.global_bufs, inside, rest)?;
        let e = Boxed::new(alloc, e)?;
        return Ok((CExpr::Cell(Buf::Global(p), e), rest));
    }
    if c == b'k' {
        let inside = match allowed(names.tables, room) {
            None => return Err(Halt::At(input)),
            Some(inside) => inside,
        };
        let ((p, e), rest) = indexed(alloc, names, names.tables, inside, rest)?;
        let e = Boxed::new(alloc, e)?;
        return Ok((CExpr::Table(p, e), rest));
    }
    if c == b'(' {
        return match inner(room) {
            None => Err(Halt::At(input)),
            Some(inside) => operation(alloc, names, inside, rest),
        };
    }
    constant(input)
}
