//! Reads blocks and the statements that have blocks.
//! It must not know functions.

ghost use Rattle.std.specs.Prelude.{◌≡◌, ◌<◌, ◌-◌, ◌+◌, ◌++◌, get_or, true, false, ◌&&◌, Some};
ghost use Rattle.aplc_cread.specs.Reading.{Reads, Any, OneOf, Map};
ghost use Rattle.aplc_cread.specs.Exprs.{AreSmall, scope, IsInner};
ghost use Rattle.aplc_cread.specs.Stmts.{Block, BlockThen, BlockBehind, keywords, openings, opening_may, StmtBehind, IfBehind, WhileBehind, SwitchBehind, Arms, may, has_room as has_room_code, has_rooms as has_rooms_code, some_of as some_of_code};

use crate::expr::{Names, expr_then, inner};
use crate::leaf::{
    called, free, int_then, location, put_char, put_num, set_global, set_local, store_global,
    store_local,
};
use crate::lexical::{Halt, literal, one_of};
use crate::range::arm_number;
use aplc_cprof::{Arm, CStmt};
use sqlite_items::Items;
use std::alloc::Global;

fn has_room(room: Option<u32>) -> bool
    ensures { result ≡ has_room_code room }
{
    match room {
        None => true,
        Some(n) => n != 0,
    }
}

fn has_rooms(room: Option<u32>) -> bool
    ensures { result ≡ has_rooms_code room }
{
    match room {
        None => true,
        Some(n) => n > 1,
    }
}

fn some_of(a: u64, b: u64) -> bool
    ensures { result ≡ some_of_code a b }
{
    0 < a || 0 < b
}

/// Whether a `switch` may stand there: it has two braces.
fn can_switch(names: Names, room: Option<u32>) -> bool
    ensures { result ≡ (has_rooms_code room && some_of_code names.ints names.global_ints) }
{
    has_rooms(room) && some_of(names.ints, names.global_ints)
}

/// What a statement begins with, the closing brace, or a declaration where one may stand.
pub(crate) fn opening(
    names: Names,
    room: Option<u32>,
    bufs: bool,
    ints: bool,
    input: &[u8],
) -> Result<(usize, &[u8]), Halt>
    ensures { Reads Any (OneOf openings (opening_may (scope names) room bufs ints)) input.now result }
{
    let free = some_of(names.bufs, names.global_bufs);
    let open = has_room(room);
    let switch = can_switch(names, room);
    one_of(
        &[
            b"}",
            b"return;\n",
            b"enter();\n",
            b"leave();\n",
            b"v",
            b"g",
            b"b",
            b"h",
            b"drop(",
            b"put_num(",
            b"put_char(",
            b"at(\"",
            b"f",
            b"if (",
            b"while (",
            b"switch (",
            b"int64_t *b0 = 0",
            b"int64_t v0",
        ],
        &[
            true,
            true,
            true,
            true,
            0 < names.ints,
            0 < names.global_ints,
            0 < names.bufs,
            0 < names.global_bufs,
            free,
            true,
            true,
            true,
            true,
            open,
            open,
            switch,
            bufs,
            ints,
        ],
        input,
    )
}

/// What a statement begins with, or the closing brace.
fn keyword(names: Names, room: Option<u32>, input: &[u8]) -> Result<(usize, &[u8]), Halt>
    ensures { Reads Any (OneOf keywords (may (scope names) room)) input.now result }
{
    opening(names, room, false, false, input)
}

/// What stands behind the keyword of a statement without blocks.
fn simple(
    alloc: Global,
    names: Names,
    room: Option<u32>,
    keyword: usize,
    input: &[u8],
) -> Result<(CStmt, &[u8]), Halt>
    requires small { AreSmall names }
    requires within { keyword < 12 }
    requires may { get_or (may (scope names) room) (keyword + 1) false ≡ true }
    ensures { Reads Any (StmtBehind (scope names) room keyword) input.now result }
{
    match keyword {
        0 => Ok((CStmt::Return, input)),
        1 => Ok((CStmt::Enter, input)),
        2 => Ok((CStmt::Leave, input)),
        3 => set_local(alloc, names, room, input),
        4 => set_global(alloc, names, room, input),
        5 => store_local(alloc, names, room, input),
        6 => store_global(alloc, names, room, input),
        7 => free(names, room, input),
        8 => put_num(alloc, names, room, input),
        9 => put_char(alloc, names, room, input),
        10 => location(alloc, names, room, input),
        11 => called(names, input),
        _ => unreachable!(),
    }
}

/// Behind `if (`.
#[cycle(stmts)]
fn condition(
    alloc: Global,
    names: Names,
    room: Option<u32>,
    inside: Option<u32>,
    input: &[u8],
) -> Result<(CStmt, &[u8]), Halt>
    requires small { AreSmall names }
    ensures { Reads Any (IfBehind (scope names) room inside) input.now result }
{
    let (e, rest) = expr_then(alloc, names, room, b") {\n", input)?;
    let (body, rest) = block(alloc, names, inside, rest)?;
    let (i, rest) = one_of(&[b"\n", b" else {\n"], &[true; 2], rest)?;
    if i == 0 {
        return Ok((CStmt::If(e, body, None), rest));
    }
    let (other, rest) = block_then(alloc, names, inside, b"\n", rest)?;
    Ok((CStmt::If(e, body, Some(other)), rest))
}

/// Behind `while (`.
#[cycle(stmts)]
fn repetition(
    alloc: Global,
    names: Names,
    room: Option<u32>,
    inside: Option<u32>,
    input: &[u8],
) -> Result<(CStmt, &[u8]), Halt>
    requires small { AreSmall names }
    ensures { Reads Any (WhileBehind (scope names) room inside) input.now result }
{
    let (e, rest) = expr_then(alloc, names, room, b") {\n", input)?;
    let (body, rest) = block_then(alloc, names, inside, b"\n", rest)?;
    Ok((CStmt::While(e, body), rest))
}

/// Arms whose numbers rise, the default and the closing brace.
#[cycle(stmts)]
fn arms(
    alloc: Global,
    names: Names,
    room: Option<u32>,
    inside: Option<u32>,
    input: &[u8],
) -> Result<((Items<Arm>, Items<CStmt>), &[u8]), Halt>
    requires small { AreSmall names }
    requires inner { IsInner room (Some inside) }
    ensures { Reads Any (Arms (scope names) room 0) input.now result }
{
    let mut arms = Vec::new(alloc);
    let mut low = 0;
    let mut rest = input;
    'arms: loop {
        let (i, behind) = one_of(&[b"case ", b"default: {\n"], &[low < (1 << 63), true], rest)?;
        if i != 0 {
            let (default, end) = block_then(alloc, names, inside, b" break;\n}\n", behind)?;
            return Ok(((Items::from_vec(arms), default), end));
        }
        let (n, behind) = arm_number(low, behind)?;
        let (body, next) = block_then(alloc, names, inside, b" break;\n", behind)?;
        arms.push(Arm {
            value: n as i64,
            body,
        })?;
        low = n + 1;
        rest = next;
    }
}

/// Behind `switch (`.
#[cycle(stmts)]
fn selection(
    alloc: Global,
    names: Names,
    inside: Option<u32>,
    input: &[u8],
) -> Result<(CStmt, &[u8]), Halt>
    requires small { AreSmall names }
    requires room { has_room_code inside ≡ true }
    requires some { some_of_code names.ints names.global_ints ≡ true }
    ensures { Reads Any (SwitchBehind (scope names) inside) input.now result }
{
    let (x, rest) = int_then(names, b") {\n", input)?;
    let body = match inner(inside) {
        None => unreachable!(),
        Some(body) => body,
    };
    let ((arms, default), rest) = arms(alloc, names, inside, body, rest)?;
    Ok((CStmt::Switch(x, arms, default), rest))
}

/// What stands behind a keyword.
#[cycle(stmts)]
fn statement(
    alloc: Global,
    names: Names,
    room: Option<u32>,
    keyword: usize,
    input: &[u8],
) -> Result<(CStmt, &[u8]), Halt>
    requires small { AreSmall names }
    requires within { keyword < 15 }
    requires may { get_or (may (scope names) room) (keyword + 1) false ≡ true }
    ensures { Reads Any (StmtBehind (scope names) room keyword) input.now result }
{
    if keyword < 12 {
        return simple(alloc, names, room, keyword, input);
    }
    let inside = match inner(room) {
        None => unreachable!(),
        Some(inside) => inside,
    };
    if keyword == 12 {
        return condition(alloc, names, room, inside, input);
    }
    if keyword == 13 {
        return repetition(alloc, names, room, inside, input);
    }
    selection(alloc, names, inside, input)
}

/// Statements, their closing brace and a fixed text behind it.
#[cycle(stmts)]
pub(crate) fn block_then<'a>(
    alloc: Global,
    names: Names,
    room: Option<u32>,
    text: &[u8],
    input: &'a [u8],
) -> Result<(Items<CStmt>, &'a [u8]), Halt<'a>>
    requires small { AreSmall names }
    ensures { Reads Any (BlockThen (scope names) room text.now) input.now result }
{
    let (body, rest) = block(alloc, names, room, input)?;
    let rest = literal(text, rest)?;
    Ok((body, rest))
}

/// The statements that are read already, more statements and their closing brace.
#[cycle(stmts)]
fn statements(
    alloc: Global,
    names: Names,
    room: Option<u32>,
    before: Vec<CStmt>,
    input: &[u8],
) -> Result<(Items<CStmt>, &[u8]), Halt>
    requires small { AreSmall names }
    ensures { Reads Any (Map (λ ss. before.items ++ ss) (Block (scope names) room)) input.now result }
{
    let mut body = before;
    let mut rest = input;
    'lines: loop {
        let (keyword, behind) = keyword(names, room, rest)?;
        if keyword == 0 {
            return Ok((Items::from_vec(body), behind));
        }
        let (statement, next) = statement(alloc, names, room, keyword - 1, behind)?;
        body.push(statement)?;
        rest = next;
    }
}

/// Statements and their closing brace.
#[cycle(stmts)]
pub(crate) fn block(
    alloc: Global,
    names: Names,
    room: Option<u32>,
    input: &[u8],
) -> Result<(Items<CStmt>, &[u8]), Halt>
    requires small { AreSmall names }
    ensures { Reads Any (Block (scope names) room) input.now result }
{
    let body = Vec::new(alloc);
    statements(alloc, names, room, body, input)
}

/// The same behind the first keyword, or behind the closing brace that stands in its place.
pub(crate) fn block_behind(
    alloc: Global,
    names: Names,
    room: Option<u32>,
    keyword: usize,
    input: &[u8],
) -> Result<(Items<CStmt>, &[u8]), Halt>
    requires small { AreSmall names }
    requires within { keyword < 16 }
    requires may { get_or (may (scope names) room) keyword false ≡ true }
    ensures { Reads Any (BlockBehind (scope names) room keyword) input.now result }
{
    let mut body = Vec::new(alloc);
    if keyword == 0 {
        return Ok((Items::from_vec(body), input));
    }
    let (statement, rest) = statement(alloc, names, room, keyword - 1, input)?;
    body.push(statement)?;
    statements(alloc, names, room, body, rest)
}
