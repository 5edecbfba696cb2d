//! The functions of a text from their lines, and their first refusal.
//! It must not know how a statement is read, nor what stands outside functions.

ghost use Rattle.std.specs.Prelude.{◌≡◌, ◌≤◌, length, map, All, OnOk, IfOk, IfErr, Some, None};
ghost use Rattle.std.specs.List.{AllZip};
ghost use Rattle.aplc_lex.specs.Tokens.{refusal};
ghost use Rattle.aplc_lex.specs.declared.token.Refusal.{Refusal as RefusalOf};
ghost use Rattle.aplc_lex.specs.declared.token.Stop.TheVariants as stop;
ghost use Rattle.aplc_syntax.specs.Words.{Laid};
ghost use Rattle.aplc_syntax.specs.Refusals.{SaysFirst};
ghost use Rattle.aplc_syntax.specs.Held.{row_of, block_of};
ghost use Rattle.aplc_lex.specs.Firsts.{IsFirstOf, earlier};
ghost use Rattle.aplc_syntax.specs.Causes.{InSome, IsNoted};
ghost use Rattle.aplc_syntax.specs.Noted.{headers_of, LineStands, LineIs, BlockStands, BlockIs, RowsLaid, BlocksLaid, end_cause, line_cause, function_cause};

use crate::header::{label, read_header};
use crate::layout::{Block, DelRow, Row};
use crate::roles::Known;
use crate::statement::statement;
use crate::tree::{Function, Line};
use aplc_lex::{List, Refusal, Stop, earlier, sooner};
use std::alloc::Global;

const BAD_HEADER: u8 = 6;

const HIGH_COUNT: u8 = 10;

fn refusal(number: u8, place: u32) -> Refusal
    ensures { result ≡ refusal number place }
{
    Refusal {
        number,
        place: place as u64,
    }
}

/// The first of a refusal and another, if there is one.
fn sooner_of(a: Option<Refusal>, b: Refusal) -> Refusal
    ensures { Some result ≡ earlier a (Some b) }
{
    match a {
        None => b,
        Some(r) => sooner(r, b),
    }
}

/// A line, or the first refusal of its statement.
fn line(alloc: Global, text: &[u8], known: &Known, row: &Row) -> Result<Line, Stop>
    requires length { length text.now ≤ 262144 }
    requires laid { Laid text.now 0 row.now.words }
    ensures line { IfOk result (LineIs text.now (headers_of known.now.headers.items) row.now) }
    ensures clean { IfOk result (λ l. (r : RefusalOf) → LineStands (headers_of known.now.headers.items) row.now r → ⊥) }
    ensures refused { IfErr result (SaysFirst (LineStands (headers_of known.now.headers.items) row.now)) }
{
    let words = match known.sentence(alloc, row) {
        Ok(words) => words,
        Err(_) => return Err(Stop::Memory),
    };
    match statement(alloc, text, &words) {
        Ok(statement) => Ok(Line {
            label: label(row.words.as_slice()),
            statement,
        }),
        Err(stop) => Err(stop),
    }
}

/// Lines, and the first refusal of those that have none.
#[derive(Drop)]
struct Body {
    lines: Vec<Line>,
    first: Option<Refusal>,
}

impl Body {
    /// One more line.
    fn note(&mut self, alloc: Global, text: &[u8], known: &Known, row: &Row) -> Result<(), Stop>
        requires length { length text.now ≤ 262144 }
        requires laid { Laid text.now 0 row.now.words }
        ensures noted { OnOk result (IsNoted (LineStands (headers_of known.now.headers.items)) (LineIs text.now (headers_of known.now.headers.items)) row.now self.old.first self.new.first self.old.lines.items self.new.lines.items) }
        ensures memory { IfErr result (λ e. e ≡ stop.Memory) }
    {
        match line(alloc, text, known, row) {
            Ok(line) => match self.lines.push(line) {
                Ok(()) => Ok(()),
                Err(_) => Err(Stop::Memory),
            },
            Err(Stop::Memory) => Err(Stop::Memory),
            Err(Stop::Refused(refusal)) => {
                self.first = earlier(self.first, Some(refusal));
                Ok(())
            }
        }
    }
}

/// The lines of a function.
fn lines_of(alloc: Global, text: &[u8], known: &Known, rows: &[Row]) -> Result<Body, Stop>
    requires length { length text.now ≤ 262144 }
    requires laid { RowsLaid text.now (map row_of rows.now) }
    ensures first { IfOk result (λ b. IsFirstOf (InSome (LineStands (headers_of known.now.headers.items)) rows.now) b.first) }
    ensures lines { IfOk result (λ b. b.first ≡ None → AllZip (LineIs text.now (headers_of known.now.headers.items)) rows.now b.lines.items) }
    ensures memory { IfErr result (λ e. e ≡ stop.Memory) }
{
    let mut body = Body {
        lines: Vec::new(alloc),
        first: None,
    };
    for row in rows {
        match body.note(alloc, text, known, row) {
            Ok(()) => {}
            Err(stop) => return Err(stop),
        }
    }
    Ok(body)
}

/// The refusal of the line that closes a function, or that there is none.
fn end_cause(del: u32, closing: &Option<DelRow>) -> Option<Refusal>
    ensures { result ≡ end_cause del closing.now }
{
    match closing {
        None => Some(refusal(BAD_HEADER, del)),
        Some(row) => match row.rest.as_slice() {
            [] => None,
            [_, ..] => Some(refusal(BAD_HEADER, row.del)),
        },
    }
}

/// The refusal of line 1,000.
fn line_cause(rows: &[Row]) -> Option<Refusal>
    ensures { result ≡ line_cause rows.now }
{
    match rows.get(999) {
        None => None,
        Some(row) => Some(refusal(HIGH_COUNT, row.start)),
    }
}

/// The refusal of a 1,000th function.
pub fn function_cause(blocks: &[Block]) -> Option<Refusal>
    ensures { result ≡ function_cause blocks.now }
{
    match blocks.get(999) {
        None => None,
        Some(block) => Some(refusal(HIGH_COUNT, block.head.start)),
    }
}

/// A function, or its first refusal.
fn function(alloc: Global, text: &[u8], known: &Known, block: &Block) -> Result<Function, Stop>
    requires length { length text.now ≤ 262144 }
    requires laid { RowsLaid text.now (map row_of block.now.body) }
    ensures function { IfOk result (BlockIs text.now (headers_of known.now.headers.items) block.now) }
    ensures clean { IfOk result (λ f. (r : RefusalOf) → BlockStands (headers_of known.now.headers.items) block.now r → ⊥) }
    ensures refused { IfErr result (SaysFirst (BlockStands (headers_of known.now.headers.items) block.now)) }
{
    let body = match lines_of(alloc, text, known, block.body.as_slice()) {
        Ok(body) => body,
        Err(_) => return Err(Stop::Memory),
    };
    let header = match read_header(alloc, block.head.rest.as_slice()) {
        Ok(header) => header,
        Err(_) => return Err(Stop::Memory),
    };
    let end = end_cause(block.head.del, &block.closing);
    let shape = earlier(end, line_cause(block.body.as_slice()));
    let first = earlier(shape, body.first);
    match header {
        None => Err(Stop::Refused(sooner_of(first, refusal(BAD_HEADER, block.head.del)))),
        Some(header) => match first {
            Some(refusal) => Err(Stop::Refused(refusal)),
            None => Ok(Function {
                name: header.name,
                result: header.result,
                left: header.left,
                right: header.right,
                locals: header.locals,
                lines: List::from_vec(body.lines),
            }),
        },
    }
}

/// Functions, and the first refusal of those that have none.
#[derive(Drop)]
pub struct Functions {
    pub functions: Vec<Function>,
    pub first: Option<Refusal>,
}

impl Functions {
    /// One more function.
    fn note(&mut self, alloc: Global, text: &[u8], known: &Known, block: &Block) -> Result<(), Stop>
        requires length { length text.now ≤ 262144 }
        requires laid { RowsLaid text.now (map row_of block.now.body) }
        ensures noted { OnOk result (IsNoted (BlockStands (headers_of known.now.headers.items)) (BlockIs text.now (headers_of known.now.headers.items)) block.now self.old.first self.new.first self.old.functions.items self.new.functions.items) }
    {
        match function(alloc, text, known, block) {
            Ok(function) => match self.functions.push(function) {
                Ok(()) => Ok(()),
                Err(_) => Err(Stop::Memory),
            },
            Err(Stop::Memory) => Err(Stop::Memory),
            Err(Stop::Refused(refusal)) => {
                self.first = earlier(self.first, Some(refusal));
                Ok(())
            }
        }
    }
}

/// The functions of a text. An error says that memory was wanting.
pub fn functions_of(
    alloc: Global,
    text: &[u8],
    known: &Known,
    blocks: &[Block],
) -> Result<Functions, Stop>
    requires length { length text.now ≤ 262144 }
    requires laid { BlocksLaid text.now (map block_of blocks.now) }
    ensures first { IfOk result (λ f. IsFirstOf (InSome (BlockStands (headers_of known.now.headers.items)) blocks.now) f.first) }
    ensures functions { IfOk result (λ f. f.first ≡ None → AllZip (BlockIs text.now (headers_of known.now.headers.items)) blocks.now f.functions.items) }
{
    let mut functions = Functions {
        functions: Vec::new(alloc),
        first: None,
    };
    for block in blocks {
        match functions.note(alloc, text, known, block) {
            Ok(()) => {}
            Err(stop) => return Err(stop),
        }
    }
    Ok(functions)
}
