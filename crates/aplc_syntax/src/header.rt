//! The header of a function, a label and a declaration, each from the words of its line.
//! It must not know which names are functions.

ghost use Rattle.std.specs.Prelude.{◌≡◌, map, option_map, IfOk};
ghost use Rattle.aplc_syntax.specs.Layout.{placed, named, locals, called, header, label, is_called, origin_if, kind_named, var_if, declaration_in};
ghost use Rattle.aplc_syntax.specs.Held.{header_of_held, headed, called_one, called_two, declared_of};

use crate::tree::{NameId, Named, Var};
use crate::word::{Word, WordKind};
use aplc_lex::List;
use aplc_scalar::Kind;
use std::alloc::{AllocError, Global};

/// The names of a header.
#[derive(Drop)]
pub struct Header {
    pub name: Named,
    pub result: Option<Named>,
    pub left: Option<Named>,
    pub right: Option<Named>,
    pub locals: List<Named>,
}

/// What a line before the first function says.
#[derive(Clone, Copy)]
pub enum Declaration {
    Nothing,
    Origin(i64),
    Var(Var),
}

fn named(name: u32, place: u32) -> Named
    ensures { result ≡ named name place }
{
    Named {
        name: NameId(name),
        place: place as u64,
    }
}

/// Any number of local names.
fn locals(alloc: Global, words: &[Word]) -> Result<Option<List<Named>>, AllocError>
    ensures { IfOk result (λ o. o ≡ locals (map placed words.now)) }
{
    let mut out = Vec::new(alloc);
    let mut rest = words;
    loop {
        match rest {
            [] => return Ok(Some(List::from_vec(out))),
            [x, after @ ..] => match x.kind {
                WordKind::Semicolon => match after {
                    [y, tail @ ..] => match y.kind {
                        WordKind::Name(_, n) => {
                            out.push(named(n, y.place))?;
                            rest = tail;
                        }
                        _ => return Ok(None),
                    },
                    [] => return Ok(None),
                },
                _ => return Ok(None),
            },
        }
    }
}

/// A header of these names, and then the local names.
fn headed(
    alloc: Global,
    outcome: Option<Named>,
    left: Option<Named>,
    name: Named,
    right: Option<Named>,
    words: &[Word],
) -> Result<Option<Header>, AllocError>
    ensures { IfOk result (λ o. option_map header_of_held o ≡ headed outcome left name right (map placed words.now)) }
{
    match locals(alloc, words)? {
        None => Ok(None),
        Some(locals) => Ok(Some(Header {
            name,
            result: outcome,
            left,
            right,
            locals,
        })),
    }
}

/// The header whose first two names are these, behind its result.
fn called_two(
    alloc: Global,
    outcome: Option<Named>,
    first: Named,
    second: Named,
    words: &[Word],
) -> Result<Option<Header>, AllocError>
    ensures { IfOk result (λ o. option_map header_of_held o ≡ called_two outcome first second (map placed words.now)) }
{
    match words {
        [x, rest @ ..] => match x.kind {
            WordKind::Name(_, n) => {
                let right = Some(named(n, x.place));
                headed(alloc, outcome, Some(first), second, right, rest)
            }
            _ => headed(alloc, outcome, None, first, Some(second), words),
        },
        [] => headed(alloc, outcome, None, first, Some(second), words),
    }
}

/// The header whose first name is this, behind its result.
fn called_one(
    alloc: Global,
    outcome: Option<Named>,
    first: Named,
    words: &[Word],
) -> Result<Option<Header>, AllocError>
    ensures { IfOk result (λ o. option_map header_of_held o ≡ called_one outcome first (map placed words.now)) }
{
    match words {
        [x, rest @ ..] => match x.kind {
            WordKind::Name(_, n) => called_two(alloc, outcome, first, named(n, x.place), rest),
            _ => headed(alloc, outcome, None, first, None, words),
        },
        [] => headed(alloc, outcome, None, first, None, words),
    }
}

/// The names of a function behind its result, and the local names.
fn called(
    alloc: Global,
    outcome: Option<Named>,
    words: &[Word],
) -> Result<Option<Header>, AllocError>
    ensures { IfOk result (λ o. option_map header_of_held o ≡ called outcome (map placed words.now)) }
{
    match words {
        [x, rest @ ..] => match x.kind {
            WordKind::Name(_, n) => called_one(alloc, outcome, named(n, x.place), rest),
            _ => Ok(None),
        },
        [] => Ok(None),
    }
}

/// The header that words are, if they are one.
pub fn read_header(alloc: Global, words: &[Word]) -> Result<Option<Header>, AllocError>
    ensures { IfOk result (λ o. option_map header_of_held o ≡ header (map placed words.now)) }
{
    match words {
        [x, y, rest @ ..] => match (x.kind, y.kind) {
            (WordKind::Name(_, n), WordKind::Assign) => {
                called(alloc, Some(named(n, x.place)), rest)
            }
            _ => called(alloc, None, words),
        },
        _ => called(alloc, None, words),
    }
}

/// The label at the head of a line.
pub fn label(words: &[Word]) -> Option<Named>
    ensures { result ≡ label (map placed words.now) }
{
    match words {
        [x, y, ..] => match (x.kind, y.kind) {
            (WordKind::Name(_, n), WordKind::Colon) => Some(named(n, x.place)),
            _ => None,
        },
        _ => None,
    }
}

/// Whether the name of this number has these bytes.
fn is_called(names: &[List<u8>], n: u32, name: &[u8]) -> bool
    ensures { result ≡ is_called names.now n name.now }
{
    match names.get(n as usize) {
        Some(bytes) => bytes.as_slice() == name,
        None => false,
    }
}

fn origin_if(holds: bool, v: i64) -> Option<Declaration>
    ensures { option_map declared_of result ≡ origin_if holds v }
{
    if holds && 0 <= v && v <= 1 {
        return Some(Declaration::Origin(v));
    }
    None
}

fn kind_named(names: &[List<u8>], n: u32) -> Option<Kind>
    ensures { result ≡ kind_named names.now n }
{
    if is_called(names, n, b"NUM") {
        return Some(Kind::Num);
    }
    if is_called(names, n, b"CHAR") {
        return Some(Kind::Char);
    }
    None
}

fn var_if(holds: bool, name: Named, kind: Option<Kind>, v: i64) -> Option<Declaration>
    ensures { option_map declared_of result ≡ var_if holds name kind v }
{
    let Some(kind) = kind else {
        return None;
    };
    if holds && 0 <= v && v <= 8 {
        return Some(Declaration::Var(Var {
            name,
            kind,
            rank: v as u8,
        }));
    }
    None
}

/// What a line says where these are the names, if it is a declaration or empty.
pub fn read_declaration(names: &[List<u8>], words: &[Word]) -> Option<Declaration>
    ensures { option_map declared_of result ≡ declaration_in names.now (map placed words.now) }
{
    match words {
        [] => Some(Declaration::Nothing),
        [o, v] => match (o.kind, v.kind) {
            (WordKind::Name(_, o), WordKind::Number(v)) => {
                origin_if(is_called(names, o, b"ORIGIN"), v)
            }
            _ => None,
        },
        [v, n, k, r, x] => match (v.kind, n.kind, k.kind, r.kind, x.kind) {
            (
                WordKind::Name(_, v),
                WordKind::Name(_, m),
                WordKind::Name(_, k),
                WordKind::Name(_, r),
                WordKind::Number(x),
            ) => var_if(
                is_called(names, v, b"VAR") && is_called(names, r, b"RANK"),
                named(m, n.place),
                kind_named(names, k),
                x,
            ),
            _ => None,
        },
        _ => None,
    }
}
