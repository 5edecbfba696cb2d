//! Tokens as the grammar sees them.
//! They must not hold the text; of a name they have the number alone. Places fit in 32 bits, as texts are short.

use crate::tree::{Axis, Primitive};
use aplc_scalar::ScalarFn;

/// How many arguments a function takes.
#[derive(Clone, Copy)]
pub enum Arity {
    Niladic,
    Monadic,
    Dyadic,
}

/// What a name is by the known headers.
#[derive(Clone, Copy)]
pub enum Role {
    /// It heads no function.
    Variable,
    /// A function with a result.
    Function(Arity),
    /// A function without a result.
    Procedure(Arity),
}

/// Which way a stroke leans.
#[derive(Clone, Copy)]
pub enum Stroke {
    /// `/` and `⌿`: it reduces or replicates.
    Slash,
    /// `\` and `⍀`: it scans or expands.
    Backslash,
}

/// What a token is to the grammar.
#[derive(Clone, Copy)]
pub enum WordKind {
    Number(i64),
    /// A text, and where it ends in bytes from the file's first.
    Text(u32),
    /// A name, by its role and its number.
    Name(Role, u32),
    /// `⍞`
    TextInput,
    /// `⎕NUMS`
    NumsInput,
    /// A scalar function of one argument or two.
    Arith(ScalarFn),
    /// A scalar function of two arguments alone.
    Compare(ScalarFn),
    /// `~`, which takes one argument alone.
    Not,
    /// Another primitive of one argument or two.
    Both(Primitive),
    /// Another primitive of two arguments alone.
    Dyadic(Primitive),
    /// `⌽` or `⊖`, with the axis that it has where none is named.
    Turn(Axis),
    /// A stroke, with the axis that it has where none is named.
    Stroke(Stroke, Axis),
    Jot,
    Dot,
    Assign,
    Branch,
    Open,
    Close,
    OpenBracket,
    CloseBracket,
    Semicolon,
    Colon,
    Quad,
    Del,
    /// The end of a line, and where the next line begins.
    LineEnd(u32),
    /// No symbol of the language.
    Other,
}

/// A word and where it stands, in bytes from the file's first.
#[derive(Clone, Copy)]
pub struct Word {
    pub kind: WordKind,
    pub place: u32,
}
