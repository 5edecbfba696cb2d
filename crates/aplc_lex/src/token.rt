//! Tokens, spans and refusals.
//! They must not hold the text: the bytes of a token are read from the text by its span.

use thiserror::Error;

/// The bytes from `from` up to and without `to`, counted from 0 at the file's first byte.
#[derive(Clone, Copy, Debug, PartialEq, Eq)]
pub struct Span {
    pub from: u64,
    pub to: u64,
}

/// What a token is. What a name or a quoted text says stands in the text at its span, quotes too.
#[derive(Clone, Copy, Debug, PartialEq, Eq)]
pub enum TokenKind {
    /// A name of at most 63 characters.
    Name,
    /// A number and its value, in -9223372036854775807 to 9223372036854775807.
    Number(i64),
    /// A text between quotes.
    Text,
    /// The number input `⎕NUMS`.
    NumsInput,
    /// A symbol, in its first spelling.
    Symbol(char),
    /// The end of a line: LF, or CR LF.
    LineEnd,
}

/// A token and where it stands.
#[derive(Clone, Copy, Debug, PartialEq, Eq)]
pub struct Token {
    pub kind: TokenKind,
    pub span: Span,
}

/// A refusal of a source, from whichever stage: its number, which says what is refused, and its place in bytes from the
/// file's first. From `tokens` the number is 1 to 5.
#[derive(Clone, Copy, Debug, PartialEq, Eq)]
pub struct Refusal {
    pub number: u8,
    pub place: u64,
}

/// Why a stage gave no answer.
#[derive(Debug, Drop, Error)]
pub enum Stop {
    /// The source is refused by this stage; this is the first refusal.
    #[error("the source is refused")]
    Refused(Refusal),
    /// Memory was wanting. Nothing is said of the source.
    #[error("out of memory")]
    Memory,
}

/// What stands at the head of a text, and how many bytes it takes, or a refusal's number.
#[derive(Clone, Copy)]
pub enum Head {
    /// A blank or a comment.
    Skip(usize),
    /// A token.
    Found(TokenKind, usize),
    /// No token: the number of the refusal.
    Bad(u8),
}
