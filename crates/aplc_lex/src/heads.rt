//! What stands at the head of a text.
//! It must not know where in a file the text stands, nor test that it is UTF-8.

ghost use Rattle.std.specs.Prelude.{◌≡◌, ◌+◌, ◌-◌, ◌<◌, ◌≤◌, length, drop, pos, neg_ℤ, IfSome};
ghost use Rattle.aplc_lex.specs.Heads.{digits, begins_name, name_bytes, named, positive, negative, quoted, sign, quad, of_two, of_three, of_wide, wide, line_end, head};
ghost use Rattle.aplc_lex.specs.Parts.{Fits};
ghost use Rattle.aplc_lex.specs.Signs.{two};

use crate::runs::{comment_run, digit_run, magnitude, name_run, text_run};
use crate::signs::{is_digit, symbol, three, two};
use crate::token::{Head, TokenKind};

const CHARACTER: u8 = 2;

pub const OPEN_QUOTE: u8 = 3;

const WIDE_NUMBER: u8 = 4;

const LONG_NAME: u8 = 5;

const NAME_LIMIT: usize = 63;

/// The name of so many bytes and characters.
fn named(n: usize, chars: usize) -> Head
    ensures { result ≡ named n chars }
{
    if chars > NAME_LIMIT {
        Head::Bad(LONG_NAME)
    } else {
        Head::Found(TokenKind::Name, n)
    }
}

/// The number without sign at the head.
fn positive(bytes: &[u8]) -> Head
    requires { 0 < digits bytes.now }
    ensures value { result ≡ positive bytes.now }
    ensures within { Fits result (length bytes.now) }
{
    match magnitude(bytes) {
        Some(v) => Head::Found(TokenKind::Number(v as i64), digit_run(bytes)),
        None => Head::Bad(WIDE_NUMBER),
    }
}

/// The number behind a high minus.
fn negative(bytes: &[u8]) -> Head
    ensures value { result ≡ negative bytes.now }
    ensures within { Fits result (length bytes.now + 2) }
{
    let n = digit_run(bytes);
    if n == 0 {
        return Head::Bad(CHARACTER);
    }
    match magnitude(bytes) {
        Some(v) => Head::Found(TokenKind::Number(-(v as i64)), n + 2),
        None => Head::Bad(WIDE_NUMBER),
    }
}

/// The text of so many bytes, or the open quote.
fn quoted(n: Option<usize>) -> Head
    ensures { result ≡ quoted n }
{
    match n {
        Some(n) => Head::Found(TokenKind::Text, n),
        None => Head::Bad(OPEN_QUOTE),
    }
}

/// The symbol of so many bytes, or no token.
fn sign(c: Option<char>, n: usize) -> Head
    ensures { result ≡ sign c n }
{
    match c {
        Some(c) => Head::Found(TokenKind::Symbol(c), n),
        None => Head::Bad(CHARACTER),
    }
}

/// Whether a name stands at the head.
fn begins_name(bytes: &[u8]) -> bool
    ensures { result ≡ begins_name bytes.now }
{
    match bytes {
        [] => false,
        [b, ..] => name_run(bytes).0 > 0 && !is_digit(*b),
    }
}

/// What a quad before these bytes is.
fn quad(bytes: &[u8]) -> Head
    ensures value { result ≡ quad bytes.now }
    ensures within { Fits result (length bytes.now + 3) }
{
    if !begins_name(bytes) {
        return Head::Found(TokenKind::Symbol('⎕'), 3);
    }
    if name_run(bytes).0 == 4 && bytes.starts_with(b"NUMS") {
        return Head::Found(TokenKind::NumsInput, 7);
    }
    Head::Bad(CHARACTER)
}

/// What a character of two bytes before these bytes is.
fn of_two(c: char, rest: &[u8]) -> Head
    ensures value { result ≡ of_two c rest.now }
    ensures within { Fits result (length rest.now + 2) }
{
    if c == '¯' {
        return negative(rest);
    }
    sign(symbol(c), 2)
}

/// What a character of three bytes before these bytes is.
fn of_three(c: Option<char>, rest: &[u8]) -> Head
    ensures value { result ≡ of_three c rest.now }
    ensures within { Fits result (length rest.now + 3) }
{
    match c {
        None => Head::Bad(CHARACTER),
        Some('⍝') => Head::Skip(3 + comment_run(rest)),
        Some('⎕') => quad(rest),
        Some(c) => sign(symbol(c), 3),
    }
}

/// What two bytes before these bytes are, where they are not ASCII and no name.
fn of_wide(b: u8, c: u8, rest: &[u8]) -> Head
    ensures value { result ≡ of_wide (two b c) b c rest.now }
    ensures within { Fits result (length rest.now + 2) }
{
    match two(b, c) {
        Some(c) => of_two(c, rest),
        None => match rest {
            [d, tail @ ..] => of_three(three(b, c, *d), tail),
            [] => Head::Bad(CHARACTER),
        },
    }
}

/// What stands at the head, where that is not ASCII and no name.
fn wide(bytes: &[u8]) -> Head
    ensures value { result ≡ wide bytes.now }
    ensures within { Fits result (length bytes.now) }
{
    match bytes {
        [b, c, rest @ ..] => of_wide(*b, *c, rest),
        _ => Head::Bad(CHARACTER),
    }
}

/// What a CR before these bytes is.
fn line_end(rest: &[u8]) -> Head
    ensures value { result ≡ line_end rest.now }
    ensures within { Fits result (length rest.now + 1) }
{
    match rest {
        [b'\n', ..] => Head::Found(TokenKind::LineEnd, 2),
        _ => Head::Bad(CHARACTER),
    }
}

/// What stands at the head of a text that has a byte.
#[tactic(auto, unfolding(crate::specs::Heads::head))]
fn head(bytes: &[u8]) -> Head
    requires { 0 < length bytes.now }
    ensures value { result ≡ head bytes.now }
    ensures within { Fits result (length bytes.now) }
{
    let b = bytes[0];
    let rest = &bytes[1..];
    if b == b' ' || b == b'\t' {
        return Head::Skip(1);
    }
    if b == b'\n' {
        return Head::Found(TokenKind::LineEnd, 1);
    }
    if b == b'\r' {
        return line_end(rest);
    }
    if b == b'\'' {
        return quoted(text_run(rest));
    }
    if is_digit(b) {
        return positive(bytes);
    }
    let (n, chars) = name_run(bytes);
    if n > 0 {
        return named(n, chars);
    }
    if b < 128 {
        return sign(symbol(b as char), 1);
    }
    wide(bytes)
}

/// What stands at place `at` of a text.
pub fn head_at(text: &[u8], at: usize) -> Head
    requires { at < length text.now }
    ensures value { result ≡ head (drop at text.now) }
    ensures within { Fits result (length text.now - at) }
{
    head(&text[at..])
}
