//! A whole text cut into tokens, and its first refusal.
//! It must not look at single characters, save for a byte order mark and, where a text is not UTF-8, quotes on a line.

ghost use Rattle.std.specs.Prelude.{◌≡◌, ◌≤◌, ◌<◌, ◌==◌, length, drop, List, All, IfOk, IfErr, MatchOption, IsUtf8};
ghost use Rattle.std.specs.Str.{IsValidUpTo};
ghost use Rattle.std.specs.List.{list_any};
ghost use Rattle.aplc_lex.specs.declared.token.Token.{Token};
ghost use Rattle.aplc_lex.specs.Tokens.{mark, line, is_excused, AreTokens, Refuses, Rise, StandsIn};
ghost use Rattle.aplc_lex.specs.Parts.{earlier, Answers, IsOfHead, Joined};

use crate::heads::{OPEN_QUOTE, head_at};
use crate::token::{Head, Refusal, Span, Stop, Token};
use std::alloc::Global;

const NO_UTF8: u8 = 1;

/// The tokens from `start` on, or the refusal of the first head that is no token.
fn cut_from(alloc: Global, text: &[u8], start: usize) -> Result<Vec<Token>, Stop>
    requires { start ≤ length text.now }
    ensures value { Answers (drop start text.now) start result }
    ensures number { IfErr result IsOfHead }
    ensures spans { IfOk result (λ v. Rise 0 v.items (length text.now)) }
{
    let mut out = Vec::new(alloc);
    let mut at = start;
    while at < text.len() {
        match head_at(text, at) {
            Head::Skip(n) => at += n,
            Head::Found(kind, n) => {
                let token = Token {
                    kind,
                    span: Span {
                        from: at as u64,
                        to: (at + n) as u64,
                    },
                };
                if out.push(token).is_err() {
                    return Err(Stop::Memory);
                }
                at += n;
            }
            Head::Bad(number) => {
                return Err(Stop::Refused(Refusal {
                    number,
                    place: at as u64,
                }));
            }
        }
    }
    Ok(out)
}

/// The place from which a text is not UTF-8.
fn bad_place(text: &[u8]) -> Option<u64>
    ensures { MatchOption result (IsUtf8 text.now) (λ p. IsValidUpTo text.now p) }
{
    match std::str::from_utf8(text) {
        Ok(_) => None,
        Err(e) => Some(e.valid_up_to() as u64),
    }
}

/// The length of a byte order mark at the start, or 0.
fn mark(text: &[u8]) -> usize
    ensures value { result ≡ mark text.now }
    ensures within { result ≤ length text.now }
{
    match text {
        [0xef, 0xbb, 0xbf, ..] => 3,
        _ => 0,
    }
}

/// The bytes from `at` on before the end of the line.
fn line_length(text: &[u8], at: u64) -> u64
    ensures { result ≡ length (line (drop at text.now)) }
{
    text.iter()
        .skip(at as usize)
        .take_while(|b| **b != b'\n')
        .count() as u64
}

/// Whether a quote stands from `at` on before the end of the line.
fn has_quote(text: &[u8], at: u64) -> bool
    ensures { result ≡ list_any (λ b. b == 39) (line (drop at text.now)) }
{
    text.iter()
        .skip(at as usize)
        .take_while(|b| **b != b'\n')
        .any(|b| *b == b'\'')
}

/// Whether a quote is open only because what is not UTF-8 from `bad` on stands before another quote of its line.
#[tactic(auto, unfolding(crate::specs::Tokens::is_excused))]
fn is_excused(text: &[u8], r: Refusal, bad: u64) -> bool
    ensures { result ≡ is_excused text.now r bad }
{
    r.number == OPEN_QUOTE
        && r.place < bad
        && bad - r.place < line_length(text, r.place)
        && has_quote(text, bad)
}

/// The first of a refusal of a head and of that of what is not UTF-8 from `bad` on.
fn earlier(text: &[u8], r: Refusal, bad: u64) -> Refusal
    ensures { result ≡ earlier text.now r bad }
{
    if r.place < bad {
        if is_excused(text, r, bad) {
            return Refusal {
                number: NO_UTF8,
                place: bad,
            };
        }
        return r;
    }
    Refusal {
        number: NO_UTF8,
        place: bad,
    }
}

/// The answer of the heads, or the refusal of what is not UTF-8 where that comes first.
fn joined(
    text: &[u8],
    answer: Result<Vec<Token>, Stop>,
    bad: Option<u64>,
) -> Result<Vec<Token>, Stop>
    ensures { Joined text.now answer bad result }
{
    match bad {
        None => answer,
        Some(place) => match answer {
            Err(Stop::Memory) => Err(Stop::Memory),
            Err(Stop::Refused(r)) => Err(Stop::Refused(earlier(text, r, place))),
            Ok(_) => Err(Stop::Refused(Refusal {
                number: NO_UTF8,
                place,
            })),
        },
    }
}

/// The tokens of a text in order, with their spans, or its first refusal: 1 where it is not UTF-8, 2 where a character
/// begins no token, 3 for a quote that its line does not close, 4 for a number out of range, 5 for a name over 63
/// characters. The smallest place counts, then the smallest number. `Memory` says nothing of the text.
pub fn tokens(alloc: Global, text: &[u8]) -> Result<Vec<Token>, Stop>
    ensures ok { IfOk result (λ v. AreTokens text.now v.items) }
    ensures only { IfOk result (λ v. (ts : List Token) → AreTokens text.now ts → ts ≡ v.items) }
    ensures spans { IfOk result (λ v. Rise 0 v.items (length text.now)) }
    ensures stand { IfOk result (λ v. All (StandsIn text.now) v.items) }
    ensures refused { IfErr result (Refuses text.now) }
{
    let start = mark(text);
    let bad = bad_place(text);
    joined(text, cut_from(alloc, text, start), bad)
}
