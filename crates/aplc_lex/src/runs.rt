//! The longest runs at the front of bytes: of names, digits, texts and comments.
//! It must not know of tokens.

ghost use Rattle.std.specs.Prelude.{◌≡◌, ◌+◌, ◌≤◌, ◌<◌, length, IfSome};
ghost use Rattle.aplc_lex.specs.Heads.{name_bytes, name_chars, digits, value_from, text_bytes, comment_bytes, in_range_of};
ghost use Rattle.aplc_lex.specs.Parts.{at_quote};

use crate::signs::{is_delta, is_digit, is_letter, is_line_feed, is_quote, three};

/// The bytes and the characters of the longest run of characters of names.
pub fn name_run(bytes: &[u8]) -> (usize, usize)
    ensures bytes { result.0 ≡ name_bytes bytes.now }
    ensures chars { result.1 ≡ name_chars bytes.now }
    ensures within { result.0 ≤ length bytes.now }
{
    let mut rest = bytes;
    let mut n = 0;
    let mut count = 0;
    loop {
        match rest {
            [b, tail @ ..] if is_letter(*b) || is_digit(*b) => {
                rest = tail;
                n += 1;
                count += 1;
            }
            [b, c, d, tail @ ..] if is_delta(three(*b, *c, *d)) => {
                rest = tail;
                n += 3;
                count += 1;
            }
            _ => return (n, count),
        }
    }
}

/// The length of the longest run of digits.
pub fn digit_run(bytes: &[u8]) -> usize
    ensures value { result ≡ digits bytes.now }
    ensures within { result ≤ length bytes.now }
{
    let mut n = 0;
    for b in bytes {
        if !is_digit(*b) {
            return n;
        }
        n += 1;
    }
    n
}

/// The value of the longest run of digits, if it is at most 9223372036854775807.
#[tactic(auto, using(crate::proofs::Values::values))]
pub fn magnitude(bytes: &[u8]) -> Option<u64>
    ensures { result ≡ in_range_of (value_from 0 bytes.now) }
{
    let mut value: u64 = 0;
    for b in bytes {
        if !is_digit(*b) {
            return Some(value);
        }
        if value > 922_337_203_685_477_580 {
            return None;
        }
        value = value * 10 + (*b - b'0') as u64;
        if value > 9_223_372_036_854_775_807 {
            return None;
        }
    }
    Some(value)
}

#[tactic(auto, unfolding(crate::specs::Parts::at_quote))]
fn quote_at(bytes: &[u8], i: usize) -> bool
    ensures { result ≡ at_quote bytes.now i }
{
    i < bytes.len() && bytes[i] == b'\''
}

/// The bytes of a text with both quotes, from those behind its opening quote. `None` where it is open.
#[tactic(auto, using(crate::proofs::Values::texts))]
pub fn text_run(bytes: &[u8]) -> Option<usize>
    ensures value { result ≡ text_bytes 1 bytes.now }
    ensures within { IfSome result (λ n. (0 < n) × (n ≤ length bytes.now + 1)) }
{
    let mut i = 0;
    while i < bytes.len() {
        if is_line_feed(bytes[i]) {
            return None;
        }
        if is_quote(bytes[i]) {
            if quote_at(bytes, i + 1) {
                i += 2;
            } else {
                return Some(i + 2);
            }
        } else {
            i += 1;
        }
    }
    None
}

/// The bytes of a comment, up to the line's end.
pub fn comment_run(bytes: &[u8]) -> usize
    ensures value { result ≡ comment_bytes bytes.now }
    ensures within { result ≤ length bytes.now }
{
    let mut rest = bytes;
    let mut n = 0;
    loop {
        match rest {
            [] | [b'\n', ..] | [b'\r', b'\n', ..] => return n,
            [_, tail @ ..] => {
                rest = tail;
                n += 1;
            }
        }
    }
}
