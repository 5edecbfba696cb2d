//! Characters: digits, letters, symbols, and the bytes that spell them.
//! It must not know of tokens.

ghost use Rattle.std.specs.Prelude.{◌≡◌, nat_eq};
ghost use Rattle.aplc_lex.specs.Signs.{is_digit, is_letter, is_delta, is_tail, is_two, two, is_three, three, symbol_of};

/// Whether a byte is a digit.
pub fn is_digit(b: u8) -> bool
    ensures { result ≡ is_digit b }
{
    b'0' <= b && b <= b'9'
}

/// Whether a byte is one of A to Z, a to z and `_`.
pub fn is_letter(b: u8) -> bool
    ensures { result ≡ is_letter b }
{
    b'A' <= b && b <= b'Z' || (b'a' <= b && b <= b'z' || b == b'_')
}

/// Whether a character is a letter of names that is not ASCII.
pub fn is_delta(c: Option<char>) -> bool
    ensures { result ≡ is_delta c }
{
    match c {
        Some(c) => c == '∆' || c == '⍙',
        None => false,
    }
}

/// Whether a byte is a quote.
pub fn is_quote(b: u8) -> bool
    ensures { result ≡ nat_eq b 39 }
{
    b == b'\''
}

/// Whether a byte is a line feed.
pub fn is_line_feed(b: u8) -> bool
    ensures { result ≡ nat_eq b 10 }
{
    b == b'\n'
}

fn is_tail(b: u8) -> bool
    ensures { result ≡ is_tail b }
{
    128 <= b && b < 192
}

fn is_two(b: u8, c: u8) -> bool
    ensures { result ≡ is_two b c }
{
    194 <= b && b < 224 && is_tail(c)
}

/// The character that two bytes spell.
pub fn two(b: u8, c: u8) -> Option<char>
    ensures { result ≡ two b c }
{
    if !is_two(b, c) {
        return None;
    }
    char::from_u32((b as u32 - 192) * 64 + (c as u32 - 128))
}

fn is_three(b: u8, c: u8, d: u8) -> bool
    ensures { result ≡ is_three b c d }
{
    224 <= b
        && b < 240
        && is_tail(c)
        && is_tail(d)
        && (224 < b || 160 <= c)
        && (b < 237 || 237 < b || c < 160)
}

/// The character that three bytes spell.
pub fn three(b: u8, c: u8, d: u8) -> Option<char>
    ensures { result ≡ three b c d }
{
    if !is_three(b, c, d) {
        return None;
    }
    char::from_u32((b as u32 - 224) * 4096 + (c as u32 - 128) * 64 + (d as u32 - 128))
}

/// The symbol that a character is, in its first spelling.
#[tactic(auto, unfolding(crate::specs::Signs::symbol_of))]
pub fn symbol(c: char) -> Option<char>
    ensures { result ≡ symbol_of c }
{
    match c {
        '∣' => Some('|'),
        '∼' => Some('~'),
        '^' => Some('∧'),
        '∈' => Some('∊'),
        '+'
        | '-'
        | '×'
        | '⌈'
        | '⌊'
        | '<'
        | '≤'
        | '='
        | '≥'
        | '>'
        | '≠'
        | '∧'
        | '∨'
        | '⍲'
        | '⍱'
        | '~'
        | '⍴'
        | ','
        | '⍳'
        | '↑'
        | '↓'
        | '⌽'
        | '⊖'
        | '⍉'
        | '/'
        | '⌿'
        | '\\'
        | '⍀'
        | '∊'
        | '.'
        | '∘'
        | '←'
        | '→'
        | '('
        | ')'
        | '['
        | ']'
        | ';'
        | ':'
        | '⍞'
        | '⎕'
        | '∇'
        | '|' => Some(c),
        _ => None,
    }
}
