//! The characters of a text in quotes.
//! It must not know what stands before or behind the quotes.

ghost use Rattle.std.specs.Prelude.{◌≡◌, IfOk, chars};
ghost use Rattle.aplc_syntax.specs.Words.{undoubled, text_between, IsQuoted};
ghost use Rattle.aplc_syntax.specs.declared.word.WordKind.TheVariants as w;

use std::alloc::{AllocError, Global};

/// The characters, where two quotes side by side are one.
pub fn undoubled(alloc: Global, chars: &[char]) -> Result<Vec<u32>, AllocError>
    ensures { IfOk result (λ v. v.items ≡ undoubled chars.now) }
{
    let mut out = Vec::new(alloc);
    let mut rest = chars;
    loop {
        match rest {
            ['\'', '\'', tail @ ..] => {
                out.push('\'' as u32)?;
                rest = tail;
            }
            [c, tail @ ..] => {
                out.push(*c as u32)?;
                rest = tail;
            }
            [] => return Ok(out),
        }
    }
}

fn characters(alloc: Global, text: &str) -> Result<Vec<char>, AllocError>
    ensures { IfOk result (λ v. v.items ≡ chars text.now) }
{
    text.chars().collect(alloc)
}

/// The characters of the text whose quotes are the first and the last byte from one place up to another.
pub fn text_between(alloc: Global, text: &[u8], from: u32, to: u32) -> Result<Vec<u32>, AllocError>
    requires { IsQuoted text.now from (w.Text to) }
    ensures { IfOk result (λ v. v.items ≡ text_between text.now from to) }
{
    match std::str::from_utf8(&text[from as usize + 1..to as usize - 1]) {
        Ok(inside) => {
            let quoted = characters(alloc, inside)?;
            undoubled(alloc, &quoted)
        }
        Err(_) => unreachable!(),
    }
}
