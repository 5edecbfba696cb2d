//! Reads the APL names of locations.
//! It must not know statements.

ghost use Rattle.std.specs.Prelude.{◌≡◌, ◌++◌, IfOk, false, [], Some};
ghost use Rattle.aplc_cread.specs.Reading.{Reads, Any, first};
ghost use Rattle.aplc_cread.specs.Stmts.{NameThen};
ghost use Rattle.aplc_cread.specs.AplNames.{quote, Longer, starts_more as starts_more_code, starts_letter as starts_letter_code};

use crate::lexical::{Halt, one_of, split};
use aplc_cprof::List;
use std::alloc::{AllocError, Global};

fn is_letter(c: u8) -> bool
    ensures { result ≡ starts_letter_code (Some c) }
{
    (65 <= c && c <= 90) || (97 <= c && c <= 122) || c == 95
}

fn starts_letter(input: &[u8]) -> bool
    ensures { result ≡ starts_letter_code (first input.now) }
{
    match split(input) {
        None => false,
        Some((c, _)) => is_letter(c),
    }
}

fn is_more(c: u8) -> bool
    ensures { result ≡ starts_more_code (Some c) }
{
    is_letter(c) || (48 <= c && c <= 57)
}

fn starts_more(input: &[u8]) -> bool
    ensures { result ≡ starts_more_code (first input.now) }
{
    match split(input) {
        None => false,
        Some((c, _)) => is_more(c),
    }
}

fn empty(alloc: Global) -> List<u8>
    ensures { result ≡ [] }
{
    List::from_vec(Vec::new(alloc))
}

fn joined(text: List<u8>, more: &[u8]) -> Result<List<u8>, AllocError>
    ensures { IfOk result (λ l. l ≡ text ++ more.now) }
{
    let mut bytes = text.into_vec();
    bytes.extend_from_slice(more)?;
    Ok(List::from_vec(bytes))
}

/// Behind the characters `out` of a name: at most `left` more, and the quote. It calls itself once for each.
#[cycle(name)]
fn more<'a>(out: List<u8>, left: u32, input: &'a [u8]) -> Result<(List<u8>, &'a [u8]), Halt<'a>>
    ensures { Reads Any (Longer out left) input.now result }
{
    if !starts_more(input) {
        return marked(out, left, input);
    }
    let (c, rest) = match split(input) {
        None => unreachable!(),
        Some(front) => front,
    };
    if left == 0 {
        return Err(Halt::At(input));
    }
    let out = joined(out, &[c])?;
    more(out, left - 1, rest)
}

/// The same where no letter and no digit stands there.
#[cycle(name)]
fn marked<'a>(out: List<u8>, left: u32, input: &'a [u8]) -> Result<(List<u8>, &'a [u8]), Halt<'a>>
    requires { starts_more_code (first input.now) ≡ false }
    ensures { Reads Any (Longer out left) input.now result }
{
    let (i, rest) = one_of(
        &[b"\", ", &[0xE2, 0x88, 0x86], &[0xE2, 0x8D, 0x99]],
        &[true, 0 < left, 0 < left],
        input,
    )?;
    if i == 0 {
        return Ok((out, rest));
    }
    if i == 1 {
        let out = joined(out, &[0xE2, 0x88, 0x86])?;
        return more(out, left - 1, rest);
    }
    let out = joined(out, &[0xE2, 0x8D, 0x99])?;
    more(out, left - 1, rest)
}

/// A name that begins with one of the letters of three bytes.
fn first_mark<'a>(out: List<u8>, input: &'a [u8]) -> Result<(List<u8>, &'a [u8]), Halt<'a>>
    requires empty { out ≡ [] }
    requires other { starts_letter_code (first input.now) ≡ false }
    ensures { Reads Any (NameThen quote) input.now result }
{
    let (i, rest) = one_of(
        &[&[0xE2, 0x88, 0x86], &[0xE2, 0x8D, 0x99]],
        &[true; 2],
        input,
    )?;
    if i == 0 {
        let out = joined(out, &[0xE2, 0x88, 0x86])?;
        return more(out, 62, rest);
    }
    let out = joined(out, &[0xE2, 0x8D, 0x99])?;
    more(out, 62, rest)
}

/// An APL name of 1 to 63 characters, and what stands behind it in a location.
pub(crate) fn name(alloc: Global, input: &[u8]) -> Result<(List<u8>, &[u8]), Halt>
    ensures { Reads Any (NameThen quote) input.now result }
{
    let out = empty(alloc);
    if !starts_letter(input) {
        return first_mark(out, input);
    }
    let (c, rest) = match split(input) {
        None => unreachable!(),
        Some(front) => front,
    };
    let out = joined(out, &[c])?;
    more(out, 62, rest)
}
