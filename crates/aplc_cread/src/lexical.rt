//! Reads fixed texts and numbers.
//! It must not know the forms of a text.

ghost use Rattle.std.specs.Prelude.{◌≡◌, ℕ, ◌<◌, ◌≤◌, ◌^◌, length, ◌++◌, decimal, get_or, false, true, IsTrue};
ghost use Rattle.aplc_cread.specs.declared.lexical.Halt.TheVariants.{Memory};
ghost use Rattle.aplc_cread.specs.Reading.{Passes, Reads, Lit, Any, Split, OneOf, nows, apart};
ghost use Rattle.aplc_cread.specs.Reading.{Number, NoDigit, is_digit as is_digit_code};

use std::alloc::{AllocError, AllocFailed};

#[derive(Drop)]
pub enum Halt<'a> {
    Memory,
    At(&'a [u8]),
}

/// The first byte and the others.
pub fn split(input: &[u8]) -> Option<(u8, &[u8])>
    ensures { Split result input.now }
{
    match input {
        [] => None,
        [c, more @ ..] => Some((*c, more)),
    }
}

/// The fixed text, and no other.
pub fn literal<'a>(text: &[u8], input: &'a [u8]) -> Result<&'a [u8], Halt<'a>>
    ensures { Passes Any (Lit text.now) tt input.now result }
{
    let mut wanted = text;
    let mut rest = input;
    while let Some((c, more)) = split(wanted) {
        match split(rest) {
            None => return Err(Halt::At(rest)),
            Some((d, others)) => {
                if c != d {
                    return Err(Halt::At(rest));
                }
                wanted = more;
                rest = others;
            }
        }
    }
    Ok(rest)
}

/// A plain decimal below the bound.
pub fn number_below<'a>(bound: u64, input: &'a [u8]) -> Result<(u64, &'a [u8]), Halt<'a>>
    requires positive { 0 < bound }
    requires small { bound ≤ 2 ^ 63 }
    ensures { Reads NoDigit (Number bound) input.now result }
{
    match split(input) {
        None => Err(Halt::At(input)),
        Some((c, more)) => {
            if !is_digit(c) {
                return Err(Halt::At(input));
            }
            let number = u64::from(c - b'0');
            if number >= bound {
                return Err(Halt::At(input));
            }
            more_digits(bound, number, input, more)
        }
    }
}

pub(crate) fn is_digit(c: u8) -> bool
    ensures { result ≡ is_digit_code c }
{
    48 <= c && c < 58
}

/// The digits after those that make the number so far.
fn more_digits<'a>(
    bound: u64,
    so_far: u64,
    input: &'a [u8],
    after: &'a [u8],
) -> Result<(u64, &'a [u8]), Halt<'a>>
    requires below { so_far < bound }
    requires small { bound ≤ 2 ^ 63 }
    requires read { input.now ≡ decimal so_far ++ after.now }
    ensures { Reads NoDigit (Number bound) input.now result }
{
    let mut number = so_far;
    let mut rest = after;
    while let Some((c, more)) = split(rest) {
        if !is_digit(c) {
            return Ok((number, rest));
        }
        let digit = u64::from(c - b'0');
        if number == 0 {
            return Err(Halt::At(rest));
        }
        if digit >= bound {
            return Err(Halt::At(rest));
        }
        if number > (bound - 1 - digit) / 10 {
            return Err(Halt::At(rest));
        }
        number = 10 * number + digit;
        rest = more;
    }
    Ok((number, rest))
}

impl<'a> From<AllocError> for Halt<'a> {
    ghost from_gives = { λ _ e. e ≡ Memory };

    fn from(_e: AllocError) -> Halt<'a> {
        Halt::Memory
    }
}

/// The one of the texts that is there, by its number.
pub fn one_of<'a>(
    texts: &[&[u8]],
    allowed: &[bool],
    input: &'a [u8],
) -> Result<(usize, &'a [u8]), Halt<'a>>
    requires as_many { length allowed.now ≡ length texts.now }
    requires some { (i : ℕ) × (i < length (nows texts.now)) × (get_or allowed.now i false ≡ true) }
    requires apart { IsTrue (apart (nows texts.now)) }
    ensures { Reads Any (OneOf (nows texts.now) allowed.now) input.now result }
{
    let mut best = input;
    for i in 0..texts.len() {
        if allowed[i] {
            match literal(texts[i], input) {
                Ok(rest) => return Ok((i, rest)),
                Err(Halt::Memory) => return Err(Halt::Memory),
                Err(Halt::At(rest)) => {
                    if rest.len() < best.len() {
                        best = rest;
                    }
                }
            }
        }
    }
    Err(Halt::At(best))
}

impl<'a, T: Drop> From<AllocFailed<T>> for Halt<'a> {
    ghost from_gives = { λ _ e. e ≡ Memory };

    fn from(_e: AllocFailed<T>) -> Halt<'a> {
        Halt::Memory
    }
}
