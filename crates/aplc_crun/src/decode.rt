//! What the bytes of a line mean as cells.
//! It must not know where a line ends, nor what becomes of its cells.

ghost use Rattle.std.specs.Prelude.{◌≡◌, ◌<◌, ◌≤◌, ◌^◌, if◌then◌else◌, length, position, ◌∷◌, ◌++◌, [], Some, None, IfOk, OnOk, IfSome, option_map, option_and_then, pos, map};
ghost use Rattle.std.specs.Str.{chars};
ghost use Rattle.std.specs.List.{position_or_len};
ghost use Rattle.aplc_scalar.specs.Input.{decoded, is_blank, is_minus, magnitude, number, numbers};
ghost use Rattle.aplc_crun.specs.Decoding.{meaning_of, before, of_part};

use std::alloc::{AllocError, Global};

/// What a read gives: the codes of the characters, or the numbers that they write.
#[derive(Clone, Copy, Debug, PartialEq, Eq)]
pub enum Form {
    Text,
    Numbers,
}

/// The largest number.
const LARGEST: u64 = 9_223_372_036_854_775_807;

fn is_blank(c: char) -> bool
    ensures { result ≡ is_blank c }
{
    c == ' ' || c == '\t'
}

fn is_minus(c: char) -> bool
    ensures { result ≡ is_minus c }
{
    c == '¯' || c == '-'
}

/// The number that decimal digits write. None where another character is among them, where there is none, and
/// above 9223372036854775807.
#[tactic(auto, using(crate::proofs::Decoding::digits))]
fn magnitude(digits: &[char]) -> Option<u64>
    ensures value { result ≡ magnitude digits.now }
    ensures small { IfSome result (λ n. n < 2 ^ 63) }
{
    if digits.is_empty() {
        return None;
    }
    let mut value: u64 = 0;
    for c in digits {
        let digit = match c.to_digit(10) {
            None => return None,
            Some(digit) => digit as u64,
        };
        if value > LARGEST / 10 {
            return None;
        }
        value = value * 10 + digit;
        if value > LARGEST {
            return None;
        }
    }
    Some(value)
}

/// The number that a part of a line writes. None where it writes none.
#[tactic(auto, using(crate::proofs::Decoding::signs))]
fn number(part: &[char]) -> Option<i64>
    ensures { result ≡ number part.now }
{
    match part {
        [] => None,
        [sign, digits @ ..] if is_minus(*sign) => match magnitude(digits) {
            None => None,
            Some(n) => Some(-(n as i64)),
        },
        digits => match magnitude(digits) {
            None => None,
            Some(n) => Some(n as i64),
        },
    }
}

/// The place of the first blank.
fn first_blank(rest: &[char]) -> Option<usize>
    ensures { result ≡ position is_blank rest.now }
{
    rest.iter().position(|c| is_blank(*c))
}

/// How many characters stand before the first blank.
#[tactic(auto, using(crate::proofs::Decoding::places))]
fn part_length(rest: &[char]) -> usize
    ensures place { result ≡ position_or_len is_blank rest.now }
    ensures within { result ≤ length rest.now }
{
    match first_blank(rest) {
        Some(n) => n,
        None => rest.len(),
    }
}

fn push(cells: &mut Vec<i64>, n: i64) -> Result<(), AllocError>
    ensures { OnOk result (cells.new.items ≡ cells.old.items ++ n ∷ []) }
{
    cells.push(n)?;
    Ok(())
}

/// Adds the number of a part, if the part is not empty. False where it writes none.
#[tactic(auto, using(crate::proofs::Decoding::putting))]
fn put_part(cells: &mut Vec<i64>, part: &[char]) -> Result<bool, AllocError>
    ensures { IfOk result (λ there. (if there then Some cells.new.items else None) ≡ before cells.old.items (of_part part.now)) }
{
    if part.is_empty() {
        return Ok(true);
    }
    match number(part) {
        None => Ok(false),
        Some(n) => match push(cells, n) {
            Err(refused) => Err(refused),
            Ok(()) => Ok(true),
        },
    }
}

/// The numbers of a line of characters. None where it holds anything but numbers and blanks.
fn numbers(alloc: Global, line: &[char]) -> Result<Option<Vec<i64>>, AllocError>
    ensures { IfOk result (λ o. option_map (λ v. v.items) o ≡ numbers line.now) }
{
    let mut cells = Vec::new(alloc);
    let mut rest = line;
    'parts: loop {
        let (part, behind) = rest.split_at(part_length(rest));
        match put_part(&mut cells, part) {
            Err(refused) => return Err(refused),
            Ok(false) => return Ok(None),
            Ok(true) => {}
        }
        match behind {
            [] => return Ok(Some(cells)),
            [_, tail @ ..] => rest = tail,
        }
    }
}

/// The codes of the characters of a text.
fn codes(alloc: Global, text: &str) -> Result<Vec<i64>, AllocError>
    ensures { IfOk result (λ v. v.items ≡ map pos (chars text.now)) }
{
    text.chars().map(|c| c as i64).collect(alloc)
}

/// The characters of a text.
fn characters(alloc: Global, text: &str) -> Result<Vec<char>, AllocError>
    ensures { IfOk result (λ v. v.items ≡ chars text.now) }
{
    text.chars().collect(alloc)
}

fn meant(alloc: Global, form: Form, text: &str) -> Result<Option<Vec<i64>>, AllocError>
    ensures { IfOk result (λ o. option_map (λ v. v.items) o ≡ meaning_of form (chars text.now)) }
{
    match form {
        Form::Text => Ok(Some(codes(alloc, text)?)),
        Form::Numbers => {
            let line = characters(alloc, text)?;
            numbers(alloc, line.as_slice())
        }
    }
}

/// The cells of a line. None where the bytes are not UTF-8, or the characters are not what is read.
#[tactic(auto, using(crate::proofs::Decoding::decodes))]
pub fn decode(alloc: Global, form: Form, text: &[u8]) -> Result<Option<Vec<i64>>, AllocError>
    ensures { IfOk result (λ o. option_map (λ v. v.items) o ≡ option_and_then (meaning_of form) (decoded text.now)) }
{
    match std::str::from_utf8(text) {
        Err(_) => Ok(None),
        Ok(text) => meant(alloc, form, text),
    }
}
