//! Reads numbers from a least one on.
//! It must not know what they are for.

ghost use Rattle.std.specs.Prelude.{◌≡◌, ◌++◌, ◌<◌, ◌≤◌, ◌^◌, decimal, codes};
ghost use Rattle.aplc_cread.specs.Reading.{Reads, NoDigit, Any};
ghost use Rattle.aplc_cread.specs.Stmts.{RangedThen};
ghost use Rattle.aplc_cread.specs.Ranges.{Ranged, Reach, IsReach, Row};

use crate::lexical::{Halt, is_digit, literal, split};

/// Whether further digits make of n a number from `low` on and below the bound: those of some number of digits lie from a to b.
fn reaches(low: u64, bound: u64, n: u64, a: u128, b: u128) -> bool
    requires some { low < bound }
    requires small { bound ≤ 2 ^ 63 }
    requires positive { 0 < n }
    requires row { Row low n a b }
    ensures { IsReach low bound n result }
{
    if a >= u128::from(bound) {
        return false;
    }
    if b >= u128::from(low) {
        return true;
    }
    reaches(low, bound, n, 10 * a, 10 * b + 9)
}

fn can_reach(low: u64, bound: u64, n: u64) -> bool
    requires some { low < bound }
    requires small { bound ≤ 2 ^ 63 }
    ensures { IsReach low bound n result }
{
    if n == 0 {
        if low == 0 {
            return true;
        }
        return false;
    }
    reaches(low, bound, n, u128::from(n), u128::from(n))
}

/// A plain decimal from `low` on and below the bound.
pub(crate) fn number_in<'a>(
    low: u64,
    bound: u64,
    input: &'a [u8],
) -> Result<(u64, &'a [u8]), Halt<'a>>
    requires some { low < bound }
    requires small { bound ≤ 2 ^ 63 }
    ensures { Reads NoDigit (Ranged low bound) input.now result }
{
    let (c, more) = match split(input) {
        None => return Err(Halt::At(input)),
        Some(front) => front,
    };
    if !is_digit(c) {
        return Err(Halt::At(input));
    }
    let number = u64::from(c - b'0');
    if !can_reach(low, bound, number) {
        return Err(Halt::At(input));
    }
    more_in(low, bound, number, input, more)
}

/// The digits after those that make the number so far.
fn more_in<'a>(
    low: u64,
    bound: u64,
    so_far: u64,
    input: &'a [u8],
    after: &'a [u8],
) -> Result<(u64, &'a [u8]), Halt<'a>>
    requires some { low < bound }
    requires small { bound ≤ 2 ^ 63 }
    requires below { so_far < bound }
    requires reach { Reach low bound so_far }
    requires read { input.now ≡ decimal so_far ++ after.now }
    ensures { Reads NoDigit (Ranged low bound) input.now result }
{
    let mut number = so_far;
    let mut rest = after;
    while let Some((c, more)) = split(rest) {
        if !is_digit(c) {
            return ended(low, bound, number, input, rest);
        }
        let digit = u64::from(c - b'0');
        if number == 0 {
            return Err(Halt::At(rest));
        }
        if number > (bound - 1) / 10 {
            return Err(Halt::At(rest));
        }
        let next = 10 * number + digit;
        if !can_reach(low, bound, next) {
            return Err(Halt::At(rest));
        }
        number = next;
        rest = more;
    }
    ended(low, bound, number, input, rest)
}

/// The number where no digit goes on.
fn ended<'a>(
    low: u64,
    bound: u64,
    number: u64,
    input: &'a [u8],
    rest: &'a [u8],
) -> Result<(u64, &'a [u8]), Halt<'a>>
    requires some { low < bound }
    requires small { bound ≤ 2 ^ 63 }
    requires below { number < bound }
    requires reach { Reach low bound number }
    requires read { input.now ≡ decimal number ++ rest.now }
    requires end { NoDigit rest.now }
    ensures { Reads NoDigit (Ranged low bound) input.now result }
{
    if number < low {
        return Err(Halt::At(rest));
    }
    Ok((number, rest))
}

/// A number of an arm, and what stands behind it.
pub(crate) fn arm_number(low: u64, input: &[u8]) -> Result<(u64, &[u8]), Halt>
    requires { low < 2 ^ 63 }
    ensures { Reads Any (RangedThen low (2 ^ 63) (codes ": {\n")) input.now result }
{
    let (n, rest) = number_in(low, 1 << 63, input)?;
    let rest = literal(b": {\n", rest)?;
    Ok((n, rest))
}
