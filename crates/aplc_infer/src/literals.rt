//! What is known of the values that stand in the source, of labels and of input.
//! They must not know where they stand.

ghost use Rattle.std.specs.Prelude.{◌≡◌, [], ◌∷◌, length, None};
ghost use Rattle.std.specs.List.{list_all};
ghost use Rattle.aplc_infer.specs.Rules.{within_limit, is_bit, literal_kind, literal_lengths, numbers_fact, text_fact, input_text_fact, input_numbers_fact, label_fact};

use crate::fact::{FactKind, Inferred, Lengths};
use crate::rules::{one_length, within_limit};

fn is_bit(number: i64) -> bool
    ensures { result ≡ is_bit number }
{
    number == 0 || number == 1
}

fn all_bits(numbers: &[i64]) -> bool
    ensures { result ≡ list_all is_bit numbers.now }
{
    numbers.iter().all(|z| is_bit(*z))
}

fn literal_kind(numbers: &[i64]) -> FactKind
    ensures { result ≡ literal_kind (list_all is_bit numbers.now) }
{
    if all_bits(numbers) {
        FactKind::Bit
    } else {
        FactKind::Num
    }
}

fn number_lengths(numbers: &[i64]) -> Lengths
    ensures { result ≡ literal_lengths numbers.now }
{
    match numbers {
        [_] => Lengths::new(),
        _ => one_length(within_limit(numbers.len() as u64)),
    }
}

fn text_lengths(characters: &[u32]) -> Lengths
    ensures { result ≡ literal_lengths characters.now }
{
    match characters {
        [_] => Lengths::new(),
        _ => one_length(within_limit(characters.len() as u64)),
    }
}

pub fn numbers_fact(numbers: &[i64]) -> Inferred
    ensures { result ≡ numbers_fact numbers.now }
{
    Inferred::Of(literal_kind(numbers), Some(number_lengths(numbers)))
}

pub fn text_fact(characters: &[u32]) -> Inferred
    ensures { result ≡ text_fact characters.now }
{
    Inferred::Of(FactKind::Char, Some(text_lengths(characters)))
}

/// A line of the input as characters.
pub fn input_text_fact() -> Inferred
    ensures { result ≡ input_text_fact }
{
    Inferred::Of(FactKind::Char, Some(one_length(None)))
}

/// A line of the input as numbers.
pub fn input_numbers_fact() -> Inferred
    ensures { result ≡ input_numbers_fact }
{
    Inferred::Of(FactKind::Num, Some(one_length(None)))
}

/// The number of a line.
pub fn label_fact() -> Inferred
    ensures { result ≡ label_fact }
{
    Inferred::Of(FactKind::Num, Some(Lengths::new()))
}
