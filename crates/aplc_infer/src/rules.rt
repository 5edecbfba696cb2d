//! What the typing rules of the functions are written with.
//! They must not know where facts are kept.

ghost use Rattle.std.specs.Prelude.{◌≡◌, ◌≤◌, ◌<◌, ◌+◌, ◌++◌, ◌∷◌, [], ℕ, length, Option, Some, None};
ghost use Rattle.aplc_infer.specs.Rules.{known, is_numeric, within_limit, unknown, both_bit, vector_lengths};

use crate::fact::{FactKind, Inferred, Lengths};
use crate::rule_break::RuleBreak;

/// The greatest rank.
pub const RANK_LIMIT: usize = 8;

/// The greatest length of an axis.
const LENGTH_LIMIT: u64 = 2147483647;

/// A fact of a plain kind and a length for each axis.
pub fn known(kind: FactKind, lengths: Lengths) -> Result<Inferred, RuleBreak>
    ensures { result ≡ known kind lengths }
{
    Ok(Inferred::Of(kind, Some(lengths)))
}

pub fn is_numeric(kind: FactKind) -> bool
    ensures { result ≡ is_numeric kind }
{
    match kind {
        FactKind::Bit | FactKind::Num => true,
        FactKind::Char | FactKind::Mixed => false,
    }
}

/// The kind of a result that is bits where both arguments are.
pub fn both_bit(a: FactKind, b: FactKind) -> FactKind
    ensures { result ≡ both_bit a b }
{
    match (a, b) {
        (FactKind::Bit, FactKind::Bit) => FactKind::Bit,
        _ => FactKind::Num,
    }
}

/// A length, which is known where an array can have it.
pub fn within_limit(n: u64) -> Option<u32>
    ensures { result ≡ within_limit n }
{
    if n <= LENGTH_LIMIT {
        Some(n as u32)
    } else {
        None
    }
}

/// Puts lengths behind those that stand.
pub fn put_all(out: &mut Lengths, xs: &[Option<u32>])
    requires { length out.old + length xs.now ≤ 8 }
    ensures { out.new ≡ out.old ++ xs.now }
{
    match xs {
        [] => {}
        [x, xs @ ..] => {
            out.push(*x);
            put_all(out, xs)
        }
    }
}

pub fn copied(xs: &[Option<u32>]) -> Lengths
    requires { length xs.now ≤ 8 }
    ensures { result ≡ xs.now }
{
    let mut out = Lengths::new();
    put_all(&mut out, xs);
    out
}

/// Puts so many unknown lengths behind those that stand.
pub fn put_unknown(out: &mut Lengths, count: usize)
    requires { length out.old + count ≤ 8 }
    ensures { out.new ≡ out.old ++ unknown count }
{
    if count > 0 {
        out.push(None);
        put_unknown(out, count - 1)
    }
}

/// So many unknown lengths.
pub fn unknown(count: usize) -> Lengths
    requires { count ≤ 8 }
    ensures { result ≡ unknown count }
{
    let mut out = Lengths::new();
    put_unknown(&mut out, count);
    out
}

/// One length alone.
pub fn one_length(length: Option<u32>) -> Lengths
    ensures { result ≡ length ∷ [] }
{
    let mut out = Lengths::new();
    out.push(length);
    out
}

/// A scalar as a vector of one element.
pub fn vector_lengths(xs: &[Option<u32>]) -> Lengths
    requires { length xs.now ≤ 8 }
    ensures { result ≡ vector_lengths xs.now }
{
    match xs {
        [] => one_length(Some(1)),
        _ => copied(xs),
    }
}
