//! The typing rules of catenation, index-of and membership.
//! They must not know what the elements are.

ghost use Rattle.std.specs.Prelude.{◌≡◌, ◌≤◌, ◌<◌, ◌+◌, ◌++◌, length};
ghost use Rattle.aplc_infer.specs.Rules.{sum_length, beside_scalar, beside, catenate_lengths, kinds_join, joined_kind, catenate_rule, index_of_rule, member_rule};

use crate::fact::{FactKind, Inferred, Lengths, length_join};
use crate::rule_break::RuleBreak;
use crate::rules::{both_bit, copied, is_numeric, known, put_unknown, within_limit};
use crate::scalars::ranks_suit;

/// Two lengths together, where both are known and an array can be so long.
fn sum_length(x: Option<u32>, y: Option<u32>) -> Option<u32>
    ensures { result ≡ sum_length x y }
{
    match (x, y) {
        (Some(m), Some(n)) => within_limit(m as u64 + n as u64),
        _ => None,
    }
}

/// Puts the lengths of a catenation with a scalar behind those that stand.
fn put_beside_scalar(out: &mut Lengths, xs: &[Option<u32>])
    requires room { length out.old + length xs.now ≤ 8 }
    requires one { length out.old < 8 }
    ensures { out.new ≡ out.old ++ beside_scalar xs.now }
{
    match xs {
        [] => out.push(Some(2)),
        [x] => out.push(sum_length(*x, Some(1))),
        [_, xs @ ..] => {
            out.push(None);
            put_beside_scalar(out, xs)
        }
    }
}

/// Puts the lengths of a catenation of two arrays of one rank behind those that stand.
fn put_beside(out: &mut Lengths, xs: &[Option<u32>], ys: &[Option<u32>])
    requires { length out.old + length xs.now ≤ 8 }
    ensures { out.new ≡ out.old ++ beside xs.now ys.now }
{
    match xs {
        [] => {}
        [x, rest @ ..] => match ys {
            [] => put_unknown(out, xs.len()),
            [y, ys @ ..] => match rest {
                [] => out.push(sum_length(*x, *y)),
                [_, ..] => {
                    out.push(length_join(*x, *y));
                    put_beside(out, rest, ys)
                }
            },
        },
    }
}

/// The lengths of a catenation. A scalar counts 1 along the last axis.
fn catenate_lengths(xs: &[Option<u32>], ys: &[Option<u32>]) -> Lengths
    requires left { length xs.now ≤ 8 }
    requires right { length ys.now ≤ 8 }
    ensures { result ≡ catenate_lengths xs.now ys.now }
{
    let mut out = Lengths::new();
    match xs {
        [] => put_beside_scalar(&mut out, ys),
        [_, ..] => match ys {
            [] => put_beside_scalar(&mut out, xs),
            [_, ..] => put_beside(&mut out, xs, ys),
        },
    }
    out
}

/// Whether two kinds can stand in one array: characters, or numbers.
pub fn kinds_join(a: FactKind, b: FactKind) -> bool
    ensures { result ≡ kinds_join a b }
{
    match (a, b) {
        (FactKind::Char, FactKind::Char) => true,
        _ => is_numeric(a) && is_numeric(b),
    }
}

fn joined_kind(a: FactKind, b: FactKind) -> FactKind
    ensures { result ≡ joined_kind a b }
{
    match a {
        FactKind::Char => FactKind::Char,
        _ => both_bit(a, b),
    }
}

/// `A,B`: kinds that can stand in one array, and ranks that suit.
pub fn catenate_rule(
    a: FactKind,
    xs: &[Option<u32>],
    b: FactKind,
    ys: &[Option<u32>],
) -> Result<Inferred, RuleBreak>
    requires left { length xs.now ≤ 8 }
    requires right { length ys.now ≤ 8 }
    ensures { result ≡ catenate_rule a xs.now b ys.now }
{
    if !kinds_join(a, b) {
        return Err(RuleBreak::Kind);
    }
    if !ranks_suit(xs.len(), ys.len()) {
        return Err(RuleBreak::Rank);
    }
    known(joined_kind(a, b), catenate_lengths(xs, ys))
}

/// `A⍳B`: a vector on the left, in which anything is looked for.
pub fn index_of_rule(
    a: FactKind,
    xs: &[Option<u32>],
    b: FactKind,
    ys: &[Option<u32>],
) -> Result<Inferred, RuleBreak>
    requires { length ys.now ≤ 8 }
    ensures { result ≡ index_of_rule a xs.now b ys.now }
{
    if xs.len() != 1 {
        return Err(RuleBreak::Rank);
    }
    known(FactKind::Num, copied(ys))
}

/// `A∊B`: anything in anything.
pub fn member_rule(
    a: FactKind,
    xs: &[Option<u32>],
    b: FactKind,
    ys: &[Option<u32>],
) -> Result<Inferred, RuleBreak>
    requires { length xs.now ≤ 8 }
    ensures { result ≡ member_rule a xs.now b ys.now }
{
    known(FactKind::Bit, copied(xs))
}
