//! The typing rules of the scalar functions.
//! They must not know what the functions compute.

ghost use Rattle.std.specs.Prelude.{◌≡◌, ◌≤◌, length};
ghost use Rattle.aplc_scalar.specs.Scalar.{is_dyadic};
ghost use Rattle.aplc_arr.specs.Each.{ranks_suit};
ghost use Rattle.aplc_infer.specs.Rules.{is_one, same_known, all_known, all_one, all_same, met_lengths, scalar_lengths, scalar_kind, takes_kinds, scalar_monadic_rule, scalar_dyadic_rule};

use crate::fact::{FactKind, Inferred, Lengths};
use crate::rule_break::RuleBreak;
use crate::rules::{both_bit, copied, is_numeric, known, unknown};
use aplc_scalar::ScalarFn;

/// One argument: numbers. `-` may leave the bits, and `~` gives them.
pub fn scalar_monadic_rule(
    f: ScalarFn,
    a: FactKind,
    xs: &[Option<u32>],
) -> Result<Inferred, RuleBreak>
    requires { length xs.now ≤ 8 }
    ensures { result ≡ scalar_monadic_rule f a xs.now }
{
    if !is_numeric(a) {
        return Err(RuleBreak::Kind);
    }
    match f {
        ScalarFn::Sub => known(FactKind::Num, copied(xs)),
        ScalarFn::Not => known(FactKind::Bit, copied(xs)),
        ScalarFn::Add | ScalarFn::Mul | ScalarFn::Max | ScalarFn::Min | ScalarFn::Residue => {
            known(a, copied(xs))
        }
        _ => Err(RuleBreak::Kind),
    }
}

// ---- Lengths of two arguments

fn is_one(length: Option<u32>) -> bool
    ensures { result ≡ is_one length }
{
    match length {
        None => false,
        Some(n) => n == 1,
    }
}

fn all_known(xs: &[Option<u32>]) -> bool
    ensures { result ≡ all_known xs.now }
{
    match xs {
        [] => true,
        [x, xs @ ..] => x.is_some() && all_known(xs),
    }
}

fn all_one(xs: &[Option<u32>]) -> bool
    ensures { result ≡ all_one xs.now }
{
    match xs {
        [] => true,
        [x, xs @ ..] => is_one(*x) && all_one(xs),
    }
}

fn same_known(x: Option<u32>, y: Option<u32>) -> bool
    ensures { result ≡ same_known x y }
{
    match (x, y) {
        (Some(m), Some(n)) => m == n,
        _ => false,
    }
}

fn all_same(xs: &[Option<u32>], ys: &[Option<u32>]) -> bool
    ensures { result ≡ all_same xs.now ys.now }
{
    match xs {
        [] => ys.is_empty(),
        [x, xs @ ..] => match ys {
            [] => false,
            [y, ys @ ..] => same_known(*x, *y) && all_same(xs, ys),
        },
    }
}

/// The lengths of two arguments of one rank. Where all are known, one element alone takes the other's lengths.
fn met_lengths(xs: &[Option<u32>], ys: &[Option<u32>]) -> Lengths
    requires left { length xs.now ≤ 8 }
    requires right { length ys.now ≤ 8 }
    ensures { result ≡ met_lengths xs.now ys.now }
{
    if !all_known(xs) || !all_known(ys) {
        unknown(xs.len())
    } else if all_same(xs, ys) {
        copied(xs)
    } else if all_one(xs) {
        copied(ys)
    } else if all_one(ys) {
        copied(xs)
    } else {
        unknown(xs.len())
    }
}

/// The lengths of two arguments. A scalar takes the other's.
fn scalar_lengths(xs: &[Option<u32>], ys: &[Option<u32>]) -> Lengths
    requires left { length xs.now ≤ 8 }
    requires right { length ys.now ≤ 8 }
    ensures { result ≡ scalar_lengths xs.now ys.now }
{
    match xs {
        [] => copied(ys),
        [_, ..] => match ys {
            [] => copied(xs),
            [_, ..] => met_lengths(xs, ys),
        },
    }
}

// ---- Two arguments

/// Whether two ranks suit: they are equal, or one is 0.
pub fn ranks_suit(r: usize, s: usize) -> bool
    ensures { result ≡ ranks_suit r s }
{
    r == 0 || s == 0 || r == s
}

/// Whether a function has a form with two arguments.
pub fn is_dyadic(f: ScalarFn) -> bool
    ensures { result ≡ is_dyadic f }
{
    match f {
        ScalarFn::Not => false,
        _ => true,
    }
}

/// The kind that a function of two arguments gives.
pub fn scalar_kind(f: ScalarFn, a: FactKind, b: FactKind) -> FactKind
    ensures { result ≡ scalar_kind f a b }
{
    match f {
        ScalarFn::Add | ScalarFn::Sub => FactKind::Num,
        ScalarFn::Mul | ScalarFn::Max | ScalarFn::Min | ScalarFn::Residue => both_bit(a, b),
        _ => FactKind::Bit,
    }
}

/// Whether a function takes these kinds: `=` and `≠` take all, and the others numbers.
pub fn takes_kinds(f: ScalarFn, a: FactKind, b: FactKind) -> bool
    ensures { result ≡ takes_kinds f a b }
{
    match f {
        ScalarFn::Equal | ScalarFn::NotEqual => true,
        _ => is_numeric(a) && is_numeric(b) && is_dyadic(f),
    }
}

/// Two arguments: kinds that the function takes, and ranks that suit.
pub fn scalar_dyadic_rule(
    f: ScalarFn,
    a: FactKind,
    xs: &[Option<u32>],
    b: FactKind,
    ys: &[Option<u32>],
) -> Result<Inferred, RuleBreak>
    requires left { length xs.now ≤ 8 }
    requires right { length ys.now ≤ 8 }
    ensures { result ≡ scalar_dyadic_rule f a xs.now b ys.now }
{
    if !takes_kinds(f, a, b) {
        return Err(RuleBreak::Kind);
    }
    if !ranks_suit(xs.len(), ys.len()) {
        return Err(RuleBreak::Rank);
    }
    known(scalar_kind(f, a, b), scalar_lengths(xs, ys))
}
