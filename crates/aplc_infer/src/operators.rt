//! The rules of reduction and scan, outer and inner product.
//! They must not know where facts are kept.

ghost use Rattle.std.specs.Prelude.{◌≡◌, ◌≤◌, length, drop, remove};
ghost use Rattle.aplc_infer.specs.Rules.{reduced_kind, scanned_kind, reduce_rule, scan_rule, outer_rule, front_lengths, inner_rule};

use crate::fact::{FactKind, Inferred, Lengths};
use crate::parts::axis_in;
use crate::rule_break::RuleBreak;
use crate::rules::{RANK_LIMIT, both_bit, copied, is_numeric, known, put_all};
use crate::scalars::{is_dyadic, scalar_kind, takes_kinds};
use aplc_scalar::ScalarFn;
use aplc_syntax::Axis;

// ---- Reduction and scan

/// The kind of a reduction of any number of elements.
fn reduced_kind(f: ScalarFn, a: FactKind) -> FactKind
    ensures { result ≡ reduced_kind f a }
{
    match f {
        ScalarFn::Add | ScalarFn::Sub | ScalarFn::Max | ScalarFn::Min => FactKind::Num,
        _ => both_bit(a, a),
    }
}

/// The kind of a reduction of one element or more.
fn scanned_kind(f: ScalarFn, a: FactKind) -> FactKind
    ensures { result ≡ scanned_kind f a }
{
    match f {
        ScalarFn::Add | ScalarFn::Sub => FactKind::Num,
        _ => both_bit(a, a),
    }
}

/// The lengths of the other axes.
fn without(lengths: &[Option<u32>], axis: usize) -> Lengths
    requires { length lengths.now ≤ 8 }
    ensures { result ≡ remove lengths.now axis }
{
    if axis >= lengths.len() {
        return copied(lengths);
    }
    let mut out = copied(&lengths[..axis]);
    put_all(&mut out, &lengths[axis + 1..]);
    out
}

/// `f/B` and `f⌿B`: B's lengths without the axis.
pub fn reduce_rule(
    origin: i64,
    f: ScalarFn,
    axis: Axis,
    a: FactKind,
    xs: &[Option<u32>],
) -> Result<Inferred, RuleBreak>
    requires { length xs.now ≤ 8 }
    ensures { result ≡ reduce_rule origin f axis a xs.now }
{
    if !(is_numeric(a) && is_dyadic(f)) {
        return Err(RuleBreak::Kind);
    }
    match axis_in(origin, axis, xs.len()) {
        None => Err(RuleBreak::Axis),
        Some(i) => known(reduced_kind(f, a), without(xs, i)),
    }
}

/// `f\B` and `f⍀B`: B's lengths.
pub fn scan_rule(
    origin: i64,
    f: ScalarFn,
    axis: Axis,
    a: FactKind,
    xs: &[Option<u32>],
) -> Result<Inferred, RuleBreak>
    requires { length xs.now ≤ 8 }
    ensures { result ≡ scan_rule origin f axis a xs.now }
{
    if !(is_numeric(a) && is_dyadic(f)) {
        return Err(RuleBreak::Kind);
    }
    match axis_in(origin, axis, xs.len()) {
        None => Err(RuleBreak::Axis),
        Some(_) => known(scanned_kind(f, a), copied(xs)),
    }
}

// ---- Outer and inner product

/// `A∘.f B`: A's lengths and then B's.
pub fn outer_rule(
    f: ScalarFn,
    a: FactKind,
    xs: &[Option<u32>],
    b: FactKind,
    ys: &[Option<u32>],
) -> Result<Inferred, RuleBreak>
    requires left { length xs.now ≤ 8 }
    requires right { length ys.now ≤ 8 }
    ensures { result ≡ outer_rule f a xs.now b ys.now }
{
    if !takes_kinds(f, a, b) {
        return Err(RuleBreak::Kind);
    }
    if xs.len() + ys.len() > RANK_LIMIT {
        return Err(RuleBreak::Rank);
    }
    let mut lengths = copied(xs);
    put_all(&mut lengths, ys);
    known(scalar_kind(f, a, b), lengths)
}

/// All lengths but the last.
#[tactic(auto, using(crate::proofs::AxisTools::front_is))]
fn front_lengths(lengths: &[Option<u32>]) -> &[Option<u32>]
    ensures { result.now ≡ front_lengths lengths.now }
{
    &lengths[..lengths.len().saturating_sub(1)]
}

/// All lengths but the first.
fn rest_lengths(lengths: &[Option<u32>]) -> &[Option<u32>]
    ensures { result.now ≡ drop 1 lengths.now }
{
    match lengths {
        [] => lengths,
        [_, lengths @ ..] => lengths,
    }
}

/// `A f.g B`: the lengths of the axes that do not meet.
pub fn inner_rule(
    f: ScalarFn,
    g: ScalarFn,
    a: FactKind,
    xs: &[Option<u32>],
    b: FactKind,
    ys: &[Option<u32>],
) -> Result<Inferred, RuleBreak>
    requires left { length xs.now ≤ 8 }
    requires right { length ys.now ≤ 8 }
    ensures { result ≡ inner_rule f g a xs.now b ys.now }
{
    if !(is_numeric(a) && is_numeric(b) && is_dyadic(f) && is_dyadic(g)) {
        return Err(RuleBreak::Kind);
    }
    let front = front_lengths(xs);
    let rest = rest_lengths(ys);
    if front.len() + rest.len() > RANK_LIMIT {
        return Err(RuleBreak::Rank);
    }
    let mut lengths = copied(front);
    put_all(&mut lengths, rest);
    known(reduced_kind(f, scalar_kind(g, a, b)), lengths)
}
