//! The rules of take and drop, replicate and expand, and transposition by a literal.
//! They must not know where facts are kept.

ghost use Rattle.std.specs.Prelude.{◌≡◌, ◌≤◌, ◌<◌, ℕ, ℤ, ◌-ℤ◌, length, map, slice_set, Option, Some, None, IfSome, nat_le, if◌then◌else◌};
ghost use Rattle.aplc_arr.specs.Delayed.{first_n};
ghost use Rattle.aplc_arr.specs.Selection.{ranks_suit_take};
ghost use Rattle.aplc_arr.specs.Structure.{from_origin, none_below, axes_in, all_below_stand, stands_in};
ghost use Rattle.aplc_names.specs.Primitives.{within, axis_in};
ghost use Rattle.aplc_syntax.specs.PlainTrees.{tree_of};
ghost use Rattle.aplc_infer.specs.Rules.{literal_of, vector_lengths, magnitude_length, lengths_given, take_rule, drop_rule, along_rule, replicate_rule, expand_length, expand_rule, least_of, least_known, transpose_by, transpose_to_rule};

use crate::fact::{FactKind, Inferred, Lengths};
use crate::rule_break::RuleBreak;
use crate::rules::{is_numeric, known, put_all, unknown, vector_lengths, within_limit};
use aplc_syntax::{Axis, Form, Node};

// ---- The axis that is meant

/// The number of an axis counted from 0, where the rank allows it.
fn within(origin: i64, number: i64, rank: usize) -> Option<usize>
    ensures { result ≡ within (number -ℤ origin) rank }
{
    if number < origin {
        return None;
    }
    let axis = number.abs_diff(origin);
    if axis < rank as u64 {
        Some(axis as usize)
    } else {
        None
    }
}

/// The axis that is meant in an array of this rank, counted from 0. A number is counted from the origin. Without one it
/// is the first or the last axis, and 0 of a scalar. `None` where the array has not the axis.
pub fn axis_in(origin: i64, axis: Axis, rank: usize) -> Option<usize>
    ensures axis { result ≡ axis_in origin axis rank }
    ensures within { 0 < rank → IfSome result (λ i. i < rank) }
{
    match axis {
        Axis::First => Some(0),
        Axis::Last => Some(rank.saturating_sub(1)),
        Axis::At(number) => within(origin, number, rank),
    }
}

/// The rank, where a scalar counts as a vector.
fn vector_rank(lengths: &[Option<u32>]) -> usize
    ensures { result ≡ length (vector_lengths lengths.now) }
{
    match lengths {
        [] => 1,
        _ => lengths.len(),
    }
}

// ---- Take and drop

/// Whether a left argument of one rank has a number for each axis of a right one of another.
fn ranks_suit_take(left: usize, right: usize) -> bool
    ensures { result ≡ ranks_suit_take left right }
{
    match left {
        0 => right <= 1,
        1 => right >= 1,
        _ => false,
    }
}

/// The magnitudes of numbers, as lengths.
fn magnitudes(numbers: &[i64]) -> Lengths
    requires { length numbers.now ≤ 8 }
    ensures { result ≡ map magnitude_length numbers.now }
{
    let mut out = Lengths::new();
    for number in numbers {
        out.push(within_limit(number.unsigned_abs()));
    }
    out
}

/// The lengths that the numbers of a literal take.
fn lengths_taken(numbers: &[i64], axes: usize) -> Lengths
    requires { axes ≤ 8 }
    ensures { result ≡ lengths_given magnitude_length (Some numbers.now) axes }
{
    if numbers.len() != axes {
        return unknown(axes);
    }
    magnitudes(numbers)
}

/// The lengths that the left argument takes, if it is a literal.
#[tactic(auto, using(aplc_syntax::proofs::PlainForms::tree_node, aplc_syntax::proofs::PlainForms::plain_forms))]
fn taken_by(left: &Node, axes: usize) -> Lengths
    requires { axes ≤ 8 }
    ensures { result ≡ lengths_given magnitude_length (literal_of (tree_of left.now)) axes }
{
    match &left.form {
        Form::Numbers(numbers) => lengths_taken(numbers.as_slice(), axes),
        _ => unknown(axes),
    }
}

/// `A↑B`: B's kind, and A's magnitudes where they stand in the source.
pub fn take_rule(
    left: &Node,
    a: FactKind,
    xs: &[Option<u32>],
    b: FactKind,
    ys: &[Option<u32>],
) -> Result<Inferred, RuleBreak>
    requires { length ys.now ≤ 8 }
    ensures { result ≡ take_rule (literal_of (tree_of left.now)) a xs.now b ys.now }
{
    if !is_numeric(a) {
        return Err(RuleBreak::Kind);
    }
    if !ranks_suit_take(xs.len(), ys.len()) {
        return Err(RuleBreak::Rank);
    }
    known(b, taken_by(left, vector_rank(ys)))
}

/// `A↓B`: B's kind and rank, and at least rank 1.
pub fn drop_rule(
    a: FactKind,
    xs: &[Option<u32>],
    b: FactKind,
    ys: &[Option<u32>],
) -> Result<Inferred, RuleBreak>
    requires { length ys.now ≤ 8 }
    ensures { result ≡ drop_rule a xs.now b ys.now }
{
    if !is_numeric(a) {
        return Err(RuleBreak::Kind);
    }
    if !ranks_suit_take(xs.len(), ys.len()) {
        return Err(RuleBreak::Rank);
    }
    known(b, unknown(vector_rank(ys)))
}

// ---- Replicate and expand

/// The lengths with another one for an axis.
fn with_length(lengths: &[Option<u32>], axis: usize, along: Option<u32>) -> Lengths
    requires short { length lengths.now ≤ 8 }
    requires axis { axis < length lengths.now }
    ensures { result ≡ slice_set lengths.now axis along }
{
    let mut out = Lengths::new();
    put_all(&mut out, &lengths[..axis]);
    out.push(along);
    put_all(&mut out, &lengths[axis + 1..]);
    out
}

/// Both: B's kind and lengths, but for this one along the axis.
fn along_rule(
    origin: i64,
    axis: Axis,
    along: Option<u32>,
    a: FactKind,
    xs: &[Option<u32>],
    b: FactKind,
    ys: &[Option<u32>],
) -> Result<Inferred, RuleBreak>
    requires { length ys.now ≤ 8 }
    ensures { result ≡ along_rule origin axis along a xs.now b ys.now }
{
    if !is_numeric(a) {
        return Err(RuleBreak::Kind);
    }
    if xs.len() > 1 {
        return Err(RuleBreak::Rank);
    }
    let Some(i) = axis_in(origin, axis, vector_rank(ys)) else {
        return Err(RuleBreak::Axis);
    };
    known(b, with_length(vector_lengths(ys).as_slice(), i, along))
}

/// `A/B` and `A⌿B`: how long the axis becomes is not known.
pub fn replicate_rule(
    origin: i64,
    axis: Axis,
    a: FactKind,
    xs: &[Option<u32>],
    b: FactKind,
    ys: &[Option<u32>],
) -> Result<Inferred, RuleBreak>
    requires { length ys.now ≤ 8 }
    ensures { result ≡ replicate_rule origin axis a xs.now b ys.now }
{
    along_rule(origin, axis, None, a, xs, b, ys)
}

/// The length of an expanded axis: that of a vector on the left.
fn expand_length(lengths: &[Option<u32>]) -> Option<u32>
    ensures { result ≡ expand_length lengths.now }
{
    match lengths {
        [] => None,
        [length, ..] => *length,
    }
}

/// `A\B` and `A⍀B`: the axis becomes as long as A.
pub fn expand_rule(
    origin: i64,
    axis: Axis,
    a: FactKind,
    xs: &[Option<u32>],
    b: FactKind,
    ys: &[Option<u32>],
) -> Result<Inferred, RuleBreak>
    requires { length ys.now ≤ 8 }
    ensures { result ≡ expand_rule origin axis a xs.now b ys.now }
{
    along_rule(origin, axis, expand_length(xs), a, xs, b, ys)
}

// ---- Transposition by a literal

/// The axis that an entry names, counted from 0.
fn from_origin(origin: i64, entry: i64) -> u64
    ensures { result ≡ from_origin origin entry }
{
    if entry < origin {
        0
    } else {
        entry.abs_diff(origin)
    }
}

fn none_below(origin: i64, entries: &[i64]) -> bool
    ensures { result ≡ none_below origin entries.now }
{
    for entry in entries {
        if *entry < origin {
            return false;
        }
    }
    true
}

fn stands_in(axis: u64, origin: i64, entries: &[i64]) -> bool
    ensures { result ≡ stands_in axis (map (from_origin origin) entries.now) }
{
    for entry in entries {
        if from_origin(origin, *entry) == axis {
            return true;
        }
    }
    false
}

/// Whether every axis below a number is named.
fn all_below_stand(count: usize, origin: i64, entries: &[i64]) -> bool
    ensures { result ≡ all_below_stand count (map (from_origin origin) entries.now) }
{
    for axis in (0..count).rev() {
        if !stands_in(axis as u64, origin, entries) {
            return false;
        }
    }
    true
}

/// One more than the greatest axis that is named, if it is at most that.
fn axes_within(most: usize, origin: i64, entries: &[i64]) -> Option<usize>
    ensures { result ≡ (if nat_le (axes_in (map (from_origin origin) entries.now)) most then Some (axes_in (map (from_origin origin) entries.now)) else None) }
{
    let mut count = 0;
    for entry in entries {
        let axis = from_origin(origin, *entry);
        if axis >= most as u64 {
            return None;
        }
        count = count.max(axis as usize + 1);
    }
    Some(count)
}

/// How many axes are named, if these are all from the first to some last one.
#[tactic(auto, using(crate::proofs::AxisNumbers::too_many_axes))]
fn axes_named(origin: i64, entries: &[i64]) -> Option<usize>
    ensures named { let axes = map (from_origin origin) entries.now in
        result ≡ (if all_below_stand (axes_in axes) axes then Some (axes_in axes) else None) }
    ensures few { IfSome result (λ n. n ≤ length entries.now) }
{
    let Some(count) = axes_within(entries.len(), origin, entries) else {
        return None;
    };
    if !all_below_stand(count, origin, entries) {
        return None;
    }
    Some(count)
}

fn least_of(x: Option<u32>, y: Option<u32>) -> Option<u32>
    ensures { result ≡ least_of x y }
{
    match (x, y) {
        (Some(m), Some(n)) => Some(m.min(n)),
        _ => None,
    }
}

/// The least of the lengths that fall on an axis, where all of them are known.
fn least_known(axis: u64, origin: i64, entries: &[i64], lengths: &[Option<u32>]) -> Option<u32>
    ensures { result ≡ least_known axis (map (from_origin origin) entries.now) lengths.now }
{
    match entries {
        [] => None,
        [entry, entries @ ..] => match lengths {
            [] => None,
            [length, lengths @ ..] => {
                let least = least_known(axis, origin, entries, lengths);
                if from_origin(origin, *entry) != axis {
                    least
                } else if stands_in(axis, origin, entries) {
                    least_of(*length, least)
                } else {
                    *length
                }
            }
        },
    }
}

/// The lengths of so many axes.
fn moved_lengths(count: usize, origin: i64, entries: &[i64], lengths: &[Option<u32>]) -> Lengths
    requires { count ≤ 8 }
    ensures { result ≡ first_n (λ j. least_known j (map (from_origin origin) entries.now) lengths.now) count }
{
    let mut out = Lengths::new();
    for axis in 0..count {
        out.push(least_known(axis as u64, origin, entries, lengths));
    }
    out
}

/// The rule for a literal A: B's kind, and the least lengths where all that fall on an axis are known.
fn transpose_by(
    origin: i64,
    entries: &[i64],
    b: FactKind,
    ys: &[Option<u32>],
) -> Result<Inferred, RuleBreak>
    requires { length ys.now ≤ 8 }
    ensures { result ≡ transpose_by origin entries.now b ys.now }
{
    if entries.len() != ys.len() {
        return Err(RuleBreak::Rank);
    }
    if !none_below(origin, entries) {
        return Err(RuleBreak::Axis);
    }
    let Some(count) = axes_named(origin, entries) else {
        return Err(RuleBreak::Axis);
    };
    known(b, moved_lengths(count, origin, entries, ys))
}

/// `A⍉B`: the numbers of A stand in the source.
#[tactic(auto, using(aplc_syntax::proofs::PlainForms::tree_node, aplc_syntax::proofs::PlainForms::plain_forms))]
pub fn transpose_to_rule(
    origin: i64,
    left: &Node,
    a: FactKind,
    xs: &[Option<u32>],
    b: FactKind,
    ys: &[Option<u32>],
) -> Result<Inferred, RuleBreak>
    requires { length ys.now ≤ 8 }
    ensures { result ≡ transpose_to_rule origin (literal_of (tree_of left.now)) a xs.now b ys.now }
{
    match &left.form {
        Form::Numbers(entries) => transpose_by(origin, entries.as_slice(), b, ys),
        _ => Err(RuleBreak::Transpose),
    }
}
