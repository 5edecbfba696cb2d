//! The typing rules of shape, ravel, the index generator, reversal, rotation, transposition and reshape.
//! They must not know what the elements are.

ghost use Rattle.std.specs.Prelude.{◌≡◌, ◌≤◌, ◌+◌, ◌++◌, ℕ, Option, Some, IfSome, map, min, length};
ghost use Rattle.std.specs.Option.{option_map};
ghost use mathlib.Core.List.{reverse};
ghost use Rattle.aplc_syntax.specs.PlainTrees.{tree_of};
ghost use Rattle.aplc_infer.specs.Rules.{times, product_of, limited, shape_rule, ravel_rule, literal_of, iota_length, iota_rule, reverse_rule, rotate_rule, transpose_rule, literal_length, lengths_given, count_in, reshape_to, reshape_rule};

use crate::fact::{FactKind, Inferred, Lengths};
use crate::parts::axis_in;
use crate::rule_break::RuleBreak;
use crate::rules::{RANK_LIMIT, copied, is_numeric, known, one_length, unknown, within_limit};
use aplc_syntax::{Axis, Form, Node};

/// One past the greatest count, which stands for all above it.
const PAST_LIMIT: u64 = 2147483648;

// ---- Shape and ravel

/// `⍴B`: as many numbers as B has axes.
pub fn shape_rule(a: FactKind, xs: &[Option<u32>]) -> Result<Inferred, RuleBreak>
    ensures { result ≡ shape_rule a xs.now }
{
    known(FactKind::Num, one_length(within_limit(xs.len() as u64)))
}

/// A length times such a product, where both are known. A greater product may still be 0 in the end.
#[tactic(auto, using(crate::proofs::ShapeCounts::capped_fits))]
fn capped_times(x: Option<u32>, count: Option<u64>) -> Option<u64>
    requires { IfSome count (λ n. n ≤ 2147483648) }
    ensures capped { result ≡ option_map (λ n. min n 2147483648) (times x count) }
    ensures small { IfSome result (λ n. n ≤ 2147483648) }
{
    match x {
        None => None,
        Some(m) => match count {
            None => None,
            Some(n) => Some((m as u64 * n).min(PAST_LIMIT)),
        },
    }
}

/// The product of lengths that are all known, or one past the limit where it is greater.
#[tactic(auto, using(crate::proofs::ShapeCounts::capped_product))]
fn capped_product(xs: &[Option<u32>]) -> Option<u64>
    ensures capped { result ≡ option_map (λ n. min n 2147483648) (product_of xs.now) }
    ensures small { IfSome result (λ n. n ≤ 2147483648) }
{
    match xs {
        [] => Some(1),
        [x, xs @ ..] => capped_times(*x, capped_product(xs)),
    }
}

/// The number of elements, where all lengths are known and an array can have so many.
#[tactic(auto, using(crate::proofs::ShapeCounts::capped_limit))]
fn limited_product(xs: &[Option<u32>]) -> Option<u32>
    ensures { result ≡ limited (product_of xs.now) }
{
    match capped_product(xs) {
        None => None,
        Some(n) => within_limit(n),
    }
}

/// `,B`: the elements of B as a vector.
pub fn ravel_rule(a: FactKind, xs: &[Option<u32>]) -> Result<Inferred, RuleBreak>
    ensures { result ≡ ravel_rule a xs.now }
{
    known(a, one_length(limited_product(xs)))
}

// ---- The index generator

/// The length that a number gives.
fn literal_length(number: i64) -> Option<u32>
    ensures { result ≡ literal_length number }
{
    if number < 0 {
        None
    } else {
        within_limit(number as u64)
    }
}

/// The length that one number alone gives.
fn only_length(numbers: &[i64]) -> Option<u32>
    ensures { result ≡ iota_length (Some numbers.now) }
{
    match numbers {
        [number] => literal_length(*number),
        _ => None,
    }
}

/// The length that a node gives, where it is a literal.
#[tactic(auto, using(aplc_syntax::proofs::PlainForms::tree_node, aplc_syntax::proofs::PlainForms::plain_forms))]
fn iota_length(node: &Node) -> Option<u32>
    ensures { result ≡ iota_length (literal_of (tree_of node.now)) }
{
    match &node.form {
        Form::Numbers(numbers) => only_length(numbers.as_slice()),
        _ => None,
    }
}

/// `⍳N`: numbers of rank 0 or 1.
pub fn iota_rule(right: &Node, a: FactKind, xs: &[Option<u32>]) -> Result<Inferred, RuleBreak>
    ensures { result ≡ iota_rule (literal_of (tree_of right.now)) a xs.now }
{
    if !is_numeric(a) {
        return Err(RuleBreak::Kind);
    }
    if xs.len() > 1 {
        return Err(RuleBreak::Rank);
    }
    known(FactKind::Num, one_length(iota_length(right)))
}

// ---- Reversal and rotation, transposition

/// `⌽B` and `⊖B`: an axis that B has, or none that is named.
pub fn reverse_rule(
    origin: i64,
    axis: Axis,
    a: FactKind,
    xs: &[Option<u32>],
) -> Result<Inferred, RuleBreak>
    requires { length xs.now ≤ 8 }
    ensures { result ≡ reverse_rule origin axis a xs.now }
{
    match axis_in(origin, axis, xs.len()) {
        None => Err(RuleBreak::Axis),
        Some(_) => known(a, copied(xs)),
    }
}

/// `A⌽B` and `A⊖B`: numbers of rank 0 on the left, and an axis that B has.
pub fn rotate_rule(
    origin: i64,
    axis: Axis,
    a: FactKind,
    xs: &[Option<u32>],
    b: FactKind,
    ys: &[Option<u32>],
) -> Result<Inferred, RuleBreak>
    requires { length ys.now ≤ 8 }
    ensures { result ≡ rotate_rule origin axis a xs.now b ys.now }
{
    if !is_numeric(a) {
        return Err(RuleBreak::Kind);
    }
    if !xs.is_empty() {
        return Err(RuleBreak::Rank);
    }
    match axis_in(origin, axis, ys.len()) {
        None => Err(RuleBreak::Axis),
        Some(_) => known(b, copied(ys)),
    }
}

/// Puts lengths behind those that stand, the last one first.
#[tactic(auto, using(crate::proofs::ShapeCounts::reverse_first))]
fn put_reversed(out: &mut Lengths, xs: &[Option<u32>])
    requires { length out.old + length xs.now ≤ 8 }
    ensures { out.new ≡ out.old ++ reverse xs.now }
{
    match xs {
        [] => {}
        [x, xs @ ..] => {
            put_reversed(out, xs);
            out.push(*x)
        }
    }
}

/// `⍉B`: the axes in the opposite order.
pub fn transpose_rule(a: FactKind, xs: &[Option<u32>]) -> Result<Inferred, RuleBreak>
    requires { length xs.now ≤ 8 }
    ensures { result ≡ transpose_rule a xs.now }
{
    let mut lengths = Lengths::new();
    put_reversed(&mut lengths, xs);
    known(a, lengths)
}

// ---- Reshape

/// The lengths that numbers give.
fn number_lengths(numbers: &[i64]) -> Lengths
    requires { length numbers.now ≤ 8 }
    ensures { result ≡ map literal_length numbers.now }
{
    let mut out = Lengths::new();
    for number in numbers {
        out.push(literal_length(*number));
    }
    out
}

/// The lengths that numbers give, where there are as many; else so many unknown ones.
fn numbers_given(numbers: &[i64], rank: usize) -> Lengths
    requires { rank ≤ 8 }
    ensures { result ≡ lengths_given literal_length (Some numbers.now) rank }
{
    if numbers.len() != rank {
        return unknown(rank);
    }
    number_lengths(numbers)
}

/// The lengths that a node gives, where it is a literal; else so many unknown ones.
#[tactic(auto, using(aplc_syntax::proofs::PlainForms::tree_node, aplc_syntax::proofs::PlainForms::plain_forms))]
fn lengths_given(node: &Node, rank: usize) -> Lengths
    requires { rank ≤ 8 }
    ensures { result ≡ lengths_given literal_length (literal_of (tree_of node.now)) rank }
{
    match &node.form {
        Form::Numbers(numbers) => numbers_given(numbers.as_slice(), rank),
        _ => unknown(rank),
    }
}

/// How many numbers an argument of rank 0 or 1 has.
fn count_in(xs: &[Option<u32>]) -> Option<u32>
    ensures { result ≡ count_in xs.now }
{
    match xs {
        [] => Some(1),
        [x, ..] => *x,
    }
}

/// A reshape to so many axes.
fn reshape_to(left: &Node, b: FactKind, count: Option<u32>) -> Result<Inferred, RuleBreak>
    ensures { result ≡ reshape_to (literal_of (tree_of left.now)) b count }
{
    match count {
        None => Err(RuleBreak::Reshape),
        Some(rank) => {
            let rank = rank as usize;
            if rank <= RANK_LIMIT {
                known(b, lengths_given(left, rank))
            } else {
                Err(RuleBreak::Rank)
            }
        }
    }
}

/// `A⍴B`: numbers of rank 0 or 1 on the left, of which it is known how many they are, eight at most.
pub fn reshape_rule(
    left: &Node,
    a: FactKind,
    xs: &[Option<u32>],
    b: FactKind,
    ys: &[Option<u32>],
) -> Result<Inferred, RuleBreak>
    ensures { result ≡ reshape_rule (literal_of (tree_of left.now)) a xs.now b ys.now }
{
    if !is_numeric(a) {
        return Err(RuleBreak::Kind);
    }
    if xs.len() > 1 {
        return Err(RuleBreak::Rank);
    }
    reshape_to(left, b, count_in(xs))
}
