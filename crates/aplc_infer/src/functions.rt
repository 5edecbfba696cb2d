//! The typing rule of each function: what is unset or mixed, and then the rule on what is known.
//! It must not know where the arguments stand.

ghost use Rattle.std.specs.Prelude.{◌≡◌, ◌≤◌, length};
ghost use Rattle.aplc_syntax.specs.PlainTrees.{tree_of};
ghost use Rattle.aplc_infer.specs.Rules.{literal_of, monadic_rule, dyadic_rule, monadic_fact, dyadic_fact};

use crate::fact::{FactKind, Inferred, is_mixed_kind};
use crate::joins::{catenate_rule, index_of_rule, member_rule};
use crate::operators::{inner_rule, outer_rule, reduce_rule, scan_rule};
use crate::parts::{drop_rule, expand_rule, replicate_rule, take_rule, transpose_to_rule};
use crate::rule_break::RuleBreak;
use crate::scalars::{scalar_dyadic_rule, scalar_monadic_rule};
use crate::shapes::{
    iota_rule, ravel_rule, reshape_rule, reverse_rule, rotate_rule, shape_rule, transpose_rule,
};
use aplc_syntax::{Node, Prim};

fn monadic_rule(
    origin: i64,
    function: Prim,
    right: &Node,
    a: FactKind,
    xs: &[Option<u32>],
) -> Result<Inferred, RuleBreak>
    requires { length xs.now ≤ 8 }
    ensures { result ≡ monadic_rule origin function (literal_of (tree_of right.now)) a xs.now }
{
    match function {
        Prim::Scalar(f) => scalar_monadic_rule(f, a, xs),
        Prim::Shape => shape_rule(a, xs),
        Prim::Ravel => ravel_rule(a, xs),
        Prim::Iota => iota_rule(right, a, xs),
        Prim::Reverse(axis) => reverse_rule(origin, axis, a, xs),
        Prim::Transpose => transpose_rule(a, xs),
        Prim::Reduce(f, axis) => reduce_rule(origin, f, axis, a, xs),
        Prim::Scan(f, axis) => scan_rule(origin, f, axis, a, xs),
        _ => Err(RuleBreak::Kind),
    }
}

fn dyadic_rule(
    origin: i64,
    function: Prim,
    left: &Node,
    a: FactKind,
    xs: &[Option<u32>],
    b: FactKind,
    ys: &[Option<u32>],
) -> Result<Inferred, RuleBreak>
    requires left { length xs.now ≤ 8 }
    requires right { length ys.now ≤ 8 }
    ensures { result ≡ dyadic_rule origin function (literal_of (tree_of left.now)) a xs.now b ys.now }
{
    match function {
        Prim::Scalar(f) => scalar_dyadic_rule(f, a, xs, b, ys),
        Prim::Shape => reshape_rule(left, a, xs, b, ys),
        Prim::Ravel => catenate_rule(a, xs, b, ys),
        Prim::Iota => index_of_rule(a, xs, b, ys),
        Prim::Take => take_rule(left, a, xs, b, ys),
        Prim::Drop => drop_rule(a, xs, b, ys),
        Prim::Reverse(axis) => rotate_rule(origin, axis, a, xs, b, ys),
        Prim::Transpose => transpose_to_rule(origin, left, a, xs, b, ys),
        Prim::Replicate(axis) => replicate_rule(origin, axis, a, xs, b, ys),
        Prim::Expand(axis) => expand_rule(origin, axis, a, xs, b, ys),
        Prim::Member => member_rule(a, xs, b, ys),
        Prim::Outer(f) => outer_rule(f, a, xs, b, ys),
        Prim::Inner(f, g) => inner_rule(f, g, a, xs, b, ys),
        _ => Err(RuleBreak::Kind),
    }
}

/// What a node has that applies a function to the node at the right.
pub fn monadic_fact(
    origin: i64,
    function: Prim,
    right: &Node,
    fact: &Inferred,
) -> Result<Inferred, RuleBreak>
    ensures { result ≡ monadic_fact origin function (literal_of (tree_of right.now)) fact.now }
{
    match fact {
        Inferred::Unset => Ok(Inferred::Unset),
        Inferred::Of(kind, shape) => {
            if is_mixed_kind(*kind) {
                return Ok(Inferred::mixed());
            }
            match shape {
                None => Ok(Inferred::mixed()),
                Some(lengths) => monadic_rule(origin, function, right, *kind, lengths.as_slice()),
            }
        }
    }
}

/// What a node has that applies a function to two nodes, of which one stands at the left.
pub fn dyadic_fact(
    origin: i64,
    function: Prim,
    left: &Node,
    x: &Inferred,
    y: &Inferred,
) -> Result<Inferred, RuleBreak>
    ensures { result ≡ dyadic_fact origin function (literal_of (tree_of left.now)) x.now y.now }
{
    match x {
        Inferred::Unset => Ok(Inferred::Unset),
        Inferred::Of(a, s) => match y {
            Inferred::Unset => Ok(Inferred::Unset),
            Inferred::Of(b, t) => {
                if is_mixed_kind(*a) || is_mixed_kind(*b) {
                    return Ok(Inferred::mixed());
                }
                match s {
                    None => Ok(Inferred::mixed()),
                    Some(xs) => match t {
                        None => Ok(Inferred::mixed()),
                        Some(ys) => {
                            dyadic_rule(
                                origin,
                                function,
                                left,
                                *a,
                                xs.as_slice(),
                                *b,
                                ys.as_slice(),
                            )
                        }
                    },
                }
            }
        },
    }
}
