//! The rules of indexing, indexed assignment and branches.
//! They must not know where facts are kept.

ghost use Rattle.std.specs.Prelude.{◌≡◌, ◌≤◌, ◌+◌, ◌*◌, ◌++◌, length};
ghost use Rattle.aplc_infer.specs.Facts.{is_unset, is_mixed};
ghost use Rattle.aplc_infer.specs.Rules.{any_fact, sort, strict1, joined_lengths, is_numeric_fact, all_numeric, entries_fit, index_rule, index_fact, change_rule, change_fact, kept_kind, left_fact, branch_rule, branch_fact};

use crate::fact::{FactKind, Inferred, Lengths, is_mixed_kind, shape_copy};
use crate::joins::kinds_join;
use crate::rule_break::RuleBreak;
use crate::rules::{RANK_LIMIT, copied, is_numeric, known, put_all};

// ---- Entries of an index list. One that is left out is `None`.

fn any_unset(entries: &[Option<Inferred>]) -> bool
    ensures { result ≡ any_fact is_unset entries.now }
{
    for entry in entries {
        if let Some(fact) = entry {
            if fact.is_unset() {
                return true;
            }
        }
    }
    false
}

fn any_mixed(entries: &[Option<Inferred>]) -> bool
    ensures { result ≡ any_fact is_mixed entries.now }
{
    for entry in entries {
        if let Some(fact) = entry {
            if fact.is_mixed() {
                return true;
            }
        }
    }
    false
}

fn is_numeric_fact(fact: &Inferred) -> bool
    ensures { result ≡ is_numeric_fact fact.now }
{
    match fact {
        Inferred::Unset => false,
        Inferred::Of(kind, _) => is_numeric(*kind),
    }
}

fn all_numeric(entries: &[Option<Inferred>]) -> bool
    ensures { result ≡ all_numeric entries.now }
{
    for entry in entries {
        if let Some(fact) = entry {
            if !is_numeric_fact(fact) {
                return false;
            }
        }
    }
    true
}

/// How many axes the entries give.
fn joined_rank(lengths: &[Option<u32>], entries: &[Option<Inferred>]) -> usize
    requires { length lengths.now ≤ 8 }
    ensures rank { result ≡ length (joined_lengths lengths.now entries.now) }
    ensures few { result ≤ 8 * length lengths.now }
{
    match lengths {
        [] => 0,
        [_, lengths @ ..] => match entries {
            [] => 0,
            [entry, entries @ ..] => match entry {
                None => joined_rank(lengths, entries) + 1,
                Some(Inferred::Of(_, Some(ys))) => {
                    ys.as_slice().len() + joined_rank(lengths, entries)
                }
                Some(_) => 0,
            },
        },
    }
}

/// Puts the lengths that the entries give behind those that stand.
fn put_joined(out: &mut Lengths, lengths: &[Option<u32>], entries: &[Option<Inferred>])
    requires { length out.old + length (joined_lengths lengths.now entries.now) ≤ 8 }
    ensures { out.new ≡ out.old ++ joined_lengths lengths.now entries.now }
{
    match lengths {
        [] => {}
        [length, lengths @ ..] => match entries {
            [] => {}
            [entry, entries @ ..] => match entry {
                None => {
                    out.push(*length);
                    put_joined(out, lengths, entries)
                }
                Some(Inferred::Of(_, Some(ys))) => {
                    put_all(out, ys.as_slice());
                    put_joined(out, lengths, entries)
                }
                Some(_) => {}
            },
        },
    }
}

/// Whether there are as many entries as axes, at least one, and not too many axes in all.
fn entries_fit(lengths: &[Option<u32>], entries: &[Option<Inferred>]) -> bool
    requires { length lengths.now ≤ 8 }
    ensures { result ≡ entries_fit lengths.now entries.now }
{
    entries.len() == lengths.len()
        && !lengths.is_empty()
        && joined_rank(lengths, entries) <= RANK_LIMIT
}

// ---- Indexing

/// `B[L]`: B's kind, and the lengths that the entries give.
pub fn index_rule(
    entries: &[Option<Inferred>],
    a: FactKind,
    xs: &[Option<u32>],
) -> Result<Inferred, RuleBreak>
    requires { length xs.now ≤ 8 }
    ensures { result ≡ index_rule entries.now a xs.now }
{
    if !all_numeric(entries) {
        return Err(RuleBreak::Kind);
    }
    if !entries_fit(xs, entries) {
        return Err(RuleBreak::Rank);
    }
    let mut lengths = Lengths::new();
    put_joined(&mut lengths, xs, entries);
    known(a, lengths)
}

/// `B[L]`, of what may be unset or mixed.
pub fn index_fact(array: &Inferred, entries: &[Option<Inferred>]) -> Result<Inferred, RuleBreak>
    ensures { result ≡ index_fact array.now entries.now }
{
    if any_unset(entries) {
        return Ok(Inferred::Unset);
    }
    match array {
        Inferred::Unset => Ok(Inferred::Unset),
        Inferred::Of(kind, shape) => {
            if is_mixed_kind(*kind) {
                return Ok(Inferred::mixed());
            }
            match shape {
                None => Ok(Inferred::mixed()),
                Some(lengths) => {
                    if any_mixed(entries) {
                        Ok(Inferred::mixed())
                    } else {
                        index_rule(entries, *kind, lengths.as_slice())
                    }
                }
            }
        }
    }
}

// ---- Indexed assignment

/// `A[L]←V`: V's fact, where V is a scalar or has the rank that the entries give.
pub fn change_rule(
    entries: &[Option<Inferred>],
    a: FactKind,
    xs: &[Option<u32>],
    b: FactKind,
    ys: &[Option<u32>],
) -> Result<Inferred, RuleBreak>
    requires left { length xs.now ≤ 8 }
    requires right { length ys.now ≤ 8 }
    ensures { result ≡ change_rule entries.now a xs.now b ys.now }
{
    if !(all_numeric(entries) && kinds_join(a, b)) {
        return Err(RuleBreak::Kind);
    }
    if !entries_fit(xs, entries) {
        return Err(RuleBreak::Rank);
    }
    if !ys.is_empty() && ys.len() != joined_rank(xs, entries) {
        return Err(RuleBreak::Rank);
    }
    known(b, copied(ys))
}

/// The rule, of a value that may be unset or mixed.
fn change_by(
    entries: &[Option<Inferred>],
    a: FactKind,
    xs: &[Option<u32>],
    value: &Inferred,
) -> Result<Inferred, RuleBreak>
    requires { length xs.now ≤ 8 }
    ensures { result ≡ strict1 (change_rule entries.now a xs.now) (sort value.now) }
{
    match value {
        Inferred::Unset => Ok(Inferred::Unset),
        Inferred::Of(kind, shape) => {
            if is_mixed_kind(*kind) {
                return Ok(Inferred::mixed());
            }
            match shape {
                None => Ok(Inferred::mixed()),
                Some(ys) => change_rule(entries, a, xs, *kind, ys.as_slice()),
            }
        }
    }
}

/// `A[L]←V`, of what may be unset or mixed.
pub fn change_fact(
    name: &Inferred,
    entries: &[Option<Inferred>],
    value: &Inferred,
) -> Result<Inferred, RuleBreak>
    ensures { result ≡ change_fact name.now entries.now value.now }
{
    if value.is_unset() || any_unset(entries) {
        return Ok(Inferred::Unset);
    }
    match name {
        Inferred::Unset => Ok(Inferred::Unset),
        Inferred::Of(kind, shape) => {
            if is_mixed_kind(*kind) {
                return Ok(Inferred::mixed());
            }
            match shape {
                None => Ok(Inferred::mixed()),
                Some(lengths) => {
                    if value.is_mixed() || any_mixed(entries) {
                        Ok(Inferred::mixed())
                    } else {
                        change_by(entries, *kind, lengths.as_slice(), value)
                    }
                }
            }
        }
    }
}

fn kept_kind(a: FactKind, b: FactKind) -> FactKind
    ensures { result ≡ kept_kind a b }
{
    match (a, b) {
        (FactKind::Bit, FactKind::Bit) => FactKind::Bit,
        (FactKind::Bit, _) => FactKind::Num,
        _ => a,
    }
}

/// What an indexed assignment leaves to the name, whatever the entries are.
pub fn left_fact(name: &Inferred, value: &Inferred) -> Inferred
    ensures { result ≡ left_fact name.now value.now }
{
    match name {
        Inferred::Unset => Inferred::Unset,
        Inferred::Of(a, shape) => match value {
            Inferred::Unset => name.copy(),
            Inferred::Of(b, _) => Inferred::Of(kept_kind(*a, *b), shape_copy(shape)),
        },
    }
}

// ---- Branches

/// `→V`: V is numbers of rank 0 or 1.
pub fn branch_rule(a: FactKind, xs: &[Option<u32>]) -> Result<Inferred, RuleBreak>
    requires { length xs.now ≤ 8 }
    ensures { result ≡ branch_rule a xs.now }
{
    if !is_numeric(a) {
        return Err(RuleBreak::Kind);
    }
    if xs.len() > 1 {
        return Err(RuleBreak::Rank);
    }
    known(a, copied(xs))
}

/// `→V`, of what may be unset or mixed.
pub fn branch_fact(value: &Inferred) -> Result<Inferred, RuleBreak>
    ensures { result ≡ branch_fact value.now }
{
    match value {
        Inferred::Unset => Ok(Inferred::Unset),
        Inferred::Of(kind, shape) => {
            if is_mixed_kind(*kind) {
                return Ok(Inferred::mixed());
            }
            match shape {
                None => Ok(Inferred::mixed()),
                Some(lengths) => branch_rule(*kind, lengths.as_slice()),
            }
        }
    }
}
