//! What is known of a value before the program runs: its kind, its rank and its lengths.
//! It must not know which node or name has the value.

ghost use Rattle.std.specs.Prelude.{◌≡◌, ◌<◌, ◌≤◌, ◌+◌, ◌++◌, ◌∷◌, [], ℕ, Option, Some, None, length};
ghost use Rattle.aplc_infer.specs.Facts.{kind_below, kind_join, length_below, length_join, lengths_below, lengths_join, shape_below, shape_join, below, join, mixed, is_mixed_kind, is_mixed, is_unset, settled, IsShort};

use std::marker::Model;

/// The kind of a value. `Bit` is numbers of which each is 0 or 1, `Mixed` numbers or characters.
#[derive(Clone, Copy, Debug, PartialEq, Eq)]
pub enum FactKind {
    Bit,
    Num,
    Char,
    Mixed,
}

/// A length for each of at most eight axes. One that is not known is `None`.
#[derive(Drop)]
pub struct Lengths {
    cells: [Option<u32>; 8],
    count: usize,
}

impl Model for Lengths {
    ghost use Rattle.std.specs.Prelude.{List, Option, ℕ, take, ◌≤◌};

    ghost Value = { List (Option ℕ) };

    ghost view = { λ s. take s.count s.cells };

    ghost invariant = { λ s. s.count ≤ 8 };
}

impl Lengths {
    pub fn new() -> Lengths
        ensures { result ≡ [] }
    {
        Lengths {
            cells: [None; 8],
            count: 0,
        }
    }

    pub fn push(&mut self, x: Option<u32>)
        requires { length self.old < 8 }
        ensures { self.new ≡ self.old ++ x ∷ [] }
    {
        self.cells[self.count] = x;
        self.count += 1;
    }

    pub fn as_slice(&self) -> &[Option<u32>]
        ensures same { result.now ≡ self.now }
        ensures short { length self.now ≤ 8 }
    {
        &self.cells[..self.count]
    }

    pub fn copy(&self) -> Lengths
        ensures { result ≡ self.now }
    {
        Lengths {
            cells: self.cells,
            count: self.count,
        }
    }
}

/// What is known of a value.
#[derive(Drop)]
pub enum Inferred {
    /// Nothing is known to give it a value.
    Unset,
    /// Its kind, and a length for each axis. `None` is a mixed rank.
    Of(FactKind, Option<Lengths>),
}

pub fn is_mixed_kind(kind: FactKind) -> bool
    ensures { result ≡ is_mixed_kind kind }
{
    match kind {
        FactKind::Bit | FactKind::Num | FactKind::Char => false,
        FactKind::Mixed => true,
    }
}

fn kind_below(a: FactKind, b: FactKind) -> bool
    ensures { result ≡ kind_below a b }
{
    match (a, b) {
        (FactKind::Bit, FactKind::Bit) | (FactKind::Bit, FactKind::Num) => true,
        (FactKind::Num, FactKind::Num) | (FactKind::Char, FactKind::Char) => true,
        (_, FactKind::Mixed) => true,
        _ => false,
    }
}

fn kind_join(a: FactKind, b: FactKind) -> FactKind
    ensures { result ≡ kind_join a b }
{
    match (a, b) {
        (FactKind::Bit, FactKind::Bit) => FactKind::Bit,
        (FactKind::Bit, FactKind::Num) => FactKind::Num,
        (FactKind::Num, FactKind::Bit) | (FactKind::Num, FactKind::Num) => FactKind::Num,
        (FactKind::Char, FactKind::Char) => FactKind::Char,
        _ => FactKind::Mixed,
    }
}

fn length_below(x: Option<u32>, y: Option<u32>) -> bool
    ensures { result ≡ length_below x y }
{
    match (x, y) {
        (_, None) => true,
        (None, Some(_)) => false,
        (Some(m), Some(n)) => m == n,
    }
}

/// The length that both are, if they are known and equal.
pub fn length_join(x: Option<u32>, y: Option<u32>) -> Option<u32>
    ensures { result ≡ length_join x y }
{
    match (x, y) {
        (Some(m), Some(n)) => { if m == n { Some(m) } else { None } }
        _ => None,
    }
}

fn lengths_below(xs: &[Option<u32>], ys: &[Option<u32>]) -> bool
    ensures { result ≡ lengths_below xs.now ys.now }
{
    match xs {
        [] => ys.len() == 0,
        [x, xs @ ..] => match ys {
            [] => false,
            [y, ys @ ..] => length_below(*x, *y) && lengths_below(xs, ys),
        },
    }
}

/// Puts the joins of lengths behind those that stand.
fn put_joins(out: &mut Lengths, xs: &[Option<u32>], ys: &[Option<u32>])
    requires { length out.old + length xs.now ≤ 8 }
    ensures { out.new ≡ out.old ++ lengths_join xs.now ys.now }
{
    match xs {
        [] => {}
        [x, xs @ ..] => match ys {
            [] => {}
            [y, ys @ ..] => {
                out.push(length_join(*x, *y));
                put_joins(out, xs, ys)
            }
        },
    }
}

fn lengths_join(xs: &Lengths, ys: &Lengths) -> Lengths
    ensures { result ≡ lengths_join xs.now ys.now }
{
    let mut out = Lengths::new();
    put_joins(&mut out, xs.as_slice(), ys.as_slice());
    out
}

fn shape_below(s: &Option<Lengths>, t: &Option<Lengths>) -> bool
    ensures { result ≡ shape_below s.now t.now }
{
    match t {
        None => true,
        Some(ys) => match s {
            None => false,
            Some(xs) => lengths_below(xs.as_slice(), ys.as_slice()),
        },
    }
}

fn shape_join(s: &Option<Lengths>, t: &Option<Lengths>) -> Option<Lengths>
    ensures { result ≡ shape_join s.now t.now }
{
    match s {
        None => None,
        Some(xs) => match t {
            None => None,
            Some(ys) => {
                if xs.as_slice().len() == ys.as_slice().len() {
                    Some(lengths_join(xs, ys))
                } else {
                    None
                }
            }
        },
    }
}

pub fn shape_copy(s: &Option<Lengths>) -> Option<Lengths>
    ensures { result ≡ s.now }
{
    match s {
        None => None,
        Some(xs) => Some(xs.copy()),
    }
}

impl Inferred {
    /// Mixed in kind and in rank, which is above all.
    pub fn mixed() -> Inferred
        ensures { result ≡ mixed }
    {
        Inferred::Of(FactKind::Mixed, None)
    }

    pub fn copy(&self) -> Inferred
        ensures { result ≡ self.now }
    {
        match self {
            Inferred::Unset => Inferred::Unset,
            Inferred::Of(kind, s) => Inferred::Of(*kind, shape_copy(s)),
        }
    }

    pub fn is_unset(&self) -> bool
        ensures { result ≡ is_unset self.now }
    {
        match self {
            Inferred::Unset => true,
            Inferred::Of(_, _) => false,
        }
    }

    /// Whether the kind or the rank is mixed.
    pub fn is_mixed(&self) -> bool
        ensures { result ≡ is_mixed self.now }
    {
        match self {
            Inferred::Unset => false,
            Inferred::Of(kind, s) => is_mixed_kind(*kind) || s.is_none(),
        }
    }

    /// Mixed in kind and in rank where it is so in one of them.
    pub fn settled(&self) -> Inferred
        ensures { result ≡ settled self.now }
    {
        if self.is_mixed() {
            Inferred::mixed()
        } else {
            self.copy()
        }
    }

    /// Whether it says no less than another: each value that it is true of is one of the other too.
    pub fn is_below(&self, other: &Inferred) -> bool
        ensures { result ≡ below self.now other.now }
    {
        match self {
            Inferred::Unset => true,
            Inferred::Of(a, s) => match other {
                Inferred::Unset => false,
                Inferred::Of(b, t) => kind_below(*a, *b) && shape_below(s, t),
            },
        }
    }

    /// The least fact above both.
    pub fn join(&self, other: &Inferred) -> Inferred
        ensures { result ≡ join self.now other.now }
    {
        match self {
            Inferred::Unset => other.copy(),
            Inferred::Of(a, s) => match other {
                Inferred::Unset => self.copy(),
                Inferred::Of(b, t) => Inferred::Of(kind_join(*a, *b), shape_join(s, t)),
            },
        }
    }

    /// No fact has more than eight lengths.
    pub fn is_short(&self) -> bool
        ensures { IsShort self.now }
    {
        match self {
            Inferred::Unset => true,
            Inferred::Of(_, None) => true,
            Inferred::Of(_, Some(xs)) => xs.as_slice().len() <= 8,
        }
    }
}
