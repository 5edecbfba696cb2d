//! The scalar functions, one number at a time.
//! They must not know where their arguments stand in an array.

ghost use Rattle.std.specs.Prelude.{◌≡◌, ◌+ℤ◌, ◌-ℤ◌, ◌*ℤ◌, IsTrue};
ghost use Rattle.aplc_scalar.specs.Scalar.{in_range, IsInRange, limited, truth, monadic, dyadic, identity_of, is_monadic, is_dyadic, is_logical, boolean, residue, sign};

use crate::FaultKind;

/// A scalar function. `Max` and `Min` are `⌈` and `⌊`, `Residue` is the bar; `Not` has one argument.
#[derive(Clone, Copy, Debug, PartialEq, Eq)]
pub enum ScalarFn {
    Add,
    Sub,
    Mul,
    Max,
    Min,
    Residue,
    Less,
    LessEq,
    Equal,
    GreaterEq,
    Greater,
    NotEqual,
    And,
    Or,
    Nand,
    Nor,
    Not,
}

/// Whether a number is in the range, that is, not the least `i64`.
#[tactic(auto, unfolding(crate::specs::Scalar::in_range))]
pub fn in_range(a: i64) -> bool
    ensures { result ≡ in_range a }
{
    a != i64::MIN
}

/// The number, or `Limit` where it is out of range or there is none.
#[tactic(auto, unfolding(crate::specs::Scalar::in_range))]
fn add(a: i64, b: i64) -> Result<i64, FaultKind>
    ensures { result ≡ limited (a +ℤ b) }
{
    match a.checked_add(b) {
        Some(sum) if sum != i64::MIN => Ok(sum),
        _ => Err(FaultKind::Limit),
    }
}

#[tactic(auto, unfolding(crate::specs::Scalar::in_range))]
fn subtract(a: i64, b: i64) -> Result<i64, FaultKind>
    ensures { result ≡ limited (a -ℤ b) }
{
    match a.checked_sub(b) {
        Some(difference) if difference != i64::MIN => Ok(difference),
        _ => Err(FaultKind::Limit),
    }
}

#[tactic(auto, unfolding(crate::specs::Scalar::in_range))]
fn multiply(a: i64, b: i64) -> Result<i64, FaultKind>
    ensures { result ≡ limited (a *ℤ b) }
{
    match a.checked_mul(b) {
        Some(product) if product != i64::MIN => Ok(product),
        _ => Err(FaultKind::Limit),
    }
}

fn truth(holds: bool) -> i64
    ensures { result ≡ truth holds }
{
    if holds { 1 } else { 0 }
}

fn boolean(a: i64) -> Option<bool>
    ensures { result ≡ boolean a }
{
    match a {
        0 => Some(false),
        1 => Some(true),
        _ => None,
    }
}

/// `b` less a whole multiple of `a`: 0, or of `a`'s sign and of less magnitude. For an `a` of 0 it is `b`.
#[tactic(auto, unfolding(crate::specs::Scalar::in_range))]
fn residue(a: i64, b: i64) -> i64
    requires a { IsInRange a }
    requires b { IsInRange b }
    ensures { result ≡ residue a b }
{
    if a > 0 {
        return b.rem_euclid(a);
    }
    if a < 0 {
        return -((-b).rem_euclid(-a));
    }
    b
}

#[tactic(auto, unfolding(crate::specs::Scalar::in_range))]
fn sign(a: i64) -> i64
    ensures { result ≡ sign a }
{
    a.signum()
}

/// The value of a function of one argument. `Domain` comes exactly for `Not` of a number other than 0 and 1.
#[tactic(auto, unfolding(crate::specs::Scalar::in_range))]
pub fn mono(f: ScalarFn, a: i64) -> Result<i64, FaultKind>
    requires form { IsTrue (is_monadic f) }
    requires a { IsInRange a }
    ensures { result ≡ monadic f a }
{
    match f {
        ScalarFn::Sub => Ok(-a),
        ScalarFn::Mul => Ok(sign(a)),
        ScalarFn::Residue => Ok(a.abs()),
        ScalarFn::Not => match boolean(a) {
            Some(a) => Ok(truth(!a)),
            None => Err(FaultKind::Domain),
        },
        _ => Ok(a),
    }
}

fn logical(f: ScalarFn, a: i64, b: i64) -> Result<i64, FaultKind>
    requires { IsTrue (is_logical f) }
    ensures { result ≡ dyadic f a b }
{
    let (Some(a), Some(b)) = (boolean(a), boolean(b)) else {
        return Err(FaultKind::Domain);
    };
    match f {
        ScalarFn::And => Ok(truth(a && b)),
        ScalarFn::Or => Ok(truth(a || b)),
        ScalarFn::Nand => Ok(truth(!(a && b))),
        ScalarFn::Nor => Ok(truth(!(a || b))),
        _ => unreachable!(),
    }
}

/// The value of a function of two arguments, or `Limit` or `Domain`.
#[tactic(auto, unfolding(crate::specs::Scalar::in_range))]
pub fn dyad(f: ScalarFn, a: i64, b: i64) -> Result<i64, FaultKind>
    requires form { IsTrue (is_dyadic f) }
    requires a { IsInRange a }
    requires b { IsInRange b }
    ensures { result ≡ dyadic f a b }
{
    match f {
        ScalarFn::Add => add(a, b),
        ScalarFn::Sub => subtract(a, b),
        ScalarFn::Mul => multiply(a, b),
        ScalarFn::Max => Ok(a.max(b)),
        ScalarFn::Min => Ok(a.min(b)),
        ScalarFn::Residue => Ok(residue(a, b)),
        ScalarFn::Less => Ok(truth(a < b)),
        ScalarFn::LessEq => Ok(truth(a <= b)),
        ScalarFn::Equal => Ok(truth(a == b)),
        ScalarFn::GreaterEq => Ok(truth(a >= b)),
        ScalarFn::Greater => Ok(truth(a > b)),
        ScalarFn::NotEqual => Ok(truth(a != b)),
        ScalarFn::And | ScalarFn::Or | ScalarFn::Nand | ScalarFn::Nor => logical(f, a, b),
        ScalarFn::Not => unreachable!(),
    }
}

/// The value of a fold over nothing. `None` comes exactly for `Nand` and `Nor`.
pub fn identity(f: ScalarFn) -> Option<i64>
    requires { IsTrue (is_dyadic f) }
    ensures { result ≡ identity_of f }
{
    match f {
        ScalarFn::Add | ScalarFn::Sub | ScalarFn::Residue => Some(0),
        ScalarFn::Or | ScalarFn::Less | ScalarFn::Greater | ScalarFn::NotEqual => Some(0),
        ScalarFn::Mul | ScalarFn::And => Some(1),
        ScalarFn::LessEq | ScalarFn::Equal | ScalarFn::GreaterEq => Some(1),
        ScalarFn::Max => Some(-i64::MAX),
        ScalarFn::Min => Some(i64::MAX),
        ScalarFn::Nand | ScalarFn::Nor => None,
        ScalarFn::Not => unreachable!(),
    }
}
