//! The operators of expressions on plain numbers, each in two forms: one tells the cause where there is no value,
//! the other, quicker one answers the least `i64`, which is no number of the machine.

ghost use Rattle.std.specs.Prelude.{◌≡◌, ◌+ℤ◌, ◌-ℤ◌, ◌*ℤ◌};
ghost use Rattle.std.specs.Int.RustNames.{int_div, int_rem};
ghost use Rattle.aplc_scalar.specs.Scalar.{truth};
ghost use Rattle.aplc_cprof.specs.Machine.{ranged, divided, apply, exact, Is};
ghost use Rattle.aplc_crun.specs.Seen.{value_of, IsStrict};

use aplc_cprof::{Checked, Op, StuckCause};

#[tactic(auto, unfolding(aplc_cprof::specs::Machine::ranged, aplc_scalar::specs::Scalar::in_range))]
fn add(a: i64, b: i64) -> Result<i64, StuckCause>
    ensures { value_of result ≡ ranged (a +ℤ b) }
{
    match a.checked_add(b) {
        Some(sum) if sum != i64::MIN => Ok(sum),
        _ => Err(StuckCause::Range),
    }
}

#[tactic(auto, unfolding(aplc_cprof::specs::Machine::ranged, aplc_scalar::specs::Scalar::in_range))]
fn subtract(a: i64, b: i64) -> Result<i64, StuckCause>
    ensures { value_of result ≡ ranged (a -ℤ b) }
{
    match a.checked_sub(b) {
        Some(difference) if difference != i64::MIN => Ok(difference),
        _ => Err(StuckCause::Range),
    }
}

#[tactic(auto, unfolding(aplc_cprof::specs::Machine::ranged, aplc_scalar::specs::Scalar::in_range))]
fn multiply(a: i64, b: i64) -> Result<i64, StuckCause>
    ensures { value_of result ≡ ranged (a *ℤ b) }
{
    match a.checked_mul(b) {
        Some(product) if product != i64::MIN => Ok(product),
        _ => Err(StuckCause::Range),
    }
}

#[tactic(auto, unfolding(aplc_cprof::specs::Machine::ranged, aplc_cprof::specs::Machine::divided, aplc_scalar::specs::Scalar::in_range))]
fn divide(a: i64, b: i64) -> Result<i64, StuckCause>
    ensures { value_of result ≡ divided int_div a b }
{
    if b == 0 {
        return Err(StuckCause::Range);
    }
    match a.checked_div(b) {
        Some(quotient) if quotient != i64::MIN => Ok(quotient),
        _ => Err(StuckCause::Range),
    }
}

#[tactic(auto, unfolding(aplc_cprof::specs::Machine::ranged, aplc_cprof::specs::Machine::divided, aplc_scalar::specs::Scalar::in_range))]
fn remainder(a: i64, b: i64) -> Result<i64, StuckCause>
    ensures { value_of result ≡ divided int_rem a b }
{
    if b == 0 {
        return Err(StuckCause::Range);
    }
    Ok(a.wrapping_rem(b))
}

#[inline]
pub fn truth_value(holds: bool) -> i64
    ensures { result ≡ truth holds }
{
    if holds { 1 } else { 0 }
}

/// What an operator that needs both sides gives, or why there is no value.
pub fn both_values(op: Op, a: i64, b: i64) -> Result<i64, StuckCause>
    requires { IsStrict op }
    ensures { value_of result ≡ apply op (Is a) (Is b) }
{
    match op {
        Op::Add => add(a, b),
        Op::Sub => subtract(a, b),
        Op::Mul => multiply(a, b),
        Op::Div => divide(a, b),
        Op::Rem => remainder(a, b),
        Op::Less => Ok(truth_value(a < b)),
        Op::LessEq => Ok(truth_value(a <= b)),
        Op::Equal => Ok(truth_value(a == b)),
        Op::NotEqual => Ok(truth_value(a != b)),
        Op::GreaterEq => Ok(truth_value(a >= b)),
        Op::Greater => Ok(truth_value(a > b)),
        Op::And | Op::Or => unreachable!(),
    }
}

/// What checked arithmetic gives, or None where it is out of range.
pub fn checked_value(op: Checked, a: i64, b: i64) -> Result<i64, StuckCause>
    ensures { value_of result ≡ ranged (exact op a b) }
{
    match op {
        Checked::Add => add(a, b),
        Checked::Sub => subtract(a, b),
        Checked::Mul => multiply(a, b),
    }
}

#[inline]
#[tactic(auto, unfolding(aplc_cprof::specs::Machine::ranged, aplc_scalar::specs::Scalar::in_range))]
fn quick_add(a: i64, b: i64) -> i64
    ensures { ¬ (result ≡ i64.MIN) → ranged (a +ℤ b) ≡ Is result }
{
    match a.checked_add(b) {
        Some(sum) => sum,
        None => i64::MIN,
    }
}

#[inline]
#[tactic(auto, unfolding(aplc_cprof::specs::Machine::ranged, aplc_scalar::specs::Scalar::in_range))]
fn quick_subtract(a: i64, b: i64) -> i64
    ensures { ¬ (result ≡ i64.MIN) → ranged (a -ℤ b) ≡ Is result }
{
    match a.checked_sub(b) {
        Some(difference) => difference,
        None => i64::MIN,
    }
}

#[inline]
#[tactic(auto, unfolding(aplc_cprof::specs::Machine::ranged, aplc_scalar::specs::Scalar::in_range))]
fn quick_multiply(a: i64, b: i64) -> i64
    ensures { ¬ (result ≡ i64.MIN) → ranged (a *ℤ b) ≡ Is result }
{
    match a.checked_mul(b) {
        Some(product) => product,
        None => i64::MIN,
    }
}

#[inline]
#[tactic(auto, unfolding(aplc_cprof::specs::Machine::ranged, aplc_cprof::specs::Machine::divided, aplc_scalar::specs::Scalar::in_range))]
fn quick_divide(a: i64, b: i64) -> i64
    ensures { ¬ (result ≡ i64.MIN) → divided int_div a b ≡ Is result }
{
    if b == 0 {
        return i64::MIN;
    }
    match a.checked_div(b) {
        Some(quotient) => quotient,
        None => i64::MIN,
    }
}

#[inline]
#[tactic(auto, unfolding(aplc_cprof::specs::Machine::ranged, aplc_cprof::specs::Machine::divided, aplc_scalar::specs::Scalar::in_range))]
fn quick_remainder(a: i64, b: i64) -> i64
    ensures { ¬ (result ≡ i64.MIN) → divided int_rem a b ≡ Is result }
{
    if b == 0 {
        return i64::MIN;
    }
    a.wrapping_rem(b)
}

/// What an operator gives where both sides have a value, or the least number where there may be none.
#[inline(always)]
pub fn quick_both(op: Op, a: i64, b: i64) -> i64
    ensures { ¬ (result ≡ i64.MIN) → apply op (Is a) (Is b) ≡ Is result }
{
    match op {
        Op::Add => quick_add(a, b),
        Op::Sub => quick_subtract(a, b),
        Op::Mul => quick_multiply(a, b),
        Op::Div => quick_divide(a, b),
        Op::Rem => quick_remainder(a, b),
        Op::Less => truth_value(a < b),
        Op::LessEq => truth_value(a <= b),
        Op::Equal => truth_value(a == b),
        Op::NotEqual => truth_value(a != b),
        Op::GreaterEq => truth_value(a >= b),
        Op::Greater => truth_value(a > b),
        Op::And => truth_value(a != 0 && b != 0),
        Op::Or => truth_value(a != 0 || b != 0),
    }
}

/// What checked arithmetic gives, or the least number where it is out of range.
#[inline]
pub fn quick_checked(op: Checked, a: i64, b: i64) -> i64
    ensures { ¬ (result ≡ i64.MIN) → ranged (exact op a b) ≡ Is result }
{
    match op {
        Checked::Add => quick_add(a, b),
        Checked::Sub => quick_subtract(a, b),
        Checked::Mul => quick_multiply(a, b),
    }
}
