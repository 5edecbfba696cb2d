//! The arms of a switch, in which a number is searched by halving where their numbers rise.
//! It must not know what stands at the places of the arms.

ghost use Rattle.std.specs.Prelude.{◌≡◌, true};
ghost use Rattle.aplc_crun.specs.Choosing.{rises, rises_above};
ghost use Rattle.aplc_crun.specs.Flat.{picked};

use std::marker::Model;

/// An arm's number, and the place where the arm begins.
#[derive(Clone, Copy, Debug, PartialEq, Eq)]
pub struct Choice {
    pub value: i64,
    pub at: usize,
}

/// The arms of a switch, and whether their numbers rise.
#[derive(Drop)]
pub struct Choices {
    arms: Vec<Choice>,
    rising: bool,
}

impl Model for Choices {
    ghost use Rattle.std.specs.Prelude.{◌≡◌, List};
    ghost use Rattle.aplc_crun.specs.declared.choices.Choice.{Choice};
    ghost use Rattle.aplc_crun.specs.Choosing.{rises};

    ghost Value = { List Choice };

    ghost view = { λ c. c.arms.items };

    ghost invariant = { λ c. c.rising ≡ rises c.arms.items };
}

/// Each number is above the one before, and the first above another.
fn rises_above(mut low: i64, arms: &[Choice]) -> bool
    ensures { result ≡ rises_above low arms.now }
{
    for arm in arms {
        if arm.value <= low {
            return false;
        }
        low = arm.value;
    }
    true
}

fn rises(arms: &[Choice]) -> bool
    ensures { result ≡ rises arms.now }
{
    match arms {
        [] => true,
        [first, rest @ ..] => rises_above(first.value, rest),
    }
}

/// The place of the arm of a number, or another place. In a well formed program no switch needs it.
#[cold]
#[inline(never)]
fn linear_search(arms: &[Choice], v: i64, other: usize) -> usize
    ensures { result ≡ picked v arms.now other }
{
    for arm in arms {
        if arm.value == v {
            return arm.at;
        }
    }
    other
}

/// The same where the numbers rise, by halving.
#[inline(never)]
fn binary_search(arms: &[Choice], v: i64, other: usize) -> usize
    requires { rises arms.now ≡ true }
    ensures { result ≡ picked v arms.now other }
{
    match arms.binary_search_by_key(&v, |arm| arm.value) {
        Ok(i) => arms[i].at,
        Err(_) => other,
    }
}

impl Choices {
    pub fn new(arms: Vec<Choice>) -> Choices
        ensures { result ≡ arms.items }
    {
        let rising = rises(arms.as_slice());
        Choices { arms, rising }
    }

    /// The place of the arm of a number, or another place.
    #[inline]
    pub fn pick(&self, v: i64, other: usize) -> usize
        ensures { result ≡ picked v self.now other }
    {
        if self.rising {
            binary_search(self.arms.as_slice(), v, other)
        } else {
            linear_search(self.arms.as_slice(), v, other)
        }
    }
}
