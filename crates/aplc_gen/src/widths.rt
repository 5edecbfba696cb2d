//! How many variables the values within trees take.
//! They must not know the code.

ghost use Rattle.std.specs.Prelude.{◌≡◌, ◌≤◌, ◌<◌, ◌^◌, true, map};
ghost use Rattle.aplc_core.specs.PlainSteps.{term_of, effect_of};
ghost use Rattle.aplc_gen.specs.Layouts.{the_routine};
ghost use Rattle.aplc_gen.specs.Emitted.{width, step_width, steps_width, lines_width};
ghost use Rattle.aplc_gen.specs.Writing.{site_of, slots_at, fits_step, fits_steps, fits_lines};

use crate::site::Site;
use aplc_core::{Step, Tree};

#[tactic(auto, using(aplc_core::proofs::TermForms::term_forms))]
fn width(tree: &Tree) -> u32
    requires { width (term_of tree.now) < 2 ^ 32 }
    ensures { result ≡ width (term_of tree.now) }
{
    match tree {
        Tree::Mono(_, _, argument) => width(argument.get()).max(1),
        Tree::Dyad(_, _, left, right) => {
            let behind = width(right.get());
            behind.max(1 + width(left.get()))
        }
        _ => 0,
    }
}

#[tactic(auto, using(crate::proofs::Widest::step_fits))]
fn step_width(slots: u32, step: &Step) -> u32
    requires { fits_step slots (effect_of step.now) ≡ true }
    ensures width { result ≡ step_width (effect_of step.now) }
    ensures narrow { result ≤ 2000 }
{
    match step {
        Step::Keep(_, tree) => width(tree),
        Step::Store(_, _, tree) => width(tree),
        Step::Show(_, tree) => width(tree),
        Step::Branch(tree) => width(tree),
        _ => 0,
    }
}

#[tactic(auto, using(crate::proofs::Widest::steps_left))]
fn steps_width(slots: u32, steps: &[Step]) -> u32
    requires { fits_steps slots (map effect_of steps.now) ≡ true }
    ensures width { result ≡ steps_width (map effect_of steps.now) }
    ensures narrow { result ≤ 2000 }
{
    let mut most = 0;
    for step in steps {
        most = most.max(step_width(slots, step));
    }
    most
}

/// How many the widest line takes.
#[tactic(auto, using(crate::proofs::Widest::lines_left))]
pub fn lines_width(site: &Site) -> u32
    requires { fits_lines (slots_at site.now) (the_routine (site_of site.now)).steps ≡ true }
    ensures width { result ≡ lines_width (the_routine (site_of site.now)).steps }
    ensures narrow { result ≤ 2000 }
{
    let mut most = 0;
    for index in 0..site.lines() {
        most = most.max(steps_width(site.frame().slots(), site.steps(index + 1)));
    }
    most
}
