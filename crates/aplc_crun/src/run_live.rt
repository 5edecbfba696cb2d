//! Takes steps until one is held, one is the last, or enough were taken.
//! It must not know where input comes from and output goes.

ghost use Rattle.std.specs.Prelude.{◌≡◌, ◌+◌, ◌-◌, ◌<◌, ◌≤◌, ◌^◌, [], IfOk, OnErr, slice_get};
ghost use Rattle.aplc_crun.specs.declared.live.Verdict.TheVariants as verdict;
ghost use Rattle.aplc_crun.specs.Flat.{flat_of, layout_of, flat_step, flat_run, Going, Held};
ghost use Rattle.aplc_crun.specs.Pausing.{paused, ReadIsDue, MemoryIsDue};

use crate::code::Laid;
use crate::live::{Live, Verdict};
use crate::sprint::sprint;
use crate::step::step;
use std::alloc::{AllocError, Global};

/// Takes at most `budget` steps. `Going` is that all were taken, `Held` that the next one is held.
/// Where memory is refused, the steps before are taken and nothing else has changed.
#[tactic(auto, using(crate::proofs::Turns::turns))]
pub fn run_live(
    alloc: Global,
    laid: &Laid,
    live: &mut Live,
    budget: u64,
) -> Result<Verdict, AllocError>
    requires { live.old.steps + budget < 2 ^ 64 }
    ensures least { live.old.steps ≤ live.new.steps }
    ensures most { live.new.steps ≤ live.old.steps + budget }
    ensures ran { IfOk result (λ v. paused v (flat_of live.new) ≡ flat_run (layout_of laid.now) (live.new.steps - live.old.steps) (flat_of live.old)) }
    ensures spent { IfOk result (λ v. v ≡ verdict.Going → live.new.steps ≡ live.old.steps + budget) }
    ensures left { IfOk result (λ v. v ≡ verdict.Held → live.new.steps < live.old.steps + budget) }
    ensures held { IfOk result (λ v. v ≡ verdict.Held → flat_step (layout_of laid.now) (flat_of live.new) ≡ Held (flat_of live.new)) }
    ensures progress { IfOk result (λ v. v ≡ verdict.Held → live.old.out.bytes.items ≡ [] → (ReadIsDue (slice_get laid.now.nodes.items live.new.at) → ⊥) → live.old.steps < live.new.steps) }
    ensures kept { OnErr result (Going (flat_of live.new) ≡ flat_run (layout_of laid.now) (live.new.steps - live.old.steps) (flat_of live.old)) }
    ensures hungry { OnErr result (MemoryIsDue (slice_get laid.now.nodes.items live.new.at)) }
{
    let mut taken = sprint(laid, live, budget);
    while taken < budget {
        match step(alloc, laid, live)? {
            Verdict::Going => {}
            Verdict::Held => return Ok(Verdict::Held),
            verdict => return Ok(verdict),
        }
        taken += 1;
        taken += sprint(laid, live, budget - taken);
    }
    Ok(Verdict::Going)
}
