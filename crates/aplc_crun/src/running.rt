//! Runs a machine over a source and a sink, within a budget of steps.
//! It must not know how a statement is carried out, nor how a line is read.

ghost use Rattle.std.specs.Prelude.{◌≡◌, ◌+◌, ◌<◌, ◌≤◌, ◌^◌, ◌↔◌, [], Err, IfSome, IfNone, IsTrue};
ghost use Rattle.aplc_crun.specs.declared.live.Verdict.TheVariants as verdict;
ghost use Rattle.aplc_crun.specs.Running.{CanRun};
ghost use Rattle.aplc_crun.specs.Ran.{Went, Ran};

use crate::advance::{Halt, advance};
use crate::live::Verdict;
use crate::machine::Machine;
use crate::reading::read_due;
use crate::stop::RunStop;
use aplc_io::{Sink, Source};

/// Takes steps up to a read and carries the read out, all within the budget. None is that the run goes on.
fn turn<S: Source, O: Sink>(
    machine: &mut Machine,
    input: &mut S,
    out: &mut O,
    budget: u64,
) -> Option<Result<(), RunStop>>
    requires can { CanRun machine.old }
    requires room { machine.old.live.steps + budget < 2 ^ 64 }
    ensures most { machine.new.live.steps ≤ machine.old.live.steps + budget }
    ensures once { S.met input.old ≡ machine.old.ended → (S.met input.new ≡ machine.new.ended) × (S.late input.new ≡ S.late input.old) }
    ensures can { CanRun machine.new }
    ensures more { IfNone result (machine.old.live.steps < machine.new.live.steps) }
    ensures went { IfNone result (Went machine.old (S.state input.old) (S.state input.new) (O.state out.old) (O.state out.new) [] verdict.Held machine.new) }
    ensures ran { IfSome result (λ r. Ran machine.old (S.state input.old) (O.state out.old) budget machine.new (S.state input.new) (O.state out.new) r) }
{
    match advance(machine, out, budget) {
        Err(Halt::Write) => Some(Err(RunStop::WriteFault)),
        Err(Halt::Memory) => Some(Err(RunStop::Memory)),
        Ok(Verdict::Ended) => Some(Ok(())),
        Ok(Verdict::Faulted(kind)) => Some(Err(RunStop::Fault(kind))),
        Ok(Verdict::Stuck(cause)) => Some(Err(RunStop::Stuck(cause, machine.live.at as u64))),
        Ok(Verdict::Going) => Some(Err(RunStop::Spent)),
        Ok(Verdict::Held) => match read_due(machine, input) {
            Ok(()) => None,
            Err(stop) => Some(Err(stop)),
        },
    }
}

/// Takes at most `budget` steps, and hands over what they wrote.
pub fn turns<S: Source, O: Sink>(
    machine: &mut Machine,
    input: &mut S,
    out: &mut O,
    budget: u64,
) -> Result<(), RunStop>
    requires can { CanRun machine.old }
    requires room { machine.old.live.steps + budget < 2 ^ 64 }
    ensures most { machine.new.live.steps ≤ machine.old.live.steps + budget }
    ensures once { S.met input.old ≡ machine.old.ended → (S.met input.new ≡ machine.new.ended) × (S.late input.new ≡ S.late input.old) }
    ensures can { CanRun machine.new }
    ensures ran { Ran machine.old (S.state input.old) (O.state out.old) budget machine.new (S.state input.new) (O.state out.new) result }
{
    let mut left = budget;
    'turns: loop {
        let before = machine.live.steps;
        match turn(machine, input, out, left) {
            Some(answer) => return answer,
            None => left -= machine.live.steps - before,
        }
    }
}

/// Whether a run spent its budget.
pub fn is_spent(answer: &Result<(), RunStop>) -> bool
    ensures { IsTrue result ↔ (answer.now ≡ Err RunStop.Spent) }
{
    match answer {
        Err(RunStop::Spent) => true,
        _ => false,
    }
}
