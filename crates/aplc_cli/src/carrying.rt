//! Carries out a program over an input and an output.
//! It must not know where the program comes from, nor how its end is reported.

ghost use Rattle.std.specs.Prelude.{◌≡◌, ◌<◌, ◌^◌, ℕ, List, [], false};
ghost use Rattle.aplc_cprof.specs.declared.syntax.CProgram.{CProgram};
ghost use Rattle.aplc_cprof.specs.Machine.{code_of, initial};
ghost use Rattle.aplc_crun.specs.Running.{Stands, CanRun};
ghost use Rattle.aplc_cli.specs.Came.{told, result_map};
ghost use Rattle.aplc_cli.specs.Carrying.{Carried};

use crate::status::{Ending, RunEnd, Stop};
use aplc_crun::{Machine, RunStop};
use aplc_io::{Sink, Source};

/// Runs a machine that took no step yet, for at most `budget` steps.
pub fn carry_out<S: Source, O: Sink>(
    machine: Machine,
    input: &mut S,
    out: &mut O,
    budget: u64,
) -> Result<Ending, Stop>
    requires ready { CanRun machine }
    requires fresh { machine.live.steps ≡ 0 }
    requires open { machine.ended ≡ false }
    ensures late { S.met input.old ≡ false → S.late input.new ≡ S.late input.old }
    ensures carried { (p : CProgram) → ((i : List ℕ) → Stands p machine [] i (initial (code_of p) i)) → Carried p budget
        (record { input = S.state input.old; out = O.state out.old })
        (record { input = S.state input.new; out = O.state out.new }) (result_map told result) }
{
    let mut machine = machine;
    match machine.run(input, out, budget) {
        Ok(()) => Ok(Ending::Ran(RunEnd::Ended, machine)),
        Err(RunStop::Fault(kind)) => Ok(Ending::Ran(RunEnd::Faulted(kind), machine)),
        Err(RunStop::Spent) => Ok(Ending::Ran(RunEnd::Spent, machine)),
        Err(RunStop::Stuck(cause, statement)) => {
            Ok(Ending::Ran(RunEnd::Stuck(cause, statement), machine))
        }
        Err(RunStop::ReadFault) => Err(Stop::ReadFault),
        Err(RunStop::WriteFault) => Err(Stop::WriteFault),
        Err(RunStop::Memory) => Err(Stop::Memory),
    }
}
