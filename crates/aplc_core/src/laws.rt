//! What lowering promises of runs, for those who build on it.
//! It must not hold code that runs.

ghost use Rattle.std.specs.Prelude.{◌≡◌, ℕ, [], Some, slice_get, unwrap_or};
ghost use Rattle.aplc_syntax.specs.declared.tree.Program.{Program};
ghost use Rattle.aplc_names.specs.Programs.{IsParsed};
ghost use Rattle.aplc_names.specs.PlainPrograms.{plain};
ghost use Rattle.aplc_core.specs.CoreRuns.{CoreRoutine, steps_at};
ghost use Rattle.aplc_core.specs.Lowering.{lowered_program};
ghost use Rattle.aplc_core.specs.CorePrograms.{line_steps};
ghost use Rattle.aplc_core.specs.CoreLaws.{KeepsRuns};

use crate::program::CoreProgram;
use aplc_names::Bound;

/// The core run of a program that spells a source is its eager run: for every marking, every input and every number of
/// lines the same outcome, work, trace of values and greatest account, and a late fault in the one where the other has it.
pub fn keeps_runs()
    ensures { (p : Program) → ∥ IsParsed p ∥₁ → KeepsRuns (plain p) }
{}

/// So it is with every resolved program.
pub fn bound_keeps_runs(bound: &Bound)
    ensures { KeepsRuns (plain bound.now) }
{
    let _program = bound.program();
}

/// So it is with every program that was lowered, and the steps of line l of its function i, as `CoreProgram::steps` gives
/// them, are those of that line in the core run.
pub fn lowered_keeps_runs(core: &CoreProgram)
    ensures keeps { KeepsRuns (plain core.now.program) }
    ensures steps { (i l : ℕ) (f : CoreRoutine) → slice_get (lowered_program (plain core.now.program)).routines i ≡ Some f → line_steps core.now.program i l ≡ unwrap_or (steps_at f.steps l) [] }
{
    let _program = core.bound().program();
}
