//! The C program of a lowered program of which all is built.
//! It must not know what a statement does, nor which variables serve it.

ghost use Rattle.std.specs.Prelude.{◌≡◌, ℕ, List as ListOf, None, IfOk};
ghost use Rattle.aplc_names.specs.PlainPrograms.{plain};
ghost use Rattle.aplc_names.specs.States.{Marking};
ghost use Rattle.aplc_cprof.specs.WellFormed.{IsWellFormed};
ghost use Rattle.aplc_cprof.specs.Behaviour.{Alike, behaviour};
ghost use Rattle.aplc_gen.specs.Shown.{source_behaviour};
ghost use Rattle.aplc_gen.specs.Unbuilt.{first_place};

use crate::generating::build;
use crate::layout::layout;
use crate::sparing::spared;
use aplc_core::{CoreProgram, lowered_keeps_runs};
use aplc_cprof::CProgram;
use aplc_plan::Plan;
use std::alloc::{AllocError, Global};

/// The C program of a lowered program of which all is built. It behaves as the source does under its eager rules, for
/// every marking and every input. Nothing of the plan is used: values of one element are never swept.
pub fn generate(alloc: Global, core: &CoreProgram, _plan: &Plan) -> Result<CProgram, AllocError>
    requires built { first_place core.now.program core.now.facts ≡ None }
    ensures formed { IfOk result (λ c. IsWellFormed c) }
    ensures alike { IfOk result (λ c. (m : Marking) (input : ListOf ℕ) → Alike (source_behaviour (plain core.now.program) m input) (behaviour c input)) }
{
    lowered_keeps_runs(core);
    let _program = core.bound().program();
    let every = layout(alloc, core)?;
    let layout = spared(alloc, core, &every)?;
    build(alloc, core, &layout)
}
