//! Programs whose lines are steps.
//! It must not know how a statement is cut.

ghost use Rattle.std.specs.Prelude.{◌≡◌, [], map, unwrap_or, IfOk};
ghost use Rattle.std.specs.Option.{option_copied};
ghost use Rattle.aplc_infer.specs.Families.{IsWellTyped};
ghost use Rattle.aplc_infer.specs.Shown.{fact_at, IsInferred};
ghost use Rattle.aplc_core.specs.PlainSteps.{effect_of};
ghost use Rattle.aplc_names.specs.PlainPrograms.{plain};
ghost use Rattle.aplc_core.specs.CoreLaws.{KeepsRuns};
ghost use Rattle.aplc_core.specs.StepLaws.{SaysStatements};
ghost use Rattle.aplc_core.specs.CoreRuns.{steps_at};
ghost use Rattle.aplc_core.specs.CorePrograms.{line_steps, function_effects};

use crate::laws::bound_keeps_runs;
use crate::laws_of_steps::bound_says_statements;
use crate::lines::lower_functions;
use crate::step::Step;
use aplc_infer::{Fact, Facts};
use aplc_lex::List;
use aplc_names::Bound;
use aplc_syntax::NodeId;
use sqlite_items::at;
use std::alloc::{AllocError, Global};
use std::marker::Model;

/// A resolved program that is well typed, the facts of its nodes, and the steps of its lines.
#[derive(Drop)]
pub struct CoreProgram {
    bound: Bound,
    facts: Facts,
    /// By function, then by line.
    steps: List<List<List<Step>>>,
}

impl Model for CoreProgram {
    ghost use Rattle.aplc_core.specs.CoreRuns.{steps_at};
    ghost use Rattle.aplc_core.specs.CorePrograms.{Core, core_code, IsLowered};

    ghost Value = { Core };

    ghost coded = { core_code };

    ghost view = { λ c. record { program = c.bound; facts = c.facts } };

    ghost invariant = { λ c. IsLowered record { program = c.bound; facts = c.facts } c.steps };
}

/// The steps of a line, counted from 1.
fn steps_at(lines: &[List<Step>], line: usize) -> &[Step]
    ensures { map effect_of result.now ≡ unwrap_or (steps_at (function_effects lines.now) line) [] }
{
    if line == 0 {
        return &[];
    }
    match at(lines, line - 1) {
        None => &[],
        Some(steps) => steps.as_slice(),
    }
}

impl CoreProgram {
    /// The program. It is well typed.
    pub fn bound(&self) -> &Bound
        ensures program { result.now ≡ self.now.program }
        ensures typed { IsWellTyped self.now.program }
        ensures inferred { IsInferred self.now.program self.now.facts }
    {
        &self.bound
    }

    /// The steps of a line, where functions are counted from 0 and lines from 1. A line that is not there has none.
    pub fn steps(&self, function: usize, line: usize) -> &[Step]
        ensures { map effect_of result.now ≡ line_steps self.now.program function line }
    {
        match self.steps.as_slice().get(function) {
            None => &[],
            Some(lines) => steps_at(lines.as_slice(), line),
        }
    }

    /// The fact of a node. `None` is a node that is never evaluated.
    pub fn fact(&self, node: NodeId) -> Option<&Fact>
        ensures fact { option_copied result ≡ fact_at self.now.facts node.0 }
        ensures inferred { IsInferred self.now.program self.now.facts }
    {
        self.facts.of(node)
    }
}

/// A program whose statements are cut at their effects, with the facts of its nodes. The facts are copied, so that the
/// program stands alone. Its steps run as the program does, and those of a line say its statement.
pub fn lower(alloc: Global, bound: Bound, facts: &Facts) -> Result<CoreProgram, AllocError>
    requires typed { IsWellTyped bound }
    requires inferred { IsInferred bound facts.now }
    ensures program { IfOk result (λ c. c.program ≡ bound) }
    ensures facts { IfOk result (λ c. c.facts ≡ facts.now) }
    ensures runs { IfOk result (λ c. KeepsRuns (plain c.program)) }
    ensures says { IfOk result (λ c. SaysStatements c.program) }
{
    bound_keeps_runs(&bound);
    bound_says_statements(&bound);
    let steps = lower_functions(alloc, bound.program().functions.as_slice())?;
    let facts = facts.copy(alloc)?;
    Ok(CoreProgram {
        bound,
        facts,
        steps,
    })
}
