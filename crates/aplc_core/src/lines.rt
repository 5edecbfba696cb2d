//! The steps of all lines of a program.
//! It must not know how a tree is walked.

ghost use Rattle.std.specs.Prelude.{◌≡◌, ◌≤◌, length, map, IfOk, All};
ghost use Rattle.aplc_syntax.specs.declared.tree.Line.{Line};
ghost use Rattle.aplc_syntax.specs.declared.tree.Function.{Function};
ghost use Rattle.aplc_syntax.specs.Programs.{statement_ids};
ghost use Rattle.aplc_core.specs.CorePrograms.{line_effects, function_effects, lowered_line, lowered_function};

use crate::lowering::Lowering;
use crate::step::Step;
use crate::walk::walk_statement;
use aplc_lex::List;
use aplc_syntax::{Function, Line};
use std::alloc::{AllocError, Global};

/// The steps of a line.
fn lower_line(alloc: Global, line: &Line) -> Result<List<Step>, AllocError>
    requires { length (statement_ids line.now.statement) ≤ 256 }
    ensures { IfOk result (λ xs. line_effects xs ≡ lowered_line line.now) }
{
    let mut lowering = Lowering::new(alloc);
    walk_statement(alloc, &line.statement, &mut lowering)?;
    Ok(lowering.into_steps())
}

/// The steps of a function, by its lines.
fn lower_function(alloc: Global, function: &Function) -> Result<List<List<Step>>, AllocError>
    requires { All (λ (l : Line). length (statement_ids l.statement) ≤ 256) function.now.lines }
    ensures { IfOk result (λ xs. function_effects xs ≡ lowered_function function.now) }
{
    let mut lines = Vec::new(alloc);
    for line in function.lines.as_slice() {
        let steps = lower_line(alloc, line)?;
        lines.push(steps)?;
    }
    Ok(List::from_vec(lines))
}

/// The steps of a program, by functions and their lines.
pub fn lower_functions(
    alloc: Global,
    functions: &[Function],
) -> Result<List<List<List<Step>>>, AllocError>
    requires { All (λ (f : Function). All (λ (l : Line). length (statement_ids l.statement) ≤ 256) f.lines) functions.now }
    ensures { IfOk result (λ xs. map function_effects xs ≡ map lowered_function functions.now) }
{
    let mut steps = Vec::new(alloc);
    for function in functions {
        let lines = lower_function(alloc, function)?;
        steps.push(lines)?;
    }
    Ok(List::from_vec(steps))
}
