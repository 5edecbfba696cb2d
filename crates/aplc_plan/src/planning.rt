//! The plan of a lowered program.
//! It must not know how steps were made.

ghost use Rattle.std.specs.Prelude.{◌≡◌, ℕ, ◌++◌, ◌≤◌, ◌&&◌, length, OnOk, IfOk};
ghost use Rattle.aplc_core.specs.CorePrograms.{program_steps};
ghost use Rattle.aplc_names.specs.States.{is_among};
ghost use Rattle.aplc_infer.specs.Shown.{fact_at};
ghost use Rattle.aplc_plan.specs.Held.{function_inner, program_inner, has_axes, is_held, is_swept, held_in, swept_in};
ghost use Rattle.aplc_plan.specs.Walked.{function_steps};

use crate::inner::put_line;
use crate::marks::Plan;
use crate::table::hold;
use aplc_core::CoreProgram;
use aplc_syntax::NodeId;
use std::alloc::{AllocError, Global};

/// Puts the nodes of a function with so many lines that have arguments or are kept behind those that are there.
fn put_lines(
    out: &mut Vec<u32>,
    core: &CoreProgram,
    function: usize,
    lines: usize,
) -> Result<(), AllocError>
    requires lines { length (function_steps core.now.program function) ≤ lines }
    ensures { OnOk result (out.new.items ≡ out.old.items ++ function_inner (function_steps core.now.program function)) }
{
    for line in 0..lines {
        put_line(out, core.steps(function, line + 1))?;
    }
    Ok(())
}

/// Those of a function.
fn put_function(out: &mut Vec<u32>, core: &CoreProgram, function: usize) -> Result<(), AllocError>
    ensures { OnOk result (out.new.items ≡ out.old.items ++ function_inner (function_steps core.now.program function)) }
{
    match core.bound().program().functions.as_slice().get(function) {
        None => Ok(()),
        Some(f) => put_lines(out, core, function, f.lines.as_slice().len()),
    }
}

/// Those of a program.
fn inner_nodes(alloc: Global, core: &CoreProgram) -> Result<Vec<u32>, AllocError>
    ensures { IfOk result (λ v. v.items ≡ program_inner (program_steps core.now.program)) }
{
    let mut out = Vec::new(alloc);
    let functions = core.bound().program().functions.as_slice().len();
    for function in 0..functions {
        put_function(&mut out, core, function)?;
    }
    Ok(out)
}

/// Whether the value of a node has rank 1 or more.
fn is_array(core: &CoreProgram, node: NodeId) -> bool
    ensures { result ≡ has_axes (fact_at core.now.facts node.0) }
{
    match core.fact(node) {
        None => false,
        Some(fact) => match fact.rank {
            None => false,
            Some(rank) => rank > 0,
        },
    }
}

/// A table in which those of the nodes are held whose values have rank 1 or more.
fn held_of(alloc: Global, core: &CoreProgram, nodes: &[u32]) -> Result<Vec<bool>, AllocError>
    ensures { IfOk result (λ v. (n : ℕ) → held_in v.items n ≡ (is_among n nodes.now && has_axes (fact_at core.now.facts n))) }
{
    let mut table = Vec::new(alloc);
    for node in nodes {
        if is_array(core, NodeId(*node)) {
            hold(&mut table, *node)?;
        }
    }
    Ok(table)
}

/// The plan of a program: each node of rank 1 or more that a step computes from others or keeps is held, and none is swept.
/// `AllocError` is want of memory alone.
pub fn plan(alloc: Global, core: &CoreProgram) -> Result<Plan, AllocError>
    ensures held { IfOk result (λ p. (n : ℕ) → held_in p n ≡ is_held core.now n) }
    ensures swept { IfOk result (λ p. (n : ℕ) → swept_in p n ≡ is_swept core.now n) }
{
    let nodes = inner_nodes(alloc, core)?;
    let held = held_of(alloc, core, &nodes)?;
    Ok(Plan::from_table(held))
}
