//! The nodes of steps that have arguments or are kept.
//! It must not know the facts of nodes.

ghost use Rattle.std.specs.Prelude.{◌≡◌, ◌++◌, map, OnOk};
ghost use Rattle.aplc_core.specs.PlainSteps.{term_of, terms_in, effect_of, id_of};
ghost use Rattle.aplc_plan.specs.Held.{inner, list_inner, step_inner, line_inner};

use aplc_core::{Step, Tree};
use aplc_syntax::NodeId;
use std::alloc::AllocError;

/// The node of a tree.
#[tactic(auto, using(aplc_core::proofs::TermForms::term_forms))]
fn node_of(tree: &Tree) -> NodeId
    ensures { result.0 ≡ id_of (term_of tree.now) }
{
    match tree {
        Tree::Literal(node, _, _) => *node,
        Tree::Read(node, _) => *node,
        Tree::Slot(node, _) => *node,
        Tree::Mono(node, _, _) => *node,
        Tree::Dyad(node, _, _, _) => *node,
        Tree::Index(node, _, _) => *node,
    }
}

/// Puts the nodes of a tree that have arguments behind those that are there.
#[cycle(trees)]
#[tactic(auto, using(aplc_core::proofs::TermForms::term_forms))]
fn put_tree(out: &mut Vec<u32>, tree: &Tree) -> Result<(), AllocError>
    ensures { OnOk result (out.new.items ≡ out.old.items ++ inner (term_of tree.now)) }
{
    match tree {
        Tree::Literal(_, _, _) => Ok(()),
        Tree::Read(_, _) => Ok(()),
        Tree::Slot(_, _) => Ok(()),
        Tree::Mono(node, _, b) => {
            out.push(node.0)?;
            put_tree(out, b.get())
        }
        Tree::Dyad(node, _, a, b) => {
            out.push(node.0)?;
            put_tree(out, a.get())?;
            put_tree(out, b.get())
        }
        Tree::Index(node, a, entries) => {
            out.push(node.0)?;
            put_tree(out, a.get())?;
            put_entries(out, entries.get().as_slice())
        }
    }
}

/// Those of the trees of an index list.
#[cycle(trees)]
fn put_entries(out: &mut Vec<u32>, entries: &[Option<Tree>]) -> Result<(), AllocError>
    ensures { OnOk result (out.new.items ≡ out.old.items ++ list_inner (terms_in entries.now)) }
{
    for entry in entries {
        match entry {
            None => {}
            Some(tree) => put_tree(out, tree)?,
        }
    }
    Ok(())
}

/// Those of a step, and the node that it keeps.
fn put_step(out: &mut Vec<u32>, step: &Step) -> Result<(), AllocError>
    ensures { OnOk result (out.new.items ≡ out.old.items ++ step_inner (effect_of step.now)) }
{
    match step {
        Step::Keep(_, tree) => {
            out.push(node_of(tree).0)?;
            put_tree(out, tree)
        }
        Step::Store(_, _, tree) => put_tree(out, tree),
        Step::StoreAt(_, _, entries, tree) => {
            put_entries(out, entries.as_slice())?;
            put_tree(out, tree)
        }
        Step::Call(_, _, _, _, _) => Ok(()),
        Step::Text(_, _) => Ok(()),
        Step::Nums(_, _) => Ok(()),
        Step::Show(_, tree) => put_tree(out, tree),
        Step::Branch(tree) => put_tree(out, tree),
    }
}

/// Those of a line.
pub fn put_line(out: &mut Vec<u32>, steps: &[Step]) -> Result<(), AllocError>
    ensures { OnOk result (out.new.items ≡ out.old.items ++ line_inner (map effect_of steps.now)) }
{
    for step in steps {
        put_step(out, step)?;
    }
    Ok(())
}
