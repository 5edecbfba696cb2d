//! The trees of a statement, from right to left.
//! It must not know how what waits is kept.

ghost use Rattle.std.specs.Prelude.{◌≡◌, ◌+◌, length, map, pos, IfOk, OnOk};
ghost use Rattle.aplc_scalar.specs.declared.kind.Kind.TheVariants.{Num, Char};
ghost use Rattle.aplc_syntax.specs.PlainTrees.{tree_of, trees_in, argument_in};
ghost use Rattle.aplc_names.specs.PlainPrograms.{quiet_of, action_of};
ghost use Rattle.aplc_core.specs.PlainSteps.{term_of, Literal};
ghost use Rattle.aplc_core.specs.Passes.{next_slot, pass, pass_list, pass_argument, pass_action};
ghost use Rattle.aplc_core.specs.Stands.{pass_of, given_count, argument_count};

use crate::lowering::Lowering;
use crate::step::Tree;
use aplc_lex::List;
use aplc_scalar::Kind;
use aplc_syntax::{Form, Node, NodeId, Statement};
use sqlite_items::Boxed;
use std::alloc::{AllocError, Global};

// ---- Literals

/// A literal of numbers.
#[tactic(auto, using(crate::proofs::TermForms::term_forms))]
fn numbers_tree(alloc: Global, node: NodeId, numbers: &[i64]) -> Result<Tree, AllocError>
    ensures { IfOk result (λ t. term_of t ≡ Literal node.0 Num numbers.now) }
{
    let copy = numbers.to_vec(alloc)?;
    Ok(Tree::Literal(node, Kind::Num, List::from_vec(copy)))
}

fn code_points(alloc: Global, characters: &[u32]) -> Result<Vec<i64>, AllocError>
    ensures { IfOk result (λ v. v.items ≡ map pos characters.now) }
{
    characters.iter().map(|c| i64::from(*c)).collect(alloc)
}

/// A literal of characters, which are their code points.
#[tactic(auto, using(crate::proofs::TermForms::term_forms))]
fn text_tree(alloc: Global, node: NodeId, characters: &[u32]) -> Result<Tree, AllocError>
    ensures { IfOk result (λ t. term_of t ≡ Literal node.0 Char (map pos characters.now)) }
{
    let copy = code_points(alloc, characters)?;
    Ok(Tree::Literal(node, Kind::Char, List::from_vec(copy)))
}

// ---- Trees

/// The tree of a node waits, behind the steps of its effects.
#[cycle(trees)]
#[tactic(auto, using(aplc_syntax::proofs::PlainForms::tree_node, aplc_syntax::proofs::PlainForms::plain_forms))]
fn walk(alloc: Global, node: &Node, line: &mut Lowering) -> Result<(), AllocError>
    ensures pass { OnOk result (pass_of line.new ≡ pass next_slot (tree_of node.now) (pass_of line.old)) }
    ensures count { OnOk result (length line.new.waiting ≡ length line.old.waiting + 1) }
{
    match &node.form {
        Form::Numbers(numbers) => {
            let literal = numbers_tree(alloc, node.id, numbers.as_slice())?;
            line.wait(literal)
        }
        Form::Text(characters) => {
            let literal = text_tree(alloc, node.id, characters.as_slice())?;
            line.wait(literal)
        }
        Form::Name(name) => line.wait(Tree::Read(node.id, *name)),
        Form::TextInput => line.read_text(alloc, node.id),
        Form::NumsInput => line.read_nums(alloc, node.id),
        Form::Mono(f, b) => {
            walk(alloc, b.get(), line)?;
            line.mono(alloc, node.id, *f)
        }
        Form::Dyad(f, left, right) => {
            walk(alloc, right.get(), line)?;
            walk(alloc, left.get(), line)?;
            line.dyad(alloc, node.id, *f)
        }
        Form::Index(a, entries) => {
            let list = entries.as_slice();
            walk_entries(alloc, list, line)?;
            walk(alloc, a.get(), line)?;
            line.index(alloc, node.id, list)
        }
        Form::Assign(name, a) => {
            walk(alloc, a.get(), line)?;
            line.assign(alloc, node.id, *name)
        }
        Form::AssignAt(name, entries, a) => {
            walk(alloc, a.get(), line)?;
            line.keep_all(alloc)?;
            let list = entries.as_slice();
            walk_entries(alloc, list, line)?;
            line.assign_at(alloc, node.id, *name, list)
        }
        Form::Show(a) => {
            walk(alloc, a.get(), line)?;
            line.show(alloc, node.id)
        }
        Form::Call(name, a, b) => {
            walk_argument(alloc, b, line)?;
            walk_argument(alloc, a, line)?;
            line.call(alloc, node.id, *name, a, b)
        }
    }
}

/// The trees of an index list wait, from the last place to the first.
#[cycle(trees)]
fn walk_entries(
    alloc: Global,
    entries: &[Option<Node>],
    line: &mut Lowering,
) -> Result<(), AllocError>
    ensures pass { OnOk result (pass_of line.new ≡ pass_list next_slot (trees_in entries.now) (pass_of line.old)) }
    ensures count { OnOk result (length line.new.waiting ≡ length line.old.waiting + given_count (trees_in entries.now)) }
{
    let mut left = entries.len();
    while left > 0 {
        left -= 1;
        match &entries[left] {
            None => {}
            Some(node) => walk(alloc, node, line)?,
        }
    }
    Ok(())
}

/// An argument of a call waits in a slot, if it is there.
#[cycle(trees)]
fn walk_argument(
    alloc: Global,
    argument: &Option<Boxed<Node>>,
    line: &mut Lowering,
) -> Result<(), AllocError>
    ensures pass { OnOk result (pass_of line.new ≡ pass_argument next_slot (argument_in argument.now) (pass_of line.old)) }
    ensures count { OnOk result (length line.new.waiting ≡ length line.old.waiting + argument_count (argument_in argument.now)) }
{
    match argument {
        None => Ok(()),
        Some(node) => {
            walk(alloc, node.get(), line)?;
            line.keep_all(alloc)
        }
    }
}

// ---- Statements

/// The steps of a statement that displays nothing of itself.
#[tactic(auto, using(aplc_syntax::proofs::PlainForms::tree_node, aplc_syntax::proofs::PlainForms::plain_forms))]
fn walk_quiet(alloc: Global, node: &Node, line: &mut Lowering) -> Result<(), AllocError>
    ensures { OnOk result (pass_of line.new ≡ pass_action next_slot (quiet_of (tree_of node.now)) (pass_of line.old)) }
{
    match &node.form {
        Form::Assign(_, _) => walk(alloc, node, line),
        Form::AssignAt(name, entries, a) => {
            let list = entries.as_slice();
            walk(alloc, a.get(), line)?;
            walk_entries(alloc, list, line)?;
            line.change(alloc, node.id, *name, list)
        }
        Form::Show(a) => {
            walk(alloc, a.get(), line)?;
            line.end_show(alloc, node.id)
        }
        Form::Call(name, a, b) => {
            walk_argument(alloc, b, line)?;
            walk_argument(alloc, a, line)?;
            line.perform(alloc, node.id, *name, a, b)
        }
        _ => {
            walk(alloc, node, line)?;
            line.keep_all(alloc)
        }
    }
}

/// The steps of a statement.
pub fn walk_statement(
    alloc: Global,
    statement: &Statement,
    line: &mut Lowering,
) -> Result<(), AllocError>
    ensures { OnOk result (pass_of line.new ≡ pass_action next_slot (action_of statement.now) (pass_of line.old)) }
{
    match statement {
        Statement::Empty => Ok(()),
        Statement::Quiet(node) => walk_quiet(alloc, node, line),
        Statement::Display(node) => {
            walk(alloc, node, line)?;
            line.end_display(alloc)
        }
        Statement::Branch(_, node) => {
            walk(alloc, node, line)?;
            line.end_branch(alloc)
        }
    }
}
