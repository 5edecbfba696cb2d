//! Where a line leads.
//! It must not know any fact.

ghost use Rattle.std.specs.Prelude.{◌≡◌, ◌<◌};
ghost use Rattle.aplc_syntax.specs.PlainTrees.{tree_of};
ghost use Rattle.aplc_names.specs.PlainPrograms.{action_of, quiet_of};
ghost use Rattle.aplc_names.specs.Eager.{line_named};
ghost use Rattle.aplc_infer.specs.Seeing.{to_label, either_label, is_choice, chosen, number_flow, branch_flow, flow_of, leads};
ghost use Rattle.aplc_infer.specs.Lookups.{binding_at};

use crate::cell::{Binding, Flow};
use crate::lookup::Lookup;
use aplc_syntax::{Axis, Form, Node, Prim, Statement};

/// The number of a line, and 0 for a negative one: no line has either.
fn line_named(number: i64) -> usize
    ensures { result ≡ line_named number }
{
    if number < 0 { 0 } else { number as usize }
}

fn to_label(binding: Binding) -> Flow
    ensures { result ≡ to_label binding }
{
    match binding {
        Binding::Label(line) => Flow::To(line_named(line)),
        _ => Flow::Any,
    }
}

fn either_label(binding: Binding) -> Flow
    ensures { result ≡ either_label binding }
{
    match binding {
        Binding::Label(line) => Flow::Either(line_named(line)),
        _ => Flow::Any,
    }
}

/// A function that gives its right argument or nothing: `C/L` with no axis named, or `C⍴L`.
fn is_choice(function: Prim) -> bool
    ensures { result ≡ is_choice function }
{
    match function {
        Prim::Replicate(Axis::Last) | Prim::Shape => true,
        _ => false,
    }
}

fn number_flow(numbers: &[i64]) -> Flow
    ensures { result ≡ number_flow numbers.now }
{
    match numbers {
        [number] => Flow::To(line_named(*number)),
        _ => Flow::Any,
    }
}

#[tactic(auto, using(aplc_syntax::proofs::PlainForms::tree_node, aplc_syntax::proofs::PlainForms::plain_forms))]
fn chosen(lookup: &Lookup, function: usize, node: &Node) -> Flow
    ensures { result ≡ chosen (binding_at lookup.now function) (tree_of node.now) }
{
    match &node.form {
        Form::Name(name) => either_label(lookup.binding(function, *name)),
        _ => Flow::Any,
    }
}

#[tactic(auto, using(aplc_syntax::proofs::PlainForms::tree_node, aplc_syntax::proofs::PlainForms::plain_forms))]
fn branch_flow(lookup: &Lookup, function: usize, node: &Node) -> Flow
    ensures { result ≡ branch_flow (binding_at lookup.now function) (tree_of node.now) }
{
    match &node.form {
        Form::Name(name) => to_label(lookup.binding(function, *name)),
        Form::Dyad(f, _, b) => {
            if is_choice(*f) {
                chosen(lookup, function, b.get())
            } else {
                Flow::Any
            }
        }
        Form::Numbers(numbers) => number_flow(numbers.as_slice()),
        _ => Flow::Any,
    }
}

/// Where a line of this function with this statement leads.
#[tactic(auto, using(crate::proofs::Flows::quiet_next))]
pub fn flow_of(lookup: &Lookup, function: usize, statement: &Statement) -> Flow
    ensures { result ≡ flow_of (binding_at lookup.now function) (action_of statement.now) }
{
    match statement {
        Statement::Empty => Flow::Next,
        Statement::Quiet(_) => Flow::Next,
        Statement::Display(_) => Flow::Next,
        Statement::Branch(_, node) => branch_flow(lookup, function, node),
    }
}
