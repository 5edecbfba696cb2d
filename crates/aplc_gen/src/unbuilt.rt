//! What is not built yet: the first place of it in a program.
//! It must not know what is made of the rest.

ghost use Rattle.std.specs.Prelude.{◌≡◌, option_copied};
ghost use Rattle.aplc_syntax.specs.PlainTrees.{tree_of, tree_in, trees_in, argument_in};
ghost use Rattle.aplc_gen.specs.Built.{is_sign, is_checked};
ghost use Rattle.aplc_gen.specs.Unbuilt.{unless, is_scalar, unbuilt, all_unbuilt, argument_unbuilt, statement_unbuilt, lines_unbuilt, smaller, least, first_place};

use aplc_infer::{Fact, Facts};
use aplc_scalar::ScalarFn;
use aplc_syntax::{Form, Line, Node, Prim, Program, Statement};
use sqlite_items::Boxed;

fn smaller(a: Option<u64>, b: Option<u64>) -> Option<u64>
    ensures { result ≡ smaller a b }
{
    match (a, b) {
        (None, b) => b,
        (a, None) => a,
        (Some(a), Some(b)) => Some(if a <= b { a } else { b }),
    }
}

fn unless(built: bool, place: u64) -> Option<u64>
    ensures { result ≡ least (unless built place) }
{
    if built { None } else { Some(place) }
}

fn is_sign(function: Prim) -> bool
    ensures { result ≡ is_sign function }
{
    matches!(
        function,
        Prim::Scalar(ScalarFn::Add) | Prim::Scalar(ScalarFn::Sub)
    )
}

fn is_checked(function: Prim) -> bool
    ensures { result ≡ is_checked function }
{
    matches!(
        function,
        Prim::Scalar(ScalarFn::Add) | Prim::Scalar(ScalarFn::Sub) | Prim::Scalar(ScalarFn::Mul)
    )
}

/// Whether a node with this fact is never evaluated, or has rank 0.
fn is_scalar(fact: Option<&Fact>) -> bool
    ensures { result ≡ is_scalar (option_copied fact.entry) }
{
    match fact {
        None => true,
        Some(fact) => fact.rank == Some(0),
    }
}

/// The first place in a node and in all nodes in it.
#[cycle(nodes)]
#[tactic(auto, using(aplc_syntax::proofs::PlainForms::tree_node, crate::proofs::Places::unbuilt_forms))]
fn in_node(facts: &Facts, node: &Node) -> Option<u64>
    ensures { result ≡ least (unbuilt facts.now (tree_of node.now)) }
{
    let place = node.place;
    match &node.form {
        Form::Numbers(numbers) => unless(numbers.as_slice().len() == 1, place),
        Form::Name(_) => unless(is_scalar(facts.of(node.id)), place),
        Form::Text(_) | Form::TextInput | Form::NumsInput => Some(place),
        Form::Mono(function, a) => {
            smaller(unless(is_sign(*function), place), in_node(facts, a.get()))
        }
        Form::Dyad(function, a, b) => {
            let left = in_node(facts, a.get());
            let right = in_node(facts, b.get());
            smaller(unless(is_checked(*function), place), smaller(left, right))
        }
        Form::Assign(_, a) => in_node(facts, a.get()),
        Form::Show(a) => smaller(Some(place), in_node(facts, a.get())),
        Form::Index(a, entries) => {
            let base = in_node(facts, a.get());
            smaller(
                Some(place),
                smaller(base, in_entries(facts, entries.as_slice())),
            )
        }
        Form::AssignAt(_, entries, a) => {
            let indices = in_entries(facts, entries.as_slice());
            smaller(Some(place), smaller(indices, in_node(facts, a.get())))
        }
        Form::Call(_, a, b) => {
            let left = in_optional(facts, a);
            smaller(left, in_optional(facts, b))
        }
    }
}

#[cycle(nodes)]
fn in_optional(facts: &Facts, node: &Option<Boxed<Node>>) -> Option<u64>
    ensures { result ≡ least (argument_unbuilt facts.now (argument_in node.now)) }
{
    match node {
        None => None,
        Some(a) => in_node(facts, a.get()),
    }
}

#[cycle(nodes)]
fn in_entries(facts: &Facts, entries: &[Option<Node>]) -> Option<u64>
    ensures { result ≡ least (all_unbuilt facts.now (trees_in entries.now)) }
{
    let mut found = None;
    for entry in entries {
        match entry {
            None => {}
            Some(node) => found = smaller(found, in_node(facts, node)),
        }
    }
    found
}

fn in_statement(facts: &Facts, statement: &Statement) -> Option<u64>
    ensures { result ≡ least (statement_unbuilt facts.now statement.now) }
{
    match statement {
        Statement::Empty => None,
        Statement::Quiet(node) | Statement::Display(node) | Statement::Branch(_, node) => in_node(
            facts, node,
        ),
    }
}

fn in_lines(facts: &Facts, lines: &[Line]) -> Option<u64>
    ensures { result ≡ least (lines_unbuilt facts.now lines.now) }
{
    let mut found = None;
    for line in lines {
        found = smaller(found, in_statement(facts, &line.statement));
    }
    found
}

/// The least place of a node that is not built: of all but single numbers, reads of scalars, assignments to names,
/// calls, monadic `+` and `-`, dyadic `+`, `-` and `×`.
pub fn first_unbuilt(program: &Program, facts: &Facts) -> Option<u64>
    ensures { result ≡ first_place program.now facts.now }
{
    let mut found = None;
    let functions = program.functions.as_slice();
    for function in functions {
        found = smaller(found, in_lines(facts, function.lines.as_slice()));
    }
    found
}
