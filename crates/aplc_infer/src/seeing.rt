//! The evaluation of a line over facts: what it asks and what is refused.
//! It must not change the facts that it reads.

ghost use Rattle.std.specs.Prelude.{◌≡◌, ◌++◌, ◌∷◌, [], ℕ, Option, Some, None, OnOk, IfOk, unwrap_or};
ghost use Rattle.aplc_syntax.specs.PlainTrees.{tree_of, trees_in, argument_in};
ghost use Rattle.aplc_names.specs.PlainPrograms.{action_of, quiet_of};
ghost use Rattle.aplc_infer.specs.declared.cell.Cell.TheVariants as cell;
ghost use Rattle.aplc_infer.specs.Facts.{is_unset, is_mixed};
ghost use Rattle.aplc_infer.specs.Rules.{fact_of, any_fact, literal_of, monadic_fact, dyadic_fact};
ghost use Rattle.aplc_infer.specs.Seeing.{declarations, mixed_break, denied_by, denied_read, settles, ruled, name_fact, assign_declared, assign_global, assign_to, change_name, function_of, call_fact, passed, see, see_all, see_argument, see_statement};
ghost use Rattle.aplc_infer.specs.Lookups.{binding_at, context_at};
ghost use Rattle.aplc_infer.specs.Tables.{family_of};

use crate::cell::{Binding, Cell};
use crate::fact::{Inferred, is_mixed_kind};
use crate::functions::{dyadic_fact, monadic_fact};
use crate::indexes::{branch_fact, change_fact, index_fact, left_fact};
use crate::literals::{input_numbers_fact, input_text_fact, label_fact, numbers_fact, text_fact};
use crate::lookup::Lookup;
use crate::rule_break::RuleBreak;
use crate::tables::Tables;
use crate::walk::Walk;
use aplc_syntax::{Form, NameId, Node, NodeId, Prim, Statement};
use sqlite_items::Boxed;
use std::alloc::{AllocError, Global};

// ---- Steps

/// A node has this fact.
fn settle(walk: &mut Walk, id: NodeId, fact: Inferred) -> Result<Inferred, AllocError>
    ensures fact { IfOk result (λ x. x ≡ fact) }
    ensures walk { OnOk result (walk.new ≡ (settles id.0 fact walk.old).progress) }
{
    walk.ask(Cell::Node(id.0), &fact)?;
    Ok(fact)
}

/// The refusal that comes of a rule, if one does, at this place.
fn conclude(
    walk: &mut Walk,
    place: u64,
    ruled: Result<Inferred, RuleBreak>,
) -> Result<Inferred, AllocError>
    ensures fact { IfOk result (λ x. x ≡ fact_of ruled) }
    ensures walk { OnOk result (walk.new ≡ denied_by place ruled walk.old) }
{
    match ruled {
        Ok(fact) => Ok(fact),
        Err(why) => {
            walk.deny(place, why)?;
            Ok(Inferred::mixed())
        }
    }
}

/// A node to which a rule is applied.
fn apply_rule(
    walk: &mut Walk,
    id: NodeId,
    place: u64,
    result_of_rule: Result<Inferred, RuleBreak>,
) -> Result<Inferred, AllocError>
    ensures fact { IfOk result (λ x. x ≡ (ruled id.0 place result_of_rule walk.old).fact) }
    ensures walk { OnOk result (walk.new ≡ (ruled id.0 place result_of_rule walk.old).progress) }
{
    let fact = conclude(walk, place, result_of_rule)?;
    settle(walk, id, fact)
}

/// A node that applies a function to the node at the right, which has fact `y`.
fn apply_monadic(
    lookup: &Lookup,
    walk: &mut Walk,
    node: &Node,
    f: Prim,
    right: &Node,
    y: &Inferred,
) -> Result<Inferred, AllocError>
    ensures fact { IfOk result (λ x. x ≡ (ruled node.now.id.0 node.now.place (monadic_fact lookup.now.origin f (literal_of (tree_of right.now)) y.now) walk.old).fact) }
    ensures walk { OnOk result (walk.new ≡ (ruled node.now.id.0 node.now.place (monadic_fact lookup.now.origin f (literal_of (tree_of right.now)) y.now) walk.old).progress) }
{
    let ruled = monadic_fact(lookup.origin(), f, right, y);
    apply_rule(walk, node.id, node.place, ruled)
}

/// A node that applies a function to two nodes of these facts, of which one stands at the left.
fn apply_dyadic(
    lookup: &Lookup,
    walk: &mut Walk,
    node: &Node,
    f: Prim,
    left: &Node,
    x: &Inferred,
    y: &Inferred,
) -> Result<Inferred, AllocError>
    ensures fact { IfOk result (λ z. z ≡ (ruled node.now.id.0 node.now.place (dyadic_fact lookup.now.origin f (literal_of (tree_of left.now)) x.now y.now) walk.old).fact) }
    ensures walk { OnOk result (walk.new ≡ (ruled node.now.id.0 node.now.place (dyadic_fact lookup.now.origin f (literal_of (tree_of left.now)) x.now y.now) walk.old).progress) }
{
    let ruled = dyadic_fact(lookup.origin(), f, left, x, y);
    apply_rule(walk, node.id, node.place, ruled)
}

fn mixed_break(fact: &Inferred) -> RuleBreak
    ensures { result ≡ mixed_break fact.now }
{
    match fact {
        Inferred::Unset => RuleBreak::Rank,
        Inferred::Of(kind, _) => {
            if is_mixed_kind(*kind) {
                RuleBreak::Kind
            } else {
                RuleBreak::Rank
            }
        }
    }
}

/// What is read is refused where it is mixed.
fn note_read(walk: &mut Walk, place: u64, fact: &Inferred) -> Result<(), AllocError>
    ensures { OnOk result (walk.new ≡ denied_read place fact.now walk.old) }
{
    if fact.is_mixed() {
        walk.deny(place, mixed_break(fact))?;
    }
    Ok(())
}

// ---- Names

/// What is known of the value of a global name.
fn global_fact(tables: &Tables, lookup: &Lookup, name: NameId) -> Inferred
    ensures { result ≡ unwrap_or (declarations lookup.now.vars name.0) (family_of tables.now (cell.Global name.0)) }
{
    match lookup.declared(name) {
        None => tables.global(name),
        Some(fact) => fact,
    }
}

/// What is known of the value of a name where it is read.
fn name_fact(
    tables: &Tables,
    lookup: &Lookup,
    function: usize,
    walk: &Walk,
    name: NameId,
) -> Inferred
    ensures { result ≡ name_fact (context_at lookup.now function) (family_of tables.now) (binding_at lookup.now function name.0) name.0 walk.now.names }
{
    match lookup.binding(function, name) {
        Binding::Local(number) => walk.local(number),
        Binding::Label(_) => label_fact(),
        Binding::Function(_) => Inferred::Unset,
        Binding::Global => global_fact(tables, lookup, name),
    }
}

/// A node that gives a declared name a value, which fits or not.
fn assign_declared(
    walk: &mut Walk,
    node: &Node,
    fits: bool,
    fact: Inferred,
) -> Result<Inferred, AllocError>
    ensures fact { IfOk result (λ x. x ≡ (assign_declared fits node.now.id.0 node.now.place fact walk.old).fact) }
    ensures walk { OnOk result (walk.new ≡ (assign_declared fits node.now.id.0 node.now.place fact walk.old).progress) }
{
    if fits {
        settle(walk, node.id, fact)
    } else {
        apply_rule(walk, node.id, node.place, Err(RuleBreak::Declared))
    }
}

/// A node of this fact gives a global name another one.
fn assign_global(
    lookup: &Lookup,
    walk: &mut Walk,
    node: &Node,
    name: NameId,
    new: &Inferred,
    fact: Inferred,
) -> Result<Inferred, AllocError>
    ensures fact { IfOk result (λ x. x ≡ (assign_global (declarations lookup.now.vars name.0) node.now.id.0 node.now.place name.0 new.now fact walk.old).fact) }
    ensures walk { OnOk result (walk.new ≡ (assign_global (declarations lookup.now.vars name.0) node.now.id.0 node.now.place name.0 new.now fact walk.old).progress) }
{
    match lookup.declared(name) {
        None => {
            walk.ask(Cell::Global(name.0), new)?;
            settle(walk, node.id, fact)
        }
        Some(declared) => assign_declared(walk, node, new.is_below(&declared), fact),
    }
}

/// A node of this fact gives a name another one.
fn assign(
    lookup: &Lookup,
    function: usize,
    walk: &mut Walk,
    node: &Node,
    name: NameId,
    new: &Inferred,
    fact: Inferred,
) -> Result<Inferred, AllocError>
    ensures fact { IfOk result (λ x. x ≡ (assign_to (context_at lookup.now function) (binding_at lookup.now function name.0) node.now.id.0 node.now.place name.0 new.now fact walk.old).fact) }
    ensures walk { OnOk result (walk.new ≡ (assign_to (context_at lookup.now function) (binding_at lookup.now function name.0) node.now.id.0 node.now.place name.0 new.now fact walk.old).progress) }
{
    match lookup.binding(function, name) {
        Binding::Local(number) => {
            walk.set(number, new.copy())?;
            settle(walk, node.id, fact)
        }
        Binding::Label(_) => assign_global(lookup, walk, node, name, new, fact),
        Binding::Function(_) => assign_global(lookup, walk, node, name, new, fact),
        Binding::Global => assign_global(lookup, walk, node, name, new, fact),
    }
}

/// A node that changes elements of a name's value, which has fact `old`.
fn change_name(
    lookup: &Lookup,
    function: usize,
    walk: &mut Walk,
    node: &Node,
    name: NameId,
    old: &Inferred,
    entries: &[Option<Inferred>],
    value: &Inferred,
) -> Result<Inferred, AllocError>
    ensures fact { IfOk result (λ x. x ≡ (change_name (context_at lookup.now function) node.now.id.0 node.now.place name.0 old.now entries.now value.now walk.old).fact) }
    ensures walk { OnOk result (walk.new ≡ (change_name (context_at lookup.now function) node.now.id.0 node.now.place name.0 old.now entries.now value.now walk.old).progress) }
{
    note_read(walk, node.place, old)?;
    let fact = conclude(walk, node.place, change_fact(old, entries, value))?;
    let left = left_fact(old, value);
    assign(lookup, function, walk, node, name, &left, fact)
}

// ---- Calls

fn function_of(binding: Binding) -> usize
    ensures { result ≡ function_of binding }
{
    match binding {
        Binding::Function(number) => number,
        _ => 0,
    }
}

fn is_unset_argument(fact: &Option<Inferred>) -> bool
    ensures { result ≡ any_fact is_unset (fact.now ∷ []) }
{
    match fact {
        None => false,
        Some(x) => x.is_unset(),
    }
}

fn is_mixed_argument(fact: &Option<Inferred>) -> bool
    ensures { result ≡ any_fact is_mixed (fact.now ∷ []) }
{
    match fact {
        None => false,
        Some(x) => x.is_mixed(),
    }
}

fn is_one_unset(left: &Option<Inferred>, right: &Option<Inferred>) -> bool
    ensures { result ≡ any_fact is_unset (left.now ∷ right.now ∷ []) }
{
    match left {
        None => is_unset_argument(right),
        Some(x) => x.is_unset() || is_unset_argument(right),
    }
}

fn is_one_mixed(left: &Option<Inferred>, right: &Option<Inferred>) -> bool
    ensures { result ≡ any_fact is_mixed (left.now ∷ right.now ∷ []) }
{
    match left {
        None => is_mixed_argument(right),
        Some(x) => x.is_mixed() || is_mixed_argument(right),
    }
}

/// What the node of a call has, where the function gives this.
fn call_fact(left: &Option<Inferred>, right: &Option<Inferred>, given: Inferred) -> Inferred
    ensures { result ≡ call_fact left.now right.now given }
{
    if is_one_unset(left, right) {
        Inferred::Unset
    } else if is_one_mixed(left, right) {
        Inferred::mixed()
    } else {
        given
    }
}

/// The parameters of a function are given the facts of arguments.
fn pass(
    walk: &mut Walk,
    function: usize,
    left: &Option<Inferred>,
    right: &Option<Inferred>,
) -> Result<(), AllocError>
    ensures { OnOk result (walk.new ≡ passed function left.now right.now walk.old) }
{
    walk.ask_for(Cell::Left(function), left)?;
    walk.ask_for(Cell::Right(function), right)
}

/// The node of a call whose value is used.
fn call(
    tables: &Tables,
    walk: &mut Walk,
    node: &Node,
    called: usize,
    left: &Option<Inferred>,
    right: &Option<Inferred>,
) -> Result<Inferred, AllocError>
    ensures fact { IfOk result (λ x. x ≡ call_fact left.now right.now (family_of tables.now (cell.Answer called))) }
    ensures walk { OnOk result (walk.new ≡ (settles node.now.id.0 (call_fact left.now right.now (family_of tables.now (cell.Answer called))) (denied_read node.now.place (call_fact left.now right.now (family_of tables.now (cell.Answer called))) (passed called left.now right.now walk.old))).progress) }
{
    let fact = call_fact(left, right, tables.answer(called));
    pass(walk, called, left, right)?;
    note_read(walk, node.place, &fact)?;
    settle(walk, node.id, fact)
}

// ---- Trees

/// The evaluation of a node, from right to left.
#[cycle(trees)]
#[tactic(auto, using(aplc_syntax::proofs::PlainForms::tree_node, aplc_syntax::proofs::PlainForms::plain_forms))]
pub fn see(
    alloc: Global,
    tables: &Tables,
    lookup: &Lookup,
    function: usize,
    node: &Node,
    walk: &mut Walk,
) -> Result<Inferred, AllocError>
    ensures fact { IfOk result (λ x. x ≡ (see (context_at lookup.now function) (family_of tables.now) (tree_of node.now) walk.old).fact) }
    ensures walk { OnOk result (walk.new ≡ (see (context_at lookup.now function) (family_of tables.now) (tree_of node.now) walk.old).progress) }
{
    match &node.form {
        Form::Numbers(numbers) => settle(walk, node.id, numbers_fact(numbers.as_slice())),
        Form::Text(characters) => settle(walk, node.id, text_fact(characters.as_slice())),
        Form::TextInput => settle(walk, node.id, input_text_fact()),
        Form::NumsInput => settle(walk, node.id, input_numbers_fact()),
        Form::Name(name) => {
            let x = name_fact(tables, lookup, function, walk, *name);
            note_read(walk, node.place, &x)?;
            settle(walk, node.id, x)
        }
        Form::Mono(f, b) => {
            let y = see(alloc, tables, lookup, function, b.get(), walk)?;
            apply_monadic(lookup, walk, node, *f, b.get(), &y)
        }
        Form::Dyad(f, a, b) => {
            let y = see(alloc, tables, lookup, function, b.get(), walk)?;
            let x = see(alloc, tables, lookup, function, a.get(), walk)?;
            apply_dyadic(lookup, walk, node, *f, a.get(), &x, &y)
        }
        Form::Index(a, entries) => {
            let list = entries.as_slice();
            let fs = see_entries(alloc, tables, lookup, function, list, walk)?;
            let x = see(alloc, tables, lookup, function, a.get(), walk)?;
            let ruled = index_fact(&x, fs.as_slice());
            apply_rule(walk, node.id, node.place, ruled)
        }
        Form::Assign(name, a) => {
            let y = see(alloc, tables, lookup, function, a.get(), walk)?;
            let x = y.settled();
            assign(lookup, function, walk, node, *name, &x, x.copy())
        }
        Form::AssignAt(name, entries, a) => {
            let y = see(alloc, tables, lookup, function, a.get(), walk)?;
            let list = entries.as_slice();
            let fs = see_entries(alloc, tables, lookup, function, list, walk)?;
            let old = name_fact(tables, lookup, function, walk, *name);
            change_name(lookup, function, walk, node, *name, &old, fs.as_slice(), &y)
        }
        Form::Show(a) => {
            let y = see(alloc, tables, lookup, function, a.get(), walk)?;
            settle(walk, node.id, y.settled())
        }
        Form::Call(name, a, b) => {
            let y = see_argument(alloc, tables, lookup, function, b, walk)?;
            let x = see_argument(alloc, tables, lookup, function, a, walk)?;
            let called = function_of(lookup.binding(function, *name));
            call(tables, walk, node, called, &x, &y)
        }
    }
}

/// The entries of an index list, from the last to the first.
#[cycle(trees)]
fn see_entries(
    alloc: Global,
    tables: &Tables,
    lookup: &Lookup,
    function: usize,
    entries: &[Option<Node>],
    walk: &mut Walk,
) -> Result<Vec<Option<Inferred>>, AllocError>
    ensures facts { IfOk result (λ v. v.items ≡ (see_all (context_at lookup.now function) (family_of tables.now) (trees_in entries.now) walk.old).facts) }
    ensures walk { OnOk result (walk.new ≡ (see_all (context_at lookup.now function) (family_of tables.now) (trees_in entries.now) walk.old).progress) }
{
    let mut facts = Vec::new(alloc);
    let mut left = entries.len();
    while left > 0 {
        left -= 1;
        match &entries[left] {
            None => facts.push(None)?,
            Some(node) => {
                let fact = see(alloc, tables, lookup, function, node, walk)?;
                facts.push(Some(fact))?
            }
        }
    }
    facts.reverse();
    Ok(facts)
}

/// An argument of a call, if it is there.
#[cycle(trees)]
fn see_argument(
    alloc: Global,
    tables: &Tables,
    lookup: &Lookup,
    function: usize,
    argument: &Option<Boxed<Node>>,
    walk: &mut Walk,
) -> Result<Option<Inferred>, AllocError>
    ensures fact { IfOk result (λ x. x ≡ (see_argument (context_at lookup.now function) (family_of tables.now) (argument_in argument.now) walk.old).fact) }
    ensures walk { OnOk result (walk.new ≡ (see_argument (context_at lookup.now function) (family_of tables.now) (argument_in argument.now) walk.old).progress) }
{
    match argument {
        None => Ok(None),
        Some(node) => {
            let x = see(alloc, tables, lookup, function, node.get(), walk)?;
            Ok(Some(x))
        }
    }
}

// ---- Statements

/// A statement that displays nothing: a call of a function without a result, or a tree.
#[tactic(auto, using(aplc_syntax::proofs::PlainForms::tree_node, aplc_syntax::proofs::PlainForms::plain_forms))]
fn see_quiet(
    alloc: Global,
    tables: &Tables,
    lookup: &Lookup,
    function: usize,
    node: &Node,
    walk: &mut Walk,
) -> Result<(), AllocError>
    ensures { OnOk result (walk.new ≡ see_statement (context_at lookup.now function) (family_of tables.now) (quiet_of (tree_of node.now)) walk.old) }
{
    match &node.form {
        Form::Call(name, a, b) => {
            let y = see_argument(alloc, tables, lookup, function, b, walk)?;
            let x = see_argument(alloc, tables, lookup, function, a, walk)?;
            let called = function_of(lookup.binding(function, *name));
            pass(walk, called, &x, &y)?;
            walk.ask(Cell::Node(node.id.0), &call_fact(&x, &y, Inferred::Unset))
        }
        _ => {
            see(alloc, tables, lookup, function, node, walk)?;
            Ok(())
        }
    }
}

/// The evaluation of a statement.
pub fn see_statement(
    alloc: Global,
    tables: &Tables,
    lookup: &Lookup,
    function: usize,
    statement: &Statement,
    walk: &mut Walk,
) -> Result<(), AllocError>
    ensures { OnOk result (walk.new ≡ see_statement (context_at lookup.now function) (family_of tables.now) (action_of statement.now) walk.old) }
{
    match statement {
        Statement::Empty => Ok(()),
        Statement::Quiet(node) => see_quiet(alloc, tables, lookup, function, node, walk),
        Statement::Display(node) => {
            see(alloc, tables, lookup, function, node, walk)?;
            Ok(())
        }
        Statement::Branch(place, node) => {
            let y = see(alloc, tables, lookup, function, node, walk)?;
            conclude(walk, *place, branch_fact(&y))?;
            Ok(())
        }
    }
}
