//! What a function says of names: its own, its local ones, and each name in its lines.
//! It must not know which names are refused.

ghost use Rattle.std.specs.Prelude.{◌≡◌, ◌++◌, ◌∷◌, [], map, flat_map, OnOk, IfOk};
ghost use Rattle.std.specs.Option.{option_to_list};
ghost use Rattle.aplc_syntax.specs.declared.tree.Function.{Function};
ghost use Rattle.aplc_syntax.specs.PlainTrees.{tree_of, trees_in, argument_in};
ghost use Rattle.aplc_names.specs.Outlines.{tree_mentions, argument_mentions, trees_mentions, statement_mentions, label_mention, line_mentions, lines_mentions, header_names, local_names_of, labels_in, is_bare, outline, mention};

use crate::table::Table;
use aplc_lex::List;
use aplc_syntax::{Form, Function, Line, NameId, Named, Node, Statement};
use sqlite_items::Boxed;
use std::alloc::{AllocError, Global};

/// A name in the lines of a function, and whether it is assigned there.
#[derive(Clone, Copy, Debug, PartialEq, Eq)]
pub struct Mention {
    pub name: NameId,
    pub place: u64,
    pub assigned: bool,
}

/// What a function says of names.
#[derive(Drop)]
pub struct Outline {
    pub name: Named,
    /// The function has neither arguments nor a result.
    pub bare: bool,
    /// The names of the header but the function's own, and the labels.
    pub locals: Table,
    pub labels: Table,
    pub mentions: List<Mention>,
}

fn put(out: &mut Vec<Mention>, name: NameId, place: u64, assigned: bool) -> Result<(), AllocError>
    ensures { OnOk result (out.new.items ≡ out.old.items ++ mention name place assigned ∷ []) }
{
    out.push(Mention {
        name,
        place,
        assigned,
    })?;
    Ok(())
}

/// The names in a node and in all nodes in it.
#[cycle(nodes)]
#[tactic(auto, using(aplc_syntax::proofs::PlainForms::tree_node, aplc_syntax::proofs::PlainForms::plain_forms))]
fn put_node(out: &mut Vec<Mention>, node: &Node) -> Result<(), AllocError>
    ensures { OnOk result (out.new.items ≡ out.old.items ++ tree_mentions (tree_of node.now)) }
{
    match &node.form {
        Form::Numbers(_) | Form::Text(_) | Form::TextInput | Form::NumsInput => Ok(()),
        Form::Name(name) => put(out, *name, node.place, false),
        Form::Mono(_, a) | Form::Show(a) => put_node(out, a.get()),
        Form::Dyad(_, a, b) => {
            put_node(out, a.get())?;
            put_node(out, b.get())
        }
        Form::Index(a, entries) => {
            put_node(out, a.get())?;
            put_nodes(out, entries.as_slice())
        }
        Form::Assign(name, a) => {
            put(out, *name, node.place, true)?;
            put_node(out, a.get())
        }
        Form::AssignAt(name, entries, a) => {
            put(out, *name, node.place, true)?;
            put_nodes(out, entries.as_slice())?;
            put_node(out, a.get())
        }
        Form::Call(name, a, b) => {
            put(out, *name, node.place, false)?;
            put_optional(out, a)?;
            put_optional(out, b)
        }
    }
}

/// The names in an argument, if there is one.
#[cycle(nodes)]
fn put_optional(out: &mut Vec<Mention>, node: &Option<Boxed<Node>>) -> Result<(), AllocError>
    ensures { OnOk result (out.new.items ≡ out.old.items ++ argument_mentions (argument_in node.now)) }
{
    match node {
        None => Ok(()),
        Some(a) => put_node(out, a.get()),
    }
}

/// The names in the entries of a list.
#[cycle(nodes)]
fn put_nodes(out: &mut Vec<Mention>, entries: &[Option<Node>]) -> Result<(), AllocError>
    ensures { OnOk result (out.new.items ≡ out.old.items ++ trees_mentions (trees_in entries.now)) }
{
    for entry in entries {
        match entry {
            None => {}
            Some(node) => put_node(out, node)?,
        }
    }
    Ok(())
}

/// Puts the names in a statement behind those that are there, in the order in which they stand.
pub fn put_statement(out: &mut Vec<Mention>, statement: &Statement) -> Result<(), AllocError>
    ensures { OnOk result (out.new.items ≡ out.old.items ++ statement_mentions statement.now) }
{
    match statement {
        Statement::Empty => Ok(()),
        Statement::Quiet(node) | Statement::Display(node) | Statement::Branch(_, node) => {
            put_node(out, node)
        }
    }
}

fn put_label(out: &mut Vec<Mention>, label: Option<Named>) -> Result<(), AllocError>
    ensures { OnOk result (out.new.items ≡ out.old.items ++ label_mention label) }
{
    match label {
        None => Ok(()),
        Some(l) => put(out, l.name, l.place, false),
    }
}

/// The names in lines.
fn mentions(alloc: Global, lines: &[Line]) -> Result<Vec<Mention>, AllocError>
    ensures { IfOk result (λ v. v.items ≡ lines_mentions lines.now) }
{
    let mut out = Vec::new(alloc);
    for line in lines {
        put_label(&mut out, line.label)?;
        put_statement(&mut out, &line.statement)?;
    }
    Ok(out)
}

fn put_named(out: &mut Vec<Named>, named: Option<Named>) -> Result<(), AllocError>
    ensures { OnOk result (out.new.items ≡ out.old.items ++ option_to_list named) }
{
    if let Some(x) = named {
        out.push(x)?;
    }
    Ok(())
}

fn put_labels(out: &mut Vec<Named>, lines: &[Line]) -> Result<(), AllocError>
    ensures { OnOk result (out.new.items ≡ out.old.items ++ labels_in lines.now) }
{
    for line in lines {
        put_named(out, line.label)?;
    }
    Ok(())
}

fn local_names(alloc: Global, function: &Function) -> Result<Vec<Named>, AllocError>
    ensures { IfOk result (λ v. v.items ≡ local_names_of function.now) }
{
    let mut out = Vec::new(alloc);
    put_named(&mut out, function.result)?;
    put_named(&mut out, function.left)?;
    put_named(&mut out, function.right)?;
    out.extend_from_slice(function.locals.as_slice())?;
    put_labels(&mut out, function.lines.as_slice())?;
    Ok(out)
}

/// A function has neither arguments nor a result.
pub fn is_bare(function: &Function) -> bool
    ensures { result ≡ is_bare function.now }
{
    function.result.is_none() && function.left.is_none() && function.right.is_none()
}

/// What a function says of names.
fn outline_of(alloc: Global, function: &Function) -> Result<Outline, AllocError>
    ensures { IfOk result (λ o. o ≡ outline function.now) }
{
    let lines = function.lines.as_slice();
    let mut labels = Vec::new(alloc);
    put_labels(&mut labels, lines)?;
    Ok(Outline {
        name: function.name,
        bare: is_bare(function),
        locals: Table::new(alloc, local_names(alloc, function)?)?,
        labels: Table::new(alloc, labels)?,
        mentions: List::from_vec(mentions(alloc, lines)?),
    })
}

/// What functions say of names.
pub fn outlines_of(alloc: Global, functions: &[Function]) -> Result<Vec<Outline>, AllocError>
    ensures { IfOk result (λ v. v.items ≡ map outline functions.now) }
{
    let mut out = Vec::new(alloc);
    for function in functions {
        out.push(outline_of(alloc, function)?)?;
    }
    Ok(out)
}
