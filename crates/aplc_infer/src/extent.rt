//! How many places the facts of a program's nodes take: one for each number up to the greatest.
//! It must not know what is kept there.

use aplc_syntax::{Form, Line, Node, Program, Statement};
use sqlite_items::Boxed;

fn greater(m: usize, n: usize) -> usize {
    if m < n { n } else { m }
}

#[cycle(nodes)]
fn of_node(node: &Node) -> usize {
    greater((node.id.0 as usize).saturating_add(1), of_form(&node.form))
}

#[cycle(nodes)]
fn of_form(form: &Form) -> usize {
    match form {
        Form::Mono(_, b) | Form::Assign(_, b) | Form::Show(b) => of_node(b.get()),
        Form::Dyad(_, a, b) => greater(of_node(a.get()), of_node(b.get())),
        Form::Index(a, entries) => greater(of_node(a.get()), of_entries(entries.as_slice())),
        Form::AssignAt(_, entries, b) => greater(of_node(b.get()), of_entries(entries.as_slice())),
        Form::Call(_, a, b) => greater(of_argument(a), of_argument(b)),
        _ => 0,
    }
}

#[cycle(nodes)]
fn of_argument(node: &Option<Boxed<Node>>) -> usize {
    match node {
        None => 0,
        Some(node) => of_node(node.get()),
    }
}

#[cycle(nodes)]
fn of_entries(entries: &[Option<Node>]) -> usize {
    let mut most = 0;
    for entry in entries {
        match entry {
            None => {}
            Some(node) => most = greater(most, of_node(node)),
        }
    }
    most
}

fn of_lines(lines: &[Line]) -> usize {
    let mut most = 0;
    for line in lines {
        match &line.statement {
            Statement::Empty => {}
            Statement::Quiet(node) | Statement::Display(node) | Statement::Branch(_, node) => {
                most = greater(most, of_node(node));
            }
        }
    }
    most
}

/// One more than the greatest number of a node.
pub fn node_places(program: &Program) -> usize {
    let mut most = 0;
    for function in program.functions.as_slice() {
        most = greater(most, of_lines(function.lines.as_slice()));
    }
    most
}
