//! Facts of small programs, node by node, and programs that the typing rules refuse.
//! They must not take an expected answer from `infer`.

use crate::drawn_cases::DRAWN;
use crate::fact_cases::{Case, WRITTEN};
use crate::refused_cases::REFUSED;
use aplc_infer::{Fact, Facts, infer};
use aplc_lex::tokens;
use aplc_names::{Bound, Stop, resolve};
use aplc_syntax::{Form, Line, Node, NodeId, Program, Statement, parse};
use sqlite_items::Boxed;
use std::alloc::Global;
use std::process::Abort;
use std::string::String;
use std::test::Fail;

/// A node's place, and its number.
type Placed = (u64, NodeId);

fn bound_of(rt: &impl Abort, alloc: Global, source: &str) -> Result<Bound, Fail> {
    let bytes = source.as_bytes();
    assert!(rt; bytes.len() <= 262_144);
    let found = tokens(alloc, bytes)?;
    let program = parse(alloc, bytes, &found)?;
    Ok(resolve(alloc, program)?)
}

// ---- The nodes of a program

#[cycle(nodes)]
fn put_node(found: &mut Vec<Placed>, node: &Node) -> Result<(), Fail> {
    found.push((node.place, node.id))?;
    put_inner(found, &node.form)
}

#[cycle(nodes)]
fn put_inner(found: &mut Vec<Placed>, form: &Form) -> Result<(), Fail> {
    match form {
        Form::Mono(_, b) | Form::Assign(_, b) | Form::Show(b) => put_node(found, b.get()),
        Form::Dyad(_, a, b) => {
            put_node(found, a.get())?;
            put_node(found, b.get())
        }
        Form::Index(a, entries) => {
            put_node(found, a.get())?;
            put_entries(found, entries.as_slice())
        }
        Form::AssignAt(_, entries, b) => {
            put_entries(found, entries.as_slice())?;
            put_node(found, b.get())
        }
        Form::Call(_, a, b) => {
            put_optional(found, a)?;
            put_optional(found, b)
        }
        _ => Ok(()),
    }
}

#[cycle(nodes)]
fn put_optional(found: &mut Vec<Placed>, node: &Option<Boxed<Node>>) -> Result<(), Fail> {
    match node {
        None => Ok(()),
        Some(node) => put_node(found, node.get()),
    }
}

#[cycle(nodes)]
fn put_entries(found: &mut Vec<Placed>, entries: &[Option<Node>]) -> Result<(), Fail> {
    for entry in entries {
        match entry {
            None => {}
            Some(node) => put_node(found, node)?,
        }
    }
    Ok(())
}

fn put_lines(found: &mut Vec<Placed>, lines: &[Line]) -> Result<(), Fail> {
    for line in lines {
        match &line.statement {
            Statement::Empty => {}
            Statement::Quiet(node) | Statement::Display(node) | Statement::Branch(_, node) => {
                put_node(found, node)?
            }
        }
    }
    Ok(())
}

fn nodes_of(alloc: Global, program: &Program) -> Result<Vec<Placed>, Fail> {
    let mut found = Vec::new(alloc);
    for function in program.functions.as_slice() {
        put_lines(&mut found, function.lines.as_slice())?;
    }
    Ok(found)
}

fn node_at(nodes: &[Placed], place: u64) -> Option<NodeId> {
    for (at, node) in nodes {
        if *at == place {
            return Some(*node);
        }
    }
    None
}

// ---- What is known of a node, as text

fn put_lengths(alloc: Global, out: &mut String, lengths: &[Option<i64>]) -> Result<(), Fail> {
    for (axis, length) in lengths.iter().enumerate() {
        if axis > 0 {
            out.push_str(" ")?;
        }
        match length {
            None => out.push_str("?")?,
            Some(length) => out.push_str(format!(in alloc; "{length}")?.as_str())?,
        }
    }
    Ok(())
}

fn known_text(alloc: Global, fact: &Fact) -> Result<String, Fail> {
    let mut out = match fact.rank {
        None => format!(in alloc; "{:?} mixed [", fact.kind)?,
        Some(rank) => format!(in alloc; "{:?} {rank} [", fact.kind)?,
    };
    put_lengths(alloc, &mut out, fact.lengths.as_slice())?;
    out.push_str("]")?;
    Ok(out)
}

fn fact_text(alloc: Global, fact: Option<&Fact>) -> Result<String, Fail> {
    match fact {
        None => Ok(format!(in alloc; "Unset")?),
        Some(fact) => known_text(alloc, fact),
    }
}

// ---- Tests

fn check_node(
    rt: &impl Abort,
    alloc: Global,
    facts: &Facts,
    node: Option<NodeId>,
    expected: &str,
) -> Result<(), Fail> {
    match node {
        None => assert!(rt; false, "there is no such node"),
        Some(node) => {
            let found = fact_text(alloc, facts.of(node))?;
            assert_eq!(rt; found.as_str(), expected);
        }
    }
    Ok(())
}

fn check_facts(rt: &impl Abort, alloc: Global, case: &Case) -> Result<(), Fail> {
    let (source, rows) = *case;
    let bound = bound_of(rt, alloc, source)?;
    let nodes = nodes_of(alloc, bound.program())?;
    let facts = infer(alloc, &bound)?;
    assert_eq!(rt; nodes.len(), rows.len(), "{source}");
    for (place, expected) in rows {
        check_node(
            rt,
            alloc,
            &facts,
            node_at(nodes.as_slice(), *place),
            expected,
        )?;
    }
    Ok(())
}

#[test]
fn facts_of_written_programs(rt: HostRuntime) -> Result<(), Fail> {
    for case in &WRITTEN {
        check_facts(&rt, rt.alloc(), case)?;
    }
    Ok(())
}

#[test]
fn facts_of_drawn_programs(rt: HostRuntime) -> Result<(), Fail> {
    for case in &DRAWN {
        check_facts(&rt, rt.alloc(), case)?;
    }
    Ok(())
}

/// The number and the place of a program's refusal, if there is one.
fn refusal(rt: &impl Abort, alloc: Global, source: &str) -> Result<Option<(u8, u64)>, Fail> {
    let bound = bound_of(rt, alloc, source)?;
    match infer(alloc, &bound) {
        Ok(_) => Ok(None),
        Err(Stop::Refused(r)) => Ok(Some((r.number, r.place))),
        Err(stop) => Err(stop)?,
    }
}

#[test]
fn refused_programs(rt: HostRuntime) -> Result<(), Fail> {
    for (source, expected) in REFUSED {
        let found = refusal(&rt, rt.alloc(), source)?;
        assert_eq!(rt; found, Some(expected), "{source}");
    }
    Ok(())
}
