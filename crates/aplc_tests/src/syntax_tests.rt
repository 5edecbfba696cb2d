//! Sources, and what the language's rules make of each: a program in short, or a refusal.
//! It must not take an expected answer from `parse`.

use crate::pieces::times;
use aplc_lex::tokens;
use aplc_scalar::Kind;
use aplc_syntax::{Function, Line, Named, Program, Statement, Stop, parse};
use std::alloc::Global;
use std::string::String;
use std::test::Fail;

/// A program is written as `n` with how many names it has, `o` with its origin, `v` for a declared name with its kind and
/// rank, and for each function `f` with its name, `r` with its result, `a` and `b` with its arguments, `l` with its local
/// names, and its lines: `=` with the label, then `e` for an empty one, `q` for a quiet one, `d` for a displayed one, with
/// the place of its tree, or `g` for a branch with its place and that of its tree. A name is written as its number and
/// its place.
const SOURCES: [(&str, &str); 45] = [
    ("", "n0 o1"),
    ("\n ⍝ X\n\t\r\n", "n0 o1"),
    ("∇MAIN\n∇\n", "n1 o1 f0@3"),
    ("∇MAIN\n∇", "n1 o1 f0@3"),
    ("∇MAIN\n1\n∇", "n1 o1 f0@3 d@8"),
    ("∇MAIN\r\n1\r\n∇\r\n", "n1 o1 f0@3 d@9"),
    ("∇MAIN\n\n ⍝ c\n1⍝ d\n∇", "n1 o1 f0@3 e e d@16"),
    ("\u{feff}ORIGIN 0\n", "n1 o0"),
    ("ORIGIN 01", "n1 o1"),
    (
        "ORIGIN 0\nVAR A NUM RANK 2\nVAR B CHAR RANK 0\n∇MAIN\n∇",
        "n8 o0 v2@13:N2 v5@30:C0 f7@47",
    ),
    ("VAR A NUM RANK 8", "n4 o1 v1@4:N8"),
    ("VAR A NUM RANK 03", "n4 o1 v1@4:N3"),
    ("VAR VAR NUM RANK 1", "n3 o1 v0@4:N1"),
    ("VAR A NUM RANK 9", "11 at 0"),
    ("VAR A BOX RANK 1", "11 at 0"),
    ("VAR A NUM RANK", "11 at 0"),
    ("\nORIGIN 2", "11 at 1"),
    ("ORIGIN ¯1", "11 at 0"),
    ("ORIGIN 1\nORIGIN 1\n", "11 at 9"),
    ("\u{feff}X", "11 at 3"),
    ("∇F\n∇\nORIGIN 1\n", "11 at 9"),
    ("∇F\n∇\n\n⍝ x\n", "n1 o1 f0@3"),
    (
        "∇R←A F B;X;Y\n∇\n",
        "n6 o1 f2@9 r0@3 a1@7 b3@11 l4@13 l5@15",
    ),
    ("∇F B\n∇\n", "n2 o1 f0@3 b1@5"),
    ("∇A F B C\n∇\n", "6 at 0"),
    ("∇\n∇\n", "6 at 0"),
    ("∇F;\n∇\n", "6 at 0"),
    ("∇R←\n∇\n", "6 at 0"),
    ("∇F\n1\n", "6 at 0"),
    ("\n∇F\n∇ F\n", "6 at 6"),
    ("∇F\n∇ F\n∇G\n∇\n", "6 at 5"),
    ("∇MAIN\nL:\nM:→L\n∇", "n3 o1 f0@3 =1@8 e =2@11 g13@16"),
    ("∇MAIN\nL:1\n:2\n∇", "7 at 12"),
    ("∇MAIN\nL:M:1\n∇", "7 at 10"),
    (
        "∇R←F B\n∇\n∇R←F\n∇\n∇MAIN\nF 1\n∇",
        "n4 o1 f1@7 r0@3 b2@9 f1@22 r0@18 f3@31 d@36",
    ),
    ("∇R←F\n∇\n∇R←F B\n∇\n∇MAIN\nF 1\n∇", "7 at 36"),
    ("∇A F B C\n∇\n∇MAIN\nF 1\n∇", "6 at 0"),
    ("∇MAIN\nFOO 3\n∇", "13 at 8"),
    ("∇MAIN\nA B←1\n∇", "13 at 8"),
    ("∇MAIN\n3+\n", "6 at 0"),
    ("∇F\n3+\n∇ X\nVAR\n", "7 at 5"),
    ("∇F\n3+\nG 1\n∇", "7 at 5"),
    ("∇P\n∇\n∇MAIN\nP\n∇", "n2 o1 f0@3 f1@12 q@17"),
    ("∇MAIN\nA←5\n(A←5)\n⎕←A\n∇", "n2 o1 f0@3 q@8 d@15 q@22"),
    ("∇R←F\n∇\n∇MAIN\nF[1]←2\n∇", "n3 o1 f1@7 r0@3 f2@16 q@21"),
];

fn put_name(alloc: Global, out: &mut String, tag: &str, name: Named) -> Result<(), Fail> {
    let (number, place) = (name.name.0, name.place);
    out.push_str(format!(in alloc; " {tag}{number}@{place}")?.as_str())?;
    Ok(())
}

fn put_maybe(alloc: Global, out: &mut String, tag: &str, name: Option<Named>) -> Result<(), Fail> {
    match name {
        Some(name) => put_name(alloc, out, tag, name),
        None => Ok(()),
    }
}

fn put_line(alloc: Global, out: &mut String, line: &Line) -> Result<(), Fail> {
    put_maybe(alloc, out, "=", line.label)?;
    let piece = match &line.statement {
        Statement::Empty => format!(in alloc; " e")?,
        Statement::Quiet(node) => format!(in alloc; " q@{}", node.place)?,
        Statement::Display(node) => format!(in alloc; " d@{}", node.place)?,
        Statement::Branch(place, node) => format!(in alloc; " g{place}@{}", node.place)?,
    };
    out.push_str(piece.as_str())?;
    Ok(())
}

fn put_function(alloc: Global, out: &mut String, function: &Function) -> Result<(), Fail> {
    put_name(alloc, out, "f", function.name)?;
    put_maybe(alloc, out, "r", function.result)?;
    put_maybe(alloc, out, "a", function.left)?;
    put_maybe(alloc, out, "b", function.right)?;
    for name in function.locals.as_slice() {
        put_name(alloc, out, "l", *name)?;
    }
    for line in function.lines.as_slice() {
        put_line(alloc, out, line)?;
    }
    Ok(())
}

fn program_text(alloc: Global, program: &Program) -> Result<String, Fail> {
    let names = program.names.as_slice().len();
    let mut out = format!(in alloc; "n{names} o{}", program.origin)?;
    for var in program.vars.as_slice() {
        put_name(alloc, &mut out, "v", var.name)?;
        let kind = match var.kind {
            Kind::Num => "N",
            Kind::Char => "C",
        };
        out.push_str(format!(in alloc; ":{kind}{}", var.rank)?.as_str())?;
    }
    for function in program.functions.as_slice() {
        put_function(alloc, &mut out, function)?;
    }
    Ok(out)
}

/// What `parse` answers for a source.
fn answer(alloc: Global, source: &str) -> Result<String, Fail> {
    let text = source.as_bytes();
    if text.len() > 262_144 {
        return Ok(format!(in alloc; "too long")?);
    }
    let tokens = tokens(alloc, text)?;
    match parse(alloc, text, &tokens) {
        Ok(program) => program_text(alloc, &program),
        Err(Stop::Refused(refusal)) => {
            Ok(format!(in alloc; "{} at {}", refusal.number, refusal.place)?)
        }
        Err(Stop::Memory) => Ok(format!(in alloc; "out of memory")?),
    }
}

#[test]
fn sources(rt: HostRuntime) -> Result<(), Fail> {
    for (source, expected) in SOURCES {
        let found = answer(rt.alloc(), source)?;
        assert_eq!(rt; found.as_str(), expected, "{source}");
    }
    Ok(())
}

#[test]
fn counts(rt: HostRuntime) -> Result<(), Fail> {
    let alloc = rt.alloc();
    let lines = times(alloc, "\n", 1000)?;
    let lines = format!(in alloc; "∇MAIN\n{lines}∇")?;
    assert_eq!(rt; answer(alloc, lines.as_str())?.as_str(), "10 at 1007");
    let functions = times(alloc, "∇F\n∇\n", 1000)?;
    assert_eq!(rt; answer(alloc, functions.as_str())?.as_str(), "10 at 8991");
    let fewer = times(alloc, "∇F\n∇\n", 999)?;
    let fewer = format!(in alloc; "{fewer}X")?;
    assert_eq!(rt; answer(alloc, fewer.as_str())?.as_str(), "11 at 8991");
    Ok(())
}
