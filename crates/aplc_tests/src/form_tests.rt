//! Lines of a function with the tree or the refusal that the language's rules give each.
//! It must not take an expected answer from `parse`.

use crate::pieces::times;
use aplc_lex::tokens;
use aplc_syntax::{Form, NameId, Node, Program, Statement, Stop, parse};
use sqlite_items::Boxed;
use std::alloc::Global;
use std::string::String;
use std::test::Fail;

/// The line is the first of MAIN, and begins at byte 8. Behind MAIN stand functions with results, N0, F1 and F2, and
/// without, P0, P1 and P2, of as many arguments as their numbers say.
///
/// A tree is written as its function, `@` with its place, and its arguments. A value that is displayed has `d` before
/// it, a quiet one `q`, a branch `g` with its place.
const LINES: [(&str, &str); 54] = [
    ("", "e"),
    ("7", "d 7@8"),
    ("¯7 0", "d -7 0@8"),
    ("''", "d ''@8"),
    ("'it''s'", "d 'it's'@8"),
    ("'''''≢'", "d '''≢'@8"),
    ("A", "d A@8"),
    ("⍞", "d ⍞@8"),
    ("+/⎕NUMS", "d Reduce(Add, Last)@8(⎕NUMS@10)"),
    ("2+3×4", "d Scalar(Add)@9(2@8 Scalar(Mul)@11(3@10 4@13))"),
    ("(2+3)×4", "d Scalar(Mul)@13(Scalar(Add)@10(2@9 3@11) 4@15)"),
    ("-A", "d Scalar(Sub)@8(A@9)"),
    ("~A∧B", "d Scalar(Not)@8(Scalar(And)@10(A@9 B@13))"),
    ("1⌈2⌊3", "d Scalar(Max)@9(1@8 Scalar(Min)@13(2@12 3@16))"),
    ("3|7", "d Scalar(Residue)@9(3@8 7@10)"),
    ("-/1 2 3", "d Reduce(Sub, Last)@8(1 2 3@10)"),
    ("+⌿A", "d Reduce(Add, First)@8(A@12)"),
    ("×⍀A", "d Scan(Mul, First)@8(A@13)"),
    ("+\\[1]A", "d Scan(Add, At(1))@8(A@13)"),
    ("1 0 2/'abc'", "d Replicate(Last)@13(1 0 2@8 'abc'@14)"),
    ("A⌿B", "d Replicate(First)@9(A@8 B@12)"),
    ("A\\B", "d Expand(Last)@9(A@8 B@10)"),
    ("A⍀[2]B", "d Expand(At(2))@9(A@8 B@15)"),
    ("⌽A", "d Reverse(Last)@8(A@11)"),
    ("1⊖[0]A", "d Reverse(At(0))@9(1@8 A@15)"),
    ("⍴A", "d Shape@8(A@11)"),
    ("2 3⍴⍳6", "d Shape@11(2 3@8 Iota@14(6@17))"),
    (",A", "d Ravel@8(A@9)"),
    ("A,B", "d Ravel@9(A@8 B@10)"),
    ("A⍳B", "d Iota@9(A@8 B@12)"),
    ("A∊B", "d Member@9(A@8 B@12)"),
    ("3↑A", "d Take@9(3@8 A@12)"),
    ("¯1↓A", "d Drop@11(-1@8 A@14)"),
    ("⍉A", "d Transpose@8(A@11)"),
    ("2 1⍉A", "d Transpose@11(2 1@8 A@14)"),
    ("A∘.×B", "d Outer(Mul)@9(A@8 B@15)"),
    ("A+.×B", "d Inner(Add, Mul)@9(A@8 B@13)"),
    ("A[1;]", "d Index@9(A@8 [1@10 -])"),
    ("A[1;]+2", "d Scalar(Add)@13(Index@9(A@8 [1@10 -]) 2@14)"),
    ("1 2 3[2]", "d Index@13(1 2 3@8 [2@14])"),
    ("A[B[1];2]", "d Index@9(A@8 [Index@11(B@10 [1@12]) 2@15])"),
    ("((A))[1]", "d Index@13(A@10 [1@14])"),
    ("A←1 2", "q ←A@8(1 2@12)"),
    ("A←B←3", "q ←A@8(←B@12(3@16))"),
    ("(A←5)+A", "d Scalar(Add)@15(←A@9(5@13) A@16)"),
    ("A[;]←5", "q ←A@8([- -] 5@15)"),
    ("F1[1]←2", "q ←F1@8([1@11] 2@16)"),
    ("⎕←A", "q ⎕@8(A@14)"),
    ("→A", "g8 A@11"),
    (
        "L:→(K<4)/L",
        "g10 Replicate(Last)@18(Scalar(Less)@15(K@14 4@16) L@19)",
    ),
    ("N0+F1 5", "d Scalar(Add)@10(N0@8(- -) F1@11(- 5@14))"),
    ("1 F2 N0", "d F2@10(1@8 N0@13(- -))"),
    ("P1 N0", "q P1@8(- N0@11(- -))"),
    ("1 P2 3", "q P2@10(1@8 3@13)"),
];

const REFUSED: [(&str, &str); 34] = [
    ("3+", "7 at 8"),
    ("+", "7 at 8"),
    (")", "7 at 8"),
    ("(1", "7 at 8"),
    ("A[1", "7 at 8"),
    ("A]", "7 at 8"),
    ("A←", "7 at 8"),
    ("⎕", "7 at 8"),
    ("→", "7 at 8"),
    ("1→2", "7 at 8"),
    ("~/A", "7 at 8"),
    ("A.B", "7 at 8"),
    ("∘.+A", "7 at 8"),
    ("F1", "7 at 8"),
    ("(P0)", "7 at 8"),
    ("1 P0", "7 at 8"),
    ("⌽[A]B", "7 at 8"),
    ("2←3", "7 at 8"),
    ("L:+", "7 at 10"),
    ("FOO 3", "13 at 8"),
    ("A 'x'", "13 at 8"),
    ("A(1)", "13 at 8"),
    ("(A 1)", "13 at 9"),
    ("A⍞", "13 at 8"),
    ("A⎕NUMS", "13 at 8"),
    ("A P0", "13 at 8"),
    ("P1 A 3", "13 at 11"),
    ("3+A B+", "13 at 10"),
    ("¯", "2 at 8"),
    ("⎕X", "2 at 8"),
    ("'abc", "3 at 8"),
    ("9223372036854775808", "4 at 8"),
    (
        "A234567890123456789012345678901234567890123456789012345678901234",
        "5 at 8",
    ),
    ("1⋄2", "2 at 9"),
];

const BEHIND: &str = "∇R←N0\n∇\n∇R←F1 B\n∇\n∇R←A F2 B\n∇\n∇P0\n∇\n∇P1 B\n∇\n∇A P2 B\n∇\n";

fn put(out: &mut String, piece: &str) -> Result<(), Fail> {
    out.push_str(piece)?;
    Ok(())
}

fn put_name(out: &mut String, program: &Program, name: NameId) -> Result<(), Fail> {
    match program.names.as_slice().get(name.0 as usize) {
        Some(bytes) => match str::from_utf8(bytes.as_slice()) {
            Ok(text) => put(out, text),
            Err(_) => put(out, "?"),
        },
        None => put(out, "?"),
    }
}

fn put_place(alloc: Global, out: &mut String, place: u64) -> Result<(), Fail> {
    put(out, format!(in alloc; "@{place}")?.as_str())
}

fn put_numbers(alloc: Global, out: &mut String, numbers: &[i64]) -> Result<(), Fail> {
    for (i, n) in numbers.iter().enumerate() {
        if i > 0 {
            put(out, " ")?;
        }
        put(out, format!(in alloc; "{n}")?.as_str())?;
    }
    Ok(())
}

fn put_characters(out: &mut String, characters: &[u32]) -> Result<(), Fail> {
    put(out, "'")?;
    for c in characters {
        out.push(char::from_u32(*c).unwrap_or('?'))?;
    }
    put(out, "'")
}

#[cycle(trees)]
fn put_maybe(
    alloc: Global,
    out: &mut String,
    program: &Program,
    node: &Option<Boxed<Node>>,
) -> Result<(), Fail> {
    match node {
        None => put(out, "-"),
        Some(node) => put_node(alloc, out, program, node.get()),
    }
}

#[cycle(trees)]
fn put_entries(
    alloc: Global,
    out: &mut String,
    program: &Program,
    entries: &[Option<Node>],
) -> Result<(), Fail> {
    put(out, "[")?;
    for (i, entry) in entries.iter().enumerate() {
        if i > 0 {
            put(out, " ")?;
        }
        match entry {
            None => put(out, "-")?,
            Some(node) => put_node(alloc, out, program, node)?,
        }
    }
    put(out, "]")
}

/// What stands before the arguments of a form, or the whole of a form without them.
fn put_head(
    alloc: Global,
    out: &mut String,
    program: &Program,
    form: &Form,
    place: u64,
) -> Result<(), Fail> {
    match form {
        Form::Numbers(numbers) => put_numbers(alloc, out, numbers.as_slice())?,
        Form::Text(characters) => put_characters(out, characters.as_slice())?,
        Form::Name(name) | Form::Call(name, _, _) => put_name(out, program, *name)?,
        Form::TextInput => put(out, "⍞")?,
        Form::NumsInput => put(out, "⎕NUMS")?,
        Form::Mono(prim, _) | Form::Dyad(prim, _, _) => {
            put(out, format!(in alloc; "{prim:?}")?.as_str())?
        }
        Form::Index(_, _) => put(out, "Index")?,
        Form::Assign(name, _) | Form::AssignAt(name, _, _) => put_assigned(out, program, *name)?,
        Form::Show(_) => put(out, "⎕")?,
    }
    put_place(alloc, out, place)
}

fn put_assigned(out: &mut String, program: &Program, name: NameId) -> Result<(), Fail> {
    put(out, "←")?;
    put_name(out, program, name)
}

fn is_leaf(form: &Form) -> bool {
    matches!(
        form,
        Form::Numbers(_) | Form::Text(_) | Form::Name(_) | Form::TextInput | Form::NumsInput
    )
}

/// The arguments of a form, parted by a blank.
#[cycle(trees)]
fn put_form(alloc: Global, out: &mut String, program: &Program, form: &Form) -> Result<(), Fail> {
    match form {
        Form::Mono(_, b) | Form::Assign(_, b) | Form::Show(b) => {
            put_node(alloc, out, program, b.get())
        }
        Form::Dyad(_, a, b) => {
            put_node(alloc, out, program, a.get())?;
            put(out, " ")?;
            put_node(alloc, out, program, b.get())
        }
        Form::Index(a, entries) => {
            put_node(alloc, out, program, a.get())?;
            put(out, " ")?;
            put_entries(alloc, out, program, entries.as_slice())
        }
        Form::AssignAt(_, entries, b) => {
            put_entries(alloc, out, program, entries.as_slice())?;
            put(out, " ")?;
            put_node(alloc, out, program, b.get())
        }
        Form::Call(_, a, b) => {
            put_maybe(alloc, out, program, a)?;
            put(out, " ")?;
            put_maybe(alloc, out, program, b)
        }
        _ => Ok(()),
    }
}

#[cycle(trees)]
fn put_node(alloc: Global, out: &mut String, program: &Program, node: &Node) -> Result<(), Fail> {
    put_head(alloc, out, program, &node.form, node.place)?;
    if is_leaf(&node.form) {
        return Ok(());
    }
    put(out, "(")?;
    put_form(alloc, out, program, &node.form)?;
    put(out, ")")
}

fn put_statement(
    alloc: Global,
    out: &mut String,
    program: &Program,
    statement: &Statement,
) -> Result<(), Fail> {
    match statement {
        Statement::Empty => put(out, "e"),
        Statement::Quiet(node) => {
            put(out, "q ")?;
            put_node(alloc, out, program, node)
        }
        Statement::Display(node) => {
            put(out, "d ")?;
            put_node(alloc, out, program, node)
        }
        Statement::Branch(place, node) => {
            put(out, format!(in alloc; "g{place} ")?.as_str())?;
            put_node(alloc, out, program, node)
        }
    }
}

/// The first line of the first function.
fn first_line(alloc: Global, program: &Program) -> Result<String, Fail> {
    let mut out = String::new(alloc);
    if let Some(main) = program.functions.as_slice().first() {
        if let Some(line) = main.lines.as_slice().first() {
            put_statement(alloc, &mut out, program, &line.statement)?;
        }
    }
    Ok(out)
}

/// What `tokens` and `parse` answer for a source.
fn answer(alloc: Global, source: &[u8]) -> Result<String, Fail> {
    if source.len() > 262_144 {
        return Ok(format!(in alloc; "too long")?);
    }
    let found = match tokens(alloc, source) {
        Ok(found) => found,
        Err(Stop::Refused(r)) => return Ok(format!(in alloc; "{} at {}", r.number, r.place)?),
        Err(Stop::Memory) => return Ok(format!(in alloc; "out of memory")?),
    };
    match parse(alloc, source, &found) {
        Ok(program) => first_line(alloc, &program),
        Err(Stop::Refused(r)) => Ok(format!(in alloc; "{} at {}", r.number, r.place)?),
        Err(Stop::Memory) => Ok(format!(in alloc; "out of memory")?),
    }
}

fn framed(alloc: Global, line: &str) -> Result<String, Fail> {
    Ok(format!(in alloc; "∇MAIN\n{line}\n∇\n{BEHIND}")?)
}

#[test]
fn lines(rt: HostRuntime) -> Result<(), Fail> {
    let alloc = rt.alloc();
    for (line, expected) in LINES {
        let source = framed(alloc, line)?;
        let found = answer(alloc, source.as_str().as_bytes())?;
        assert_eq!(rt; found.as_str(), expected, "{line}");
    }
    Ok(())
}

#[test]
fn refused_lines(rt: HostRuntime) -> Result<(), Fail> {
    let alloc = rt.alloc();
    for (line, expected) in REFUSED {
        let source = framed(alloc, line)?;
        let found = answer(alloc, source.as_str().as_bytes())?;
        assert_eq!(rt; found.as_str(), expected, "{line}");
    }
    Ok(())
}

#[test]
fn limits(rt: HostRuntime) -> Result<(), Fail> {
    let alloc = rt.alloc();
    let open = times(alloc, "(", 33)?;
    let close = times(alloc, ")", 33)?;
    let deep = framed(alloc, format!(in alloc; "{open}1{close}")?.as_str())?;
    assert_eq!(rt;
        answer(alloc, deep.as_str().as_bytes())?.as_str(),
        "8 at 40"
    );
    let more = times(alloc, "1+", 128)?;
    let many = framed(alloc, format!(in alloc; "{more}1")?.as_str())?;
    assert_eq!(rt; answer(alloc, many.as_str().as_bytes())?.as_str(), "9 at 8");
    assert_eq!(rt;
        answer(alloc, b"\xe2\x88\x87MAIN\n\xff\n\xe2\x88\x87\n")?.as_str(),
        "1 at 8"
    );
    Ok(())
}

/// The tree of 128 numbers `1` parted by `+`, the first of which stands at byte 8.
fn tree_of_ones(alloc: Global) -> Result<String, Fail> {
    let mut out = String::from_str(alloc, "d ")?;
    for i in 0u64..127 {
        let place = 8 + 2 * i;
        put(
            &mut out,
            format!(in alloc; "Scalar(Add)@{}(1@{place} ", place + 1)?.as_str(),
        )?;
    }
    put(&mut out, "1@262")?;
    for _ in 0..127 {
        put(&mut out, ")")?;
    }
    Ok(out)
}

/// 255 nodes are not too many.
#[test]
fn most_nodes(rt: HostRuntime) -> Result<(), Fail> {
    let alloc = rt.alloc();
    let more = times(alloc, "1+", 127)?;
    let most = framed(alloc, format!(in alloc; "{more}1")?.as_str())?;
    let expected = tree_of_ones(alloc)?;
    assert_eq!(rt;
        answer(alloc, most.as_str().as_bytes())?.as_str(),
        expected.as_str()
    );
    Ok(())
}

/// A comment makes a source of 262,144 bytes.
#[test]
fn most_bytes(rt: HostRuntime) -> Result<(), Fail> {
    let alloc = rt.alloc();
    let row = framed(alloc, "2+3×4⍝")?;
    let filler = times(alloc, "a", 262_144usize.saturating_sub(row.len()))?;
    let source = framed(alloc, format!(in alloc; "2+3×4⍝{filler}")?.as_str())?;
    assert_eq!(rt; source.len(), 262_144);
    assert_eq!(rt;
        answer(alloc, source.as_str().as_bytes())?.as_str(),
        "d Scalar(Add)@9(2@8 Scalar(Mul)@11(3@10 4@13))"
    );
    Ok(())
}

/// Empty places are no nodes: an index list may have as many as its source has bytes for.
#[test]
fn most_places(rt: HostRuntime) -> Result<(), Fail> {
    let alloc = rt.alloc();
    let places = times(alloc, ";", 261_999)?;
    let source = format!(in alloc; "∇MAIN\nA[{places}]\n∇")?;
    let gaps = times(alloc, "- ", 261_999)?;
    let expected = format!(in alloc; "d Index@9(A@8 [{gaps}-])")?;
    assert_eq!(rt;
        answer(alloc, source.as_str().as_bytes())?.as_str(),
        expected.as_str()
    );
    Ok(())
}
