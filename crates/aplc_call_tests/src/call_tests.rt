//! Whole calls over objects in memory.
//! The expected bytes come from the rules of the language and of the C profile.

use aplc_cli::{Status, aplc};
use aplc_cprof::{Buf, Builder, CExpr, CFunction, CStmt, Int, preamble_bytes, print};
use aplc_cread::read;
use aplc_crun::Machine;
use aplc_io::{Host, MemHost, MemSink, MemSource};
use aplc_tests::program_of;
use std::alloc::Global;
use std::process::Abort;
use std::test::Fail;

// One call: its words, the file `f`, and the calls of the host, of out and of err that fail.
#[derive(Clone, Copy)]
struct Case<'a> {
    words: &'a [&'a str],
    file: &'a [u8],
    host_fails: &'a [u64],
    out_fails: &'a [u64],
    err_fails: &'a [u64],
}

const PLAIN: Case<'static> = Case {
    words: &["f"],
    file: b"",
    host_fails: &[],
    out_fails: &[],
    err_fails: &[],
};

// The status, the text on the host behind the preamble, out, and the line on err.
#[derive(Clone, Copy)]
struct Answer<'a> {
    status: Status,
    text: &'a [u8],
    out: &'a [u8],
    err: &'a [u8],
}

fn check(rt: &impl Abort, alloc: Global, case: &Case<'_>, answer: &Answer<'_>) -> Result<(), Fail> {
    let mut words = Vec::new(alloc);
    for word in case.words {
        words.push(String::from_str(alloc, word)?)?;
    }
    let mut host = MemHost::new(alloc, 10_000, case.host_fails.to_vec(alloc)?)?;
    host.add("f", case.file.to_vec(alloc)?)?;
    let mut input = MemSource::new(Vec::new(alloc), Vec::new(alloc));
    let mut out = MemSink::new(alloc, 100, case.out_fails.to_vec(alloc)?)?;
    let mut err = MemSink::new(alloc, 1000, case.err_fails.to_vec(alloc)?)?;
    let status = aplc(alloc, words, &mut host, &mut input, &mut out, &mut err);
    assert_eq!(rt; status, answer.status);
    assert_eq!(rt; own_text(host.text()), answer.text);
    assert_eq!(rt; out.bytes(), answer.out);
    assert_eq!(rt; err.bytes(), answer.err);
    Ok(())
}

// What stands behind the preamble, or all where the preamble is not there.
fn own_text(text: &[u8]) -> &[u8] {
    let preamble = preamble_bytes();
    if text.len() < preamble.len() {
        return text;
    }
    let (front, own) = text.split_at(preamble.len());
    if front == preamble { own } else { text }
}

#[test]
fn compiles(rt: HostRuntime) -> Result<(), Fail> {
    let case = Case {
        file: "∇MAIN\n2+3×4\n∇\n".as_bytes(),
        ..PLAIN
    };
    let text =
        b"static void f0(void);\nstatic void f0(void) {\nint64_t v0, v1;\nat(\"MAIN\", 1);\nv1 = mul(4LL, 3LL);\nv1 = add(2LL, v1);\nput_num(v1, 0LL);\nput_char(10LL);\nreturn;\n}\nint main(void) {\nf0();\nreturn 0;\n}\n";
    let done = Answer {
        status: Status::Done,
        text,
        out: b"",
        err: b"",
    };
    check(&rt, rt.alloc(), &case, &done)?;
    let case = Case {
        file: "∇MAIN\n\n¯7-0\n∇\n".as_bytes(),
        ..PLAIN
    };
    let text =
        b"static void f0(void);\nstatic void f0(void) {\nint64_t v0, v1;\nat(\"MAIN\", 2);\nv1 = sub((0LL - 7LL), 0LL);\nput_num(v1, 0LL);\nput_char(10LL);\nreturn;\n}\nint main(void) {\nf0();\nreturn 0;\n}\n";
    check(&rt, rt.alloc(), &case, &Answer { text, ..done })
}

// What the stages of the reader refuse, one after the other, and what is not built yet.
const REFUSED: [(&str, &[u8]); 25] = [
    ("", b"REFUSED 15 MAIN AT 0\n"),
    ("∇MAIN\n'abc\n∇\n", b"REFUSED 3 QUOTE AT 8\n"),
    ("∇MAIN\n¯\n∇\n", b"REFUSED 2 CHARACTER AT 8\n"),
    (
        "∇MAIN\n9223372036854775808\n∇\n",
        b"REFUSED 4 NUMBER AT 8\n",
    ),
    ("∇MAIN\n2+3", b"REFUSED 6 HEADER AT 0\n"),
    ("∇MAIN\n3+\n∇\n", b"REFUSED 7 FORM AT 8\n"),
    ("∇MAIN\nFOO 3\n∇\n", b"REFUSED 13 FUNCTION AT 8\n"),
    ("VAR A NUM\n∇MAIN\n∇\n", b"REFUSED 11 DECLARATION AT 0\n"),
    ("∇MAIN\n∇\n∇MAIN\n∇\n", b"REFUSED 12 TWICE AT 15\n"),
    (
        "∇MAIN;X\nX←1\nF\n∇\n∇F\nX\n∇\n",
        b"REFUSED 14 SHADOW AT 27\n",
    ),
    (
        "∇MAIN;X\nF\n∇\n∇F\nG\n∇\n∇G\nX\n∇\n",
        b"REFUSED 14 SHADOW AT 32\n",
    ),
    ("∇F\n∇\n", b"REFUSED 15 MAIN AT 0\n"),
    ("∇MAIN B\n∇\n", b"REFUSED 15 MAIN AT 3\n"),
    ("∇MAIN\nL←1\nL:\n∇\n", b"REFUSED 16 ASSIGN AT 8\n"),
    ("∇MAIN\n⎕←1\n∇\n", b"REFUSED 90 LATER AT 8\n"),
    ("∇MAIN\n×1\n∇\n", b"REFUSED 90 LATER AT 8\n"),
    ("∇MAIN\n'A'\n∇\n", b"REFUSED 90 LATER AT 8\n"),
    ("∇MAIN\nA←⍞\n∇\n", b"REFUSED 90 LATER AT 12\n"),
    ("∇MAIN\n1 2\n∇\n", b"REFUSED 90 LATER AT 8\n"),
    ("∇MAIN\n2+⍳3\n∇\n", b"REFUSED 90 LATER AT 10\n"),
    ("∇MAIN\n1 2⍴⍳3\n∇\n", b"REFUSED 90 LATER AT 8\n"),
    ("∇MAIN\n1\nL:→⍳L\n∇\n", b"REFUSED 90 LATER AT 15\n"),
    (
        "∇MAIN\nF 1\n∇\n∇F B\nB\n⌽-B\n∇\n",
        b"REFUSED 90 LATER AT 25\n",
    ),
    (
        "∇MAIN\nF 5⌊1\n∇\n∇F B\n⌽-B\n∇\n",
        b"REFUSED 90 LATER AT 11\n",
    ),
    (
        "VAR A NUM RANK 1\n∇MAIN\nA+A\n∇\n",
        b"REFUSED 90 LATER AT 25\n",
    ),
];

// What the typing rules refuse, in programs of which not all is built.
const ILL_TYPED: [(&str, &[u8]); 7] = [
    ("∇MAIN\n'abc'+1\n∇\n", b"REFUSED 17 TYPE AT 13\n"),
    ("∇MAIN\n→(⍞)/L\nL:1\n∇\n", b"REFUSED 17 TYPE AT 16\n"),
    ("∇MAIN\n(2 2⍴1)+1 2\n∇\n", b"REFUSED 18 RANK AT 17\n"),
    ("∇MAIN\n(⎕NUMS)⍴5\n∇\n", b"REFUSED 19 RESHAPE AT 17\n"),
    (
        "∇MAIN\nA←2 1\nA⍉2 3⍴0\n∇\n",
        b"REFUSED 20 TRANSPOSE AT 17\n",
    ),
    (
        "VAR A NUM RANK 1\n∇MAIN\nA←1\n∇\n",
        b"REFUSED 21 DECLARED AT 25\n",
    ),
    ("∇MAIN\n⌽[3]2 3⍴0\n∇\n", b"REFUSED 22 AXIS AT 8\n"),
];

fn refused(err: &[u8]) -> Answer<'_> {
    Answer {
        status: Status::Refused,
        text: b"",
        out: b"",
        err,
    }
}

#[test]
fn refuses(rt: HostRuntime) -> Result<(), Fail> {
    for (source, err) in REFUSED {
        let case = Case {
            words: &["--run", "f"],
            file: source.as_bytes(),
            ..PLAIN
        };
        check(&rt, rt.alloc(), &case, &refused(err))?;
    }
    let case = Case {
        file: b"\xe2\x88\x87MAIN\n\xff\n\xe2\x88\x87\n",
        ..PLAIN
    };
    check(&rt, rt.alloc(), &case, &refused(b"REFUSED 1 UTF8 AT 8\n"))?;
    let long = vec![in rt.alloc(); b'1'; 262_145]?;
    let case = Case {
        file: long.as_slice(),
        ..PLAIN
    };
    check(
        &rt,
        rt.alloc(),
        &case,
        &refused(b"REFUSED 23 TOO LONG AT 262144\n"),
    )
}

#[test]
fn refuses_what_is_ill_typed(rt: HostRuntime) -> Result<(), Fail> {
    for (source, err) in ILL_TYPED {
        let case = Case {
            words: &["--run", "f"],
            file: source.as_bytes(),
            ..PLAIN
        };
        check(&rt, rt.alloc(), &case, &refused(err))?;
    }
    Ok(())
}

#[test]
fn stops(rt: HostRuntime) -> Result<(), Fail> {
    let read_fault = Answer {
        status: Status::ReadFault,
        text: b"",
        out: b"",
        err: b"READ FAULT\n",
    };
    let case = Case {
        words: &["g"],
        ..PLAIN
    };
    check(&rt, rt.alloc(), &case, &read_fault)?;
    let case = Case {
        host_fails: &[1],
        ..PLAIN
    };
    check(&rt, rt.alloc(), &case, &read_fault)?;
    let case = Case {
        file: "∇MAIN\n∇\n".as_bytes(),
        host_fails: &[2],
        ..PLAIN
    };
    let write_fault = Answer {
        status: Status::WriteFault,
        text: b"",
        out: b"",
        err: b"WRITE FAULT\n",
    };
    check(&rt, rt.alloc(), &case, &write_fault)?;
    let case = Case {
        words: &[],
        err_fails: &[1],
        ..PLAIN
    };
    check(&rt, rt.alloc(), &case, &write_fault)
}

// The text of `2+3×4` behind the preamble.
const ROW: &[u8] =
    b"static void f0(void);\nstatic void f0(void) {\nint64_t v0, v1;\nat(\"MAIN\", 1);\nv1 = mul(4LL, 3LL);\nv1 = add(2LL, v1);\nput_num(v1, 0LL);\nput_char(10LL);\nreturn;\n}\nint main(void) {\nf0();\nreturn 0;\n}\n";

const RAN: Answer<'static> = Answer {
    status: Status::Done,
    text: ROW,
    out: b"14\n",
    err: b"",
};

#[test]
fn runs(rt: HostRuntime) -> Result<(), Fail> {
    let case = Case {
        words: &["--run", "f"],
        file: "∇MAIN\n2+3×4\n∇\n".as_bytes(),
        ..PLAIN
    };
    check(&rt, rt.alloc(), &case, &RAN)?;
    let case = Case {
        words: &["--run", "f"],
        file: "∇MAIN\n10-5-2\n∇\n".as_bytes(),
        ..PLAIN
    };
    let text =
        b"static void f0(void);\nstatic void f0(void) {\nint64_t v0, v1;\nat(\"MAIN\", 1);\nv1 = sub(5LL, 2LL);\nv1 = sub(10LL, v1);\nput_num(v1, 0LL);\nput_char(10LL);\nreturn;\n}\nint main(void) {\nf0();\nreturn 0;\n}\n";
    let seven = Answer {
        text,
        out: b"7\n",
        ..RAN
    };
    check(&rt, rt.alloc(), &case, &seven)?;
    let case = Case {
        words: &["--run", "f"],
        file: "∇MAIN\n9223372036854775807+1\n∇\n".as_bytes(),
        ..PLAIN
    };
    let text =
        b"static void f0(void);\nstatic void f0(void) {\nint64_t v0, v1;\nat(\"MAIN\", 1);\nv1 = add(9223372036854775807LL, 1LL);\nput_num(v1, 0LL);\nput_char(10LL);\nreturn;\n}\nint main(void) {\nf0();\nreturn 0;\n}\n";
    let limit = Answer {
        status: Status::Faulted,
        text,
        out: b"",
        err: b"LIMIT ERROR MAIN[1]\n",
    };
    check(&rt, rt.alloc(), &case, &limit)
}

// A source in parentheses, and one with a declaration, a label, a comment and a further function.
#[test]
fn reads_whole_sources(rt: HostRuntime) -> Result<(), Fail> {
    let case = Case {
        words: &["--run", "f"],
        file: "∇MAIN\n(2+3)×4\n∇\n".as_bytes(),
        ..PLAIN
    };
    let text =
        b"static void f0(void);\nstatic void f0(void) {\nint64_t v0, v1, v2;\nat(\"MAIN\", 1);\nv2 = add(2LL, 3LL);\nv1 = mul(v2, 4LL);\nput_num(v1, 0LL);\nput_char(10LL);\nreturn;\n}\nint main(void) {\nf0();\nreturn 0;\n}\n";
    let twenty = Answer {
        text,
        out: b"20\n",
        ..RAN
    };
    check(&rt, rt.alloc(), &case, &twenty)?;
    let case = Case {
        words: &["--run", "f"],
        file: "ORIGIN 0\nVAR A NUM RANK 1\n\n∇R←F B\n∇\n∇MAIN\n⍝ no statement\nL: 2 + 3 ⍝ five\n∇".as_bytes(),
        ..PLAIN
    };
    let text =
        b"static void f0(void);\nstatic void f0(void) {\nint64_t v0, v1;\nat(\"MAIN\", 2);\nv1 = add(2LL, 3LL);\nput_num(v1, 0LL);\nput_char(10LL);\nreturn;\n}\nint main(void) {\nf0();\nreturn 0;\n}\n";
    let five = Answer {
        text,
        out: b"5\n",
        ..RAN
    };
    check(&rt, rt.alloc(), &case, &five)
}

// Its location, two assignments, the number, the line end, and the return: six steps.
#[test]
fn counts_steps(rt: HostRuntime) -> Result<(), Fail> {
    let spent = Answer {
        status: Status::Spent,
        out: b"",
        err: b"STEP LIMIT\n",
        ..RAN
    };
    let case = Case {
        words: &["--run", "--steps", "1", "f"],
        file: "∇MAIN\n2+3×4\n∇\n".as_bytes(),
        ..PLAIN
    };
    check(&rt, rt.alloc(), &case, &spent)?;
    let case = Case {
        words: &["--run", "--steps", "4", "f"],
        file: "∇MAIN\n2+3×4\n∇\n".as_bytes(),
        ..PLAIN
    };
    let number = Answer {
        out: b"14",
        ..spent
    };
    check(&rt, rt.alloc(), &case, &number)?;
    let case = Case {
        words: &["--run", "--steps", "5", "f"],
        file: "∇MAIN\n2+3×4\n∇\n".as_bytes(),
        ..PLAIN
    };
    let line = Answer {
        out: b"14\n",
        ..spent
    };
    check(&rt, rt.alloc(), &case, &line)?;
    let case = Case {
        words: &["--run", "--steps", "0000000000000006", "f"],
        file: "∇MAIN\n2+3×4\n∇\n".as_bytes(),
        ..PLAIN
    };
    check(&rt, rt.alloc(), &case, &RAN)?;
    let case = Case {
        words: &["--run", "--steps", "1000000000000000", "f"],
        file: "∇MAIN\n2+3×4\n∇\n".as_bytes(),
        ..PLAIN
    };
    check(&rt, rt.alloc(), &case, &RAN)
}

#[test]
fn stops_in_a_run(rt: HostRuntime) -> Result<(), Fail> {
    let case = Case {
        words: &["--run", "f"],
        file: "∇MAIN\n2+3×4\n∇\n".as_bytes(),
        out_fails: &[1],
        ..PLAIN
    };
    let no_output = Answer {
        status: Status::WriteFault,
        out: b"",
        err: b"WRITE FAULT\n",
        ..RAN
    };
    check(&rt, rt.alloc(), &case, &no_output)?;
    let case = Case {
        words: &["--run", "f"],
        file: "∇MAIN\n2+3×4\n∇\n".as_bytes(),
        host_fails: &[2],
        ..PLAIN
    };
    let no_text = Answer {
        text: b"",
        ..no_output
    };
    check(&rt, rt.alloc(), &case, &no_text)
}

pub(crate) const USAGE: &[u8] =
    b"usage: aplc [-o NAME] FILE; aplc --run [--steps M] [--stats] [-o NAME] FILE; aplc --check FILE; aplc --exec [--steps M] [--stats] FILE; aplc --make N\n";

#[test]
fn asks_for_words(rt: HostRuntime) -> Result<(), Fail> {
    let usage = Answer {
        status: Status::Usage,
        text: b"",
        out: b"",
        err: USAGE,
    };
    let none = Case {
        words: &[],
        ..PLAIN
    };
    check(&rt, rt.alloc(), &none, &usage)?;
    let cases: [&[&str]; 15] = [
        &[""],
        &["-f"],
        &["f", "f"],
        &["--run"],
        &["--run", ""],
        &["--run", "-f"],
        &["--run", "--run", "f"],
        &["--run", "--check", "f"],
        &["--steps", "5", "f"],
        &["--run", "--steps", "f"],
        &["--run", "--steps", "0", "f"],
        &["--run", "--steps", "1000000000000001", "f"],
        &["--run", "--steps", "00000000000000005", "f"],
        &["--exec"],
        &["--exec", "--run", "f"],
    ];
    for words in cases {
        let case = Case {
            words,
            file: "∇MAIN\n1\n∇\n".as_bytes(),
            ..PLAIN
        };
        check(&rt, rt.alloc(), &case, &usage)?;
    }
    Ok(())
}

// Where the text went: nowhere but to its run.
#[test]
fn tells_the_target(rt: HostRuntime) -> Result<(), Fail> {
    let alloc = rt.alloc();
    let mut words = Vec::new(alloc);
    words.push(String::from_str(alloc, "--run")?)?;
    words.push(String::from_str(alloc, "f")?)?;
    let mut host = MemHost::new(alloc, 10_000, Vec::new(alloc))?;
    host.add("f", "∇MAIN\n∇\n".as_bytes().to_vec(alloc)?)?;
    let mut input = MemSource::new(b"abc".to_vec(alloc)?, Vec::new(alloc));
    let mut out = MemSink::new(alloc, 100, Vec::new(alloc))?;
    let mut err = MemSink::new(alloc, 100, Vec::new(alloc))?;
    let status = aplc(alloc, words, &mut host, &mut input, &mut out, &mut err);
    assert_eq!(rt; status, Status::Done);
    assert!(rt; host.target() == Some((None, true)));
    assert_eq!(rt; out.bytes(), b"".as_slice());
    Ok(())
}

// The text of a program of one function that takes cells and frees them.
const SMALL: &str = r#"static void f0(void);
static void f0(void) {
int64_t v0;
int64_t *b0 = 0;
b0 = cells(3LL);
if (1LL) {
drop(b0);
}
v0 = 5LL;
put_num(v0, 0LL);
}
"#;

// The function of that program.
fn small_function(alloc: Global) -> Result<CFunction, Fail> {
    let mut b = Builder::new(alloc);
    let v = b.fresh_int()?;
    let p = b.fresh_buf()?;
    b.emit(CStmt::Cells(p, CExpr::Lit(3)))?;
    b.open()?;
    b.emit(CStmt::Free(p))?;
    let block = b.close();
    b.emit(CStmt::If(CExpr::Lit(1), block, None))?;
    b.emit(CStmt::Set(v, CExpr::Lit(5)))?;
    b.emit(CStmt::PutNum(CExpr::Var(v), CExpr::Lit(0)))?;
    Ok(b.finish())
}

// Whether a function is that of the small program.
fn is_small(function: &CFunction) -> bool {
    let freed = match function.body.as_slice() {
        [
            CStmt::Cells(Buf::Local(0), CExpr::Lit(3)),
            CStmt::If(CExpr::Lit(1), block, None),
            CStmt::Set(Int::Local(0), CExpr::Lit(5)),
            CStmt::PutNum(CExpr::Var(Int::Local(0)), CExpr::Lit(0)),
        ] => matches!(block.as_slice(), [CStmt::Free(Buf::Local(0))]),
        _ => false,
    };
    freed && function.ints == 1 && function.bufs == 1
}

// The program of a text, read back, printed again.
fn printed_again(alloc: Global, text: &[u8]) -> Result<Vec<u8>, Fail> {
    match read(alloc, text) {
        Ok(program) => Ok(print(alloc, &program)?),
        Err(_) => Ok(Vec::new(alloc)),
    }
}

// Each public call that takes memory, with ample memory: the stages of the compiler stand under `aplc`.
#[test]
fn takes_memory(rt: HostRuntime) -> Result<(), Fail> {
    let alloc = rt.alloc();
    let mut machine = Machine::start(alloc, program_of(alloc, SMALL)?)?;
    let mut host = MemHost::new(alloc, 10_000, Vec::new(alloc))?;
    host.add("f", "∇MAIN\n2+3×4\n∇\n".as_bytes().to_vec(alloc)?)?;
    let file = host.fetch(alloc, "f", 100)?;
    let mut input = MemSource::new(file, Vec::new(alloc));
    let mut out = MemSink::new(alloc, 100, Vec::new(alloc))?;
    assert!(rt; machine.run(&mut input, &mut out, 100) == Ok(()));
    assert_eq!(rt; out.bytes(), b"5".as_slice());
    assert_eq!(rt; machine.steps(), 6);
    assert_eq!(rt; machine.peak(), 3);
    assert_eq!(rt; machine.cells(), 0);
    let mut words = Vec::new(alloc);
    words.push(String::from_str(alloc, "--run")?)?;
    words.push(String::from_str(alloc, "f")?)?;
    let mut err = MemSink::new(alloc, 100, Vec::new(alloc))?;
    let status = aplc(alloc, words, &mut host, &mut input, &mut out, &mut err);
    assert_eq!(rt; status, Status::Done);
    assert_eq!(rt; out.bytes(), b"514\n".as_slice());
    assert_eq!(rt; printed_again(alloc, host.text())?.as_slice(), host.text());
    Ok(())
}

#[test]
fn builds(rt: HostRuntime) -> Result<(), Fail> {
    let mut b = Builder::new(rt.alloc());
    let v = b.fresh_int()?;
    let p = b.fresh_buf()?;
    b.open()?;
    b.emit(CStmt::Free(p))?;
    let block = b.close();
    assert_eq!(rt; block.len(), 1);
    b.emit(CStmt::While(CExpr::Var(v), block))?;
    b.open()?;
    let block = b.close();
    assert_eq!(rt; block.len(), 0);
    let second = b.fresh_int()?;
    assert!(rt; v != second);
    Ok(())
}

// The builder's function is that of the text.
#[test]
fn builds_a_function(rt: HostRuntime) -> Result<(), Fail> {
    let alloc = rt.alloc();
    let program = program_of(alloc, SMALL)?;
    let functions = program.functions.as_slice();
    assert_eq!(rt; functions.len(), 1);
    assert!(rt; is_small(&functions[0]));
    let built = small_function(alloc)?;
    assert!(rt; is_small(&built));
    Ok(())
}
