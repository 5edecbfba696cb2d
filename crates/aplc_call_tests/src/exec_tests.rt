//! Calls of `--exec` over objects in memory.
//! The expected bytes come from the rules of the C profile; its preamble has 3,457 bytes.

use aplc_cli::{Status, aplc};
use aplc_cprof::preamble_bytes;
use aplc_io::{MemHost, MemSink, MemSource};
use std::alloc::Global;
use std::process::Abort;
use std::test::Fail;

// The lines stand in the body of the one function.
const OPEN: &[u8] = b"static void f0(void);\nstatic void f0(void) {\n";

const TAIL: &[u8] = b"}\nint main(void) {\nf0();\nreturn 0;\n}\n";

// Tables and globals, and the lines.
fn text_of(alloc: Global, globals: &[u8], lines: &[u8]) -> Result<Vec<u8>, Fail> {
    let mut text = preamble_bytes().to_vec(alloc)?;
    text.extend_from_slice(globals)?;
    text.extend_from_slice(OPEN)?;
    text.extend_from_slice(lines)?;
    text.extend_from_slice(TAIL)?;
    Ok(text)
}

fn text_with(alloc: Global, lines: &[u8]) -> Result<Vec<u8>, Fail> {
    text_of(alloc, b"", lines)
}

// The status, out and the line on err.
#[derive(Clone, Copy)]
struct Answer<'a> {
    status: Status,
    out: &'a [u8],
    err: &'a [u8],
}

const INPUT: &[u8] = b"12 \xc2\xaf3\n";

fn execute(
    rt: &impl Abort,
    alloc: Global,
    options: &[&str],
    text: Vec<u8>,
    answer: &Answer<'_>,
) -> Result<(), Fail> {
    execute_on(rt, alloc, options, text, INPUT, answer)
}

fn execute_on(
    rt: &impl Abort,
    alloc: Global,
    options: &[&str],
    text: Vec<u8>,
    input: &[u8],
    answer: &Answer<'_>,
) -> Result<(), Fail> {
    let mut words = Vec::new(alloc);
    words.push(String::from_str(alloc, "--exec")?)?;
    for option in options {
        words.push(String::from_str(alloc, option)?)?;
    }
    words.push(String::from_str(alloc, "f")?)?;
    let mut host = MemHost::new(alloc, 100, Vec::new(alloc))?;
    host.add("f", text)?;
    let mut input = MemSource::new(input.to_vec(alloc)?, Vec::new(alloc));
    let mut out = MemSink::new(alloc, 100, Vec::new(alloc))?;
    let mut err = MemSink::new(alloc, 100, Vec::new(alloc))?;
    let status = aplc(alloc, words, &mut host, &mut input, &mut out, &mut err);
    assert_eq!(rt; out.bytes(), answer.out);
    assert_eq!(rt; err.bytes(), answer.err);
    assert_eq!(rt; status, answer.status);
    assert_eq!(rt; host.text(), b"".as_slice());
    assert!(rt; host.target() == None);
    Ok(())
}

fn executes(rt: &impl Abort, alloc: Global, lines: &[u8], answer: &Answer<'_>) -> Result<(), Fail> {
    execute(rt, alloc, &[], text_with(alloc, lines)?, answer)
}

const ROW: &[u8] =
    b"int64_t v0;\nat(\"MAIN\", 1);\nv0 = 4LL;\nv0 = mul(3LL, v0);\nv0 = add(2LL, v0);\nput_num(v0, 0LL);\nput_char(10LL);\n";

// As many places as there may be.
const ALL_ENTERED: &[u8] =
    b"int64_t v0;\nv0 = 0LL;\nwhile ((v0 < 4095LL)) {\nenter();\nv0 = (v0 + 1LL);\n}\n";

const INSIDE: &[u8] =
    b"at(\"MAIN\", 3);\nenter();\nat(\"F\", 1);\nenter();\nat(\"G\", 2);\nfault(0);\n";

#[test]
fn executes_texts(rt: HostRuntime) -> Result<(), Fail> {
    let done = Answer {
        status: Status::Done,
        out: b"14\n",
        err: b"",
    };
    executes(&rt, rt.alloc(), ROW, &done)?;
    let reads =
        b"int64_t v0;\nint64_t *b0 = 0;\nb0 = read_nums();\nv0 = read_n;\nput_num(v0, 0LL);\nput_num((0LL - b0[1LL]), 3LL);\n";
    let sum = Answer {
        out: b"2  3",
        ..done
    };
    executes(&rt, rt.alloc(), reads, &sum)?;
    let length = Answer {
        status: Status::Faulted,
        out: b"",
        err: b"LENGTH ERROR [0]\n",
    };
    executes(&rt, rt.alloc(), b"fault(2);\n", &length)?;
    let all_entered = Answer { out: b"", ..done };
    executes(&rt, rt.alloc(), ALL_ENTERED, &all_entered)?;
    let inside = Answer {
        err: b"DOMAIN ERROR G[2]\nFROM F[1]\nFROM MAIN[3]\n",
        ..length
    };
    executes(&rt, rt.alloc(), INSIDE, &inside)
}

// What is there in the text before its functions, its lines, and the input; out and the line on err.
#[derive(Clone, Copy)]
struct Taking<'a> {
    globals: &'a [u8],
    lines: &'a [u8],
    input: &'a [u8],
    out: &'a [u8],
    err: &'a [u8],
}

fn takes(rt: &impl Abort, alloc: Global, case: &Taking<'_>) -> Result<(), Fail> {
    let status = if case.err.is_empty() {
        Status::Done
    } else {
        Status::Faulted
    };
    let answer = Answer {
        status,
        out: case.out,
        err: case.err,
    };
    let text = text_of(alloc, case.globals, case.lines)?;
    execute_on(rt, alloc, &[], text, case.input, &answer)
}

const TEXT: &[u8] =
    b"int64_t v0;\nint64_t *b0 = 0;\nb0 = read_text();\nv0 = read_n;\nput_num(v0, 0LL);\n";

const NUMS: &[u8] =
    b"int64_t v0;\nint64_t *b0 = 0;\nb0 = read_nums();\nv0 = read_n;\nput_num(v0, 0LL);\n";

// Memory is there for tables, globals, cells and lines; a line that is none is INPUT.
#[test]
fn has_memory(rt: HostRuntime) -> Result<(), Fail> {
    let cases = [
        Taking {
            globals: b"static const int64_t k0[2] = {4, -9};\n",
            lines: b"put_num(k0[0LL], 0LL);\nput_num((0LL - k0[1LL]), 0LL);\n",
            input: b"",
            out: b"49",
            err: b"",
        },
        Taking {
            globals: b"static int64_t g0;\nstatic int64_t *h0;\n",
            lines: b"h0 = cells(1000LL);\nh0[999LL] = 6LL;\ng0 = h0[999LL];\nput_num(g0, 0LL);\n",
            input: b"",
            out: b"6",
            err: b"",
        },
        Taking {
            globals: b"",
            lines: NUMS,
            input: b"1 x\n",
            out: b"",
            err: b"INPUT ERROR [0]\n",
        },
        Taking {
            globals: b"",
            lines: NUMS,
            input: b"\xff\n",
            out: b"",
            err: b"INPUT ERROR [0]\n",
        },
        Taking {
            globals: b"",
            lines: TEXT,
            input: b"\xff\n",
            out: b"",
            err: b"INPUT ERROR [0]\n",
        },
    ];
    for case in &cases {
        takes(&rt, rt.alloc(), case)?;
    }
    Ok(())
}

// Lines of 20,000 bytes: so many characters, and half as many numbers.
#[test]
fn takes_long_lines(rt: HostRuntime) -> Result<(), Fail> {
    let alloc = rt.alloc();
    let mut line = Vec::new(alloc);
    for _ in 0..10_000 {
        line.extend_from_slice(b"1 ")?;
    }
    let text = Taking {
        globals: b"",
        lines: TEXT,
        input: line.as_slice(),
        out: b"20000",
        err: b"",
    };
    takes(&rt, alloc, &text)?;
    let nums = Taking {
        globals: b"",
        lines: NUMS,
        input: line.as_slice(),
        out: b"10000",
        err: b"",
    };
    takes(&rt, alloc, &nums)
}

#[test]
fn gets_stuck(rt: HostRuntime) -> Result<(), Fail> {
    let cases: [(&[u8], &[u8]); 10] = [
        (
            b"int64_t *b0 = 0;\nb0 = cells(3LL);\nb0[3LL] = 1LL;\n",
            b"STUCK OUTSIDE AT 2\n",
        ),
        (b"int64_t v0;\nv0 = (v0 + 1LL);\n", b"STUCK UNSET AT 1\n"),
        (
            b"int64_t v0;\nv0 = 9223372036854775807LL;\nv0 = (v0 + 1LL);\n",
            b"STUCK RANGE AT 2\n",
        ),
        (b"int64_t v0;\nv0 = (1LL / 0LL);\n", b"STUCK RANGE AT 1\n"),
        (
            b"int64_t *b0 = 0;\nb0 = cells(1LL);\ndrop(b0);\ndrop(b0);\n",
            b"STUCK FREED AT 3\n",
        ),
        (
            b"int64_t *b0 = 0;\nb0[0LL] = 1LL;\n",
            b"STUCK OUTSIDE AT 1\n",
        ),
        (
            b"int64_t *b0 = 0;\nb0 = cells(2147483648LL);\n",
            b"STUCK RANGE AT 1\n",
        ),
        (b"put_char(55296LL);\n", b"STUCK RANGE AT 1\n"),
        (b"leave();\n", b"STUCK OUTSIDE AT 1\n"),
        (
            b"int64_t v0;\nv0 = 0LL;\nwhile ((v0 < 4096LL)) {\nenter();\nv0 = (v0 + 1LL);\n}\n",
            b"STUCK OUTSIDE AT 3\n",
        ),
    ];
    for (lines, err) in cases {
        let stuck = Answer {
            status: Status::Stuck,
            out: b"",
            err,
        };
        executes(&rt, rt.alloc(), lines, &stuck)?;
    }
    Ok(())
}

#[test]
fn spends_steps(rt: HostRuntime) -> Result<(), Fail> {
    let spent = Answer {
        status: Status::Spent,
        out: b"",
        err: b"STEP LIMIT\n",
    };
    let lines = text_with(rt.alloc(), b"while (1LL) {\n}\n")?;
    execute(&rt, rt.alloc(), &["--steps", "10"], lines, &spent)?;
    let lines = text_with(rt.alloc(), b"f0();\n")?;
    execute(&rt, rt.alloc(), &["--steps", "1000"], lines, &spent)
}

#[test]
fn refuses_preambles(rt: HostRuntime) -> Result<(), Fail> {
    let refused = Answer {
        status: Status::Refused,
        out: b"",
        err: b"REFUSED 30 PREAMBLE AT 0\n",
    };
    let alloc = rt.alloc();
    execute(&rt, alloc, &[], b"x".to_vec(alloc)?, &refused)?;
    let mut cut = preamble_bytes().to_vec(alloc)?;
    cut.truncate(3456);
    let preamble = Answer {
        err: b"REFUSED 30 PREAMBLE AT 3456\n",
        ..refused
    };
    execute(&rt, alloc, &[], cut, &preamble)?;
    let mut older = preamble_bytes().to_vec(alloc)?;
    older.truncate(228);
    older.extend_from_slice(b" = \"\";\n")?;
    let one_place = Answer {
        err: b"REFUSED 30 PREAMBLE AT 228\n",
        ..refused
    };
    execute(&rt, alloc, &[], older, &one_place)
}

#[test]
fn refuses_texts(rt: HostRuntime) -> Result<(), Fail> {
    let alloc = rt.alloc();
    let refused = Answer {
        status: Status::Refused,
        out: b"",
        err: b"",
    };
    let name = Answer {
        err: b"REFUSED 33 NAME AT 3502\n",
        ..refused
    };
    executes(&rt, alloc, b"v0 = 1LL;\n", &name)?;
    let blanks = Answer {
        err: b"REFUSED 32 FORM AT 3524\n",
        ..refused
    };
    executes(&rt, alloc, b"int64_t v0;\nv0 = (1LL  + 2LL);\n", &blanks)?;
    let mut more = text_with(alloc, ROW)?;
    more.push(b'x')?;
    let behind = Answer {
        err: b"REFUSED 32 FORM AT 3648\n",
        ..refused
    };
    execute(&rt, alloc, &[], more, &behind)?;
    let mut deep = Vec::new(alloc);
    for _ in 0..300 {
        deep.extend_from_slice(b"while (1LL) {\n")?;
    }
    let nesting = Answer {
        err: b"REFUSED 34 NESTING AT 7086\n",
        ..refused
    };
    executes(&rt, alloc, deep.as_slice(), &nesting)?;
    let too_long = Answer {
        err: b"REFUSED 35 TOO LONG AT 67108864\n",
        ..refused
    };
    execute(
        &rt,
        alloc,
        &[],
        vec![in alloc; b'x'; 67_108_865]?,
        &too_long,
    )
}
