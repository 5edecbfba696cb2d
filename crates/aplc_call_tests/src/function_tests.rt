//! Programs with functions, calls, labels and branches: under `--run`, and their texts under `--exec`.
//! The expected bytes come from the rules of the language.

use aplc_cli::{Status, aplc};
use aplc_io::{MemHost, MemSink, MemSource};
use aplc_tests::times;
use std::alloc::Global;
use std::process::Abort;
use std::test::Fail;

// The status, out and the lines on err.
#[derive(Clone, Copy)]
struct Answer<'a> {
    status: Status,
    out: &'a [u8],
    err: &'a [u8],
}

// One call, over a file `f`: it answers so, and this is the text that it hands to the host.
fn calls(
    rt: &impl Abort,
    alloc: Global,
    options: &[&str],
    file: &[u8],
    answer: &Answer<'_>,
) -> Result<Vec<u8>, Fail> {
    let mut words = Vec::new(alloc);
    for option in options {
        words.push(String::from_str(alloc, option)?)?;
    }
    words.push(String::from_str(alloc, "f")?)?;
    let mut host = MemHost::new(alloc, 50_000, Vec::new(alloc))?;
    host.add("f", file.to_vec(alloc)?)?;
    let mut input = MemSource::new(Vec::new(alloc), Vec::new(alloc));
    let mut out = MemSink::new(alloc, 50_000, Vec::new(alloc))?;
    let mut err = MemSink::new(alloc, 100_000, Vec::new(alloc))?;
    let status = aplc(alloc, words, &mut host, &mut input, &mut out, &mut err);
    assert_eq!(rt; out.bytes(), answer.out);
    assert_eq!(rt; err.bytes(), answer.err);
    assert_eq!(rt; status, answer.status);
    Ok(host.text().to_vec(alloc)?)
}

// A source under `--run`, and its text under `--exec`.
fn comes_to(rt: &impl Abort, alloc: Global, source: &str, answer: &Answer<'_>) -> Result<(), Fail> {
    let text = calls(rt, alloc, &["--run"], source.as_bytes(), answer)?;
    let none = calls(rt, alloc, &["--exec"], text.as_slice(), answer)?;
    assert_eq!(rt; none.len(), 0);
    Ok(())
}

fn each_comes_to(rt: &impl Abort, alloc: Global, cases: &[(&str, &str, &str)]) -> Result<(), Fail> {
    for case in cases {
        let (source, out, err) = *case;
        let answer = Answer {
            status: if err.is_empty() {
                Status::Done
            } else {
                Status::Faulted
            },
            out: out.as_bytes(),
            err: err.as_bytes(),
        };
        comes_to(rt, alloc, source, &answer)?;
    }
    Ok(())
}

// Sources, out, and the lines on err.
const PROGRAMS: [(&str, &str, &str); 27] = [
    ("∇MAIN\nA←5\nB←A+2\nA×B\n∇\n", "35\n", ""),
    (
        "∇MAIN;A\n(A←5)+A\nA←1\n(A←5)+A\n∇\n",
        "",
        "VALUE ERROR MAIN[1]\n",
    ),
    ("∇MAIN\nA\nB←1\n∇\n", "", "VALUE ERROR MAIN[1]\n"),
    ("∇MAIN\nL:→L2\nB\nL2:7\n∇\n", "7\n", ""),
    ("∇MAIN\n→0\n1\n∇\n", "", ""),
    ("∇MAIN\n→99\n1\n∇\n", "", ""),
    ("∇MAIN\n→3\n1\n2\n→1+4\n9\n5\n∇\n", "2\n9\n5\n", ""),
    ("∇MAIN\n→¯1\n1\n∇\n", "", ""),
    ("∇MAIN\n1+F 2\n∇\n∇R←F X\nR←X×X\n∇\n", "5\n", ""),
    (
        "∇MAIN\n1+F 2\n3\n∇\n∇R←F X\nX\n∇\n",
        "2\n",
        "VALUE ERROR MAIN[1]\n",
    ),
    (
        "∇MAIN\nF 2\n3\n∇\n∇R←F X\nX\n∇\n",
        "2\n",
        "VALUE ERROR MAIN[1]\n",
    ),
    ("∇MAIN\n2 F 3\n∇\n∇A F B\nA-B\n∇\n", "¯1\n", ""),
    (
        "∇MAIN\n(1+2)F 3×4\n5\n∇\n∇R←A F B;C\nC←A-B\nR←C+C\n∇\n",
        "¯18\n5\n",
        "",
    ),
    (
        "∇MAIN\nF\n∇\n∇F\nG 9223372036854775807\n∇\n∇G X\nX\nX+1\n∇\n",
        "9223372036854775807\n",
        "LIMIT ERROR G[2]\nFROM F[1]\nFROM MAIN[1]\n",
    ),
    (
        "∇MAIN\nX←1\nF\nX\n∇\n∇F;X\nX←2\nG\nX\n∇\n∇G\n3\n∇\n",
        "3\n2\n1\n",
        "",
    ),
    (
        "∇MAIN\nD 4095\n∇\n∇D N\n→2+N×0\n→3+N-N\nE N-1\n∇\n∇E N\n→N+0\n7\n∇\n",
        "",
        "",
    ),
    (
        "∇MAIN\n1\nF 0\n∇\n∇F B\nG B\n∇\n∇G B\nB+9223372036854775807\nB+9223372036854775807+1\n∇\n",
        "1\n9223372036854775807\n",
        "LIMIT ERROR G[2]\nFROM F[1]\nFROM MAIN[2]\n",
    ),
    ("∇MAIN\nA←(B←2)+B←3\nA\nB\n∇\n", "5\n2\n", ""),
    ("∇MAIN\nB←10\n(B←2)+B\nB-(B←3)\nB\n∇\n", "12\n0\n3\n", ""),
    ("∇MAIN\nG\nA\n∇\n∇G\nA←5\n∇\n", "5\n", ""),
    ("∇MAIN\nA←1\n(H 5)-A\n∇\n∇R←H X\nA←A+X\nR←A\n∇\n", "5\n", ""),
    ("∇MAIN\nA←1\nA-(H 5)\n∇\n∇R←H X\nA←A+X\nR←A\n∇\n", "0\n", ""),
    (
        "∇MAIN\nA←1\n(H 5)-H A\n∇\n∇R←H X\nA←A+X\nR←A\n∇\n",
        "5\n",
        "",
    ),
    ("∇MAIN\n\n\n1\n\n→7\n2\n\n3\n\n∇\n", "1\n3\n", ""),
    ("∇MAIN\nL:\n5\n→L+3\n6\n7\nL\n∇\n", "5\n6\n7\n1\n", ""),
    (
        "∇MAIN\n-5\n+5\n-(-9223372036854775807)\n+0\n∇\n",
        "¯5\n5\n9223372036854775807\n0\n",
        "",
    ),
    (
        "∇MAIN\nR←4\nR F R\n∇\n∇A F B\nA←A+1\nB←B×A\nA\nB\nR\n∇\n",
        "5\n20\n4\n",
        "",
    ),
];

// A fault in a callee in the middle of its caller's statement, behind a call that returned, and in a caller behind a
// call; arguments that are copies; names without a value in a further call; a global name that is read before a call and
// behind it; branches to no line; labels of two functions; the value of an assignment; a name that nothing assigns.
const STATEMENTS: [(&str, &str, &str); 14] = [
    (
        "∇MAIN\n1+(F 2)×3\n4\n∇\n∇R←F X\nR←X\nR←R+9223372036854775807\n∇\n",
        "",
        "LIMIT ERROR F[2]\nFROM MAIN[1]\n",
    ),
    (
        "∇MAIN\n1\n(F 2)+G 3\n∇\n∇R←F X\nX\nR←X×9223372036854775807\n∇\n∇R←G X\nX\nR←X\n∇\n",
        "1\n3\n2\n",
        "LIMIT ERROR F[2]\nFROM MAIN[2]\n",
    ),
    (
        "∇MAIN\nF\n∇\n∇F\n(G 1)+9223372036854775807\n∇\n∇R←G X\nX\n\nR←X\n∇\n",
        "1\n",
        "LIMIT ERROR F[1]\nFROM MAIN[1]\n",
    ),
    (
        "∇MAIN\nA←3\n(F A)+F A+1\nA\n∇\n∇R←F A;B\nB←A×A\nA←0\nR←B\n∇\n",
        "25\n3\n",
        "",
    ),
    (
        "∇MAIN\nF 1\nF 0\n∇\n∇F X;Y\n→4-X\n7\nY←X\nY\n∇\n",
        "1\n",
        "VALUE ERROR F[4]\nFROM MAIN[2]\n",
    ),
    (
        "∇MAIN\nF 1\nF 0\n∇\n∇R←F X\n→3-X\nR←X\n∇\n",
        "1\n",
        "VALUE ERROR MAIN[2]\n",
    ),
    (
        "∇MAIN\nA←1\n(F 0)+A\nA+F 0\n∇\n∇R←F X\nA←A+10\nR←0\n∇\n",
        "1\n21\n",
        "",
    ),
    (
        "∇MAIN\nF\nB\n∇\n∇F\nA←1\nA\nC\n∇\n",
        "1\n",
        "VALUE ERROR F[3]\nFROM MAIN[1]\n",
    ),
    ("∇MAIN\nF\n→4\n9\n∇\n∇F\n1\n→4\n2\n∇\n", "1\n", ""),
    ("∇MAIN\n→0-1\n9\n∇\n", "", ""),
    ("∇MAIN\nF\nL:L\n∇\n∇F\n1\n\nL:L\n∇\n", "1\n3\n2\n", ""),
    ("∇MAIN\nA←1\n(A←5)+A\n∇\n", "6\n", ""),
    ("∇MAIN\nB\n∇\n", "", "VALUE ERROR MAIN[1]\n"),
    (
        "ORIGIN 0\nVAR A NUM RANK 1\n\n∇R←F B\n∇\n∇MAIN;X\n⍝ no statement\nL: 2 + 3 ⍝ five\n∇",
        "5\n",
        "",
    ),
];

#[test]
fn programs_run(rt: HostRuntime) -> Result<(), Fail> {
    each_comes_to(&rt, rt.alloc(), &PROGRAMS)
}

#[test]
fn statements_run(rt: HostRuntime) -> Result<(), Fail> {
    each_comes_to(&rt, rt.alloc(), &STATEMENTS)
}

// A loop without an end.
#[test]
fn steps_are_spent(rt: HostRuntime) -> Result<(), Fail> {
    let spent = Answer {
        status: Status::Spent,
        out: b"",
        err: b"STEP LIMIT\n",
    };
    let words = ["--run", "--steps", "1000"];
    let file = "∇MAIN\nL:→L\n∇\n".as_bytes();
    let text = calls(&rt, rt.alloc(), &words, file, &spent)?;
    let words = ["--exec", "--steps", "1000"];
    calls(&rt, rt.alloc(), &words, text.as_slice(), &spent)?;
    Ok(())
}

// ---- How deep calls nest

// Lines of MAIN, and a function that `A F B` enters 64 × A + B + 1 times, each time from the last: at line 67 for a B that
// is not 0, else at line 134. An empty line leads to the next one that is not.
fn descent(alloc: Global, lines: &str) -> Result<String, Fail> {
    let empty = times(alloc, "\n", 63)?;
    Ok(format!(in alloc;
        "∇MAIN\n{lines}\n∇\n∇A F B\n→3+B\n\n→70+A\n{empty}A F B-1\n→0\n\n→0\n{empty}(A-1)F 63\n∇\n"
    )?)
}

// MAIN and 4,095 functions more, twice.
#[test]
fn deepest_calls_return(rt: HostRuntime) -> Result<(), Fail> {
    let alloc = rt.alloc();
    let source = descent(alloc, "63 F 62\n1\n63 F 62\n2")?;
    let done = Answer {
        status: Status::Done,
        out: b"1\n2\n",
        err: b"",
    };
    comes_to(&rt, alloc, source.as_str(), &done)
}

// One more is a fault where 4,096 functions are entered.
#[test]
fn deeper_calls_fault(rt: HostRuntime) -> Result<(), Fail> {
    let alloc = rt.alloc();
    let source = descent(alloc, "63 F 62\n1\n63 F 63\n2")?;
    let last = times(alloc, "FROM F[67]\n", 62)?;
    let block = times(alloc, "FROM F[67]\n", 63)?;
    let blocks = format!(in alloc; "FROM F[134]\n{block}")?;
    let all = times(alloc, blocks.as_str(), 63)?;
    let err = format!(in alloc; "LIMIT ERROR F[67]\n{last}{all}FROM MAIN[3]\n")?;
    let fault = Answer {
        status: Status::Faulted,
        out: b"1\n",
        err: err.as_str().as_bytes(),
    };
    comes_to(&rt, alloc, source.as_str(), &fault)
}

// A function that calls itself, and MAIN that is called by what it calls.
#[test]
fn endless_calls_fault(rt: HostRuntime) -> Result<(), Fail> {
    let alloc = rt.alloc();
    let callers = times(alloc, "FROM F[1]\n", 4_094)?;
    let err = format!(in alloc; "LIMIT ERROR F[1]\n{callers}FROM MAIN[1]\n")?;
    let fault = Answer {
        status: Status::Faulted,
        out: b"",
        err: err.as_str().as_bytes(),
    };
    comes_to(&rt, alloc, "∇MAIN\nF\n∇\n∇F\nF\n∇\n", &fault)?;
    let out = times(alloc, "1\n", 2_048)?;
    let callers = times(alloc, "FROM F[1]\nFROM MAIN[2]\n", 2_047)?;
    let err = format!(in alloc; "LIMIT ERROR F[1]\nFROM MAIN[2]\n{callers}")?;
    let fault = Answer {
        status: Status::Faulted,
        out: out.as_str().as_bytes(),
        err: err.as_str().as_bytes(),
    };
    comes_to(&rt, alloc, "∇MAIN\n1\nF\n∇\n∇F\nMAIN\n∇\n", &fault)
}
