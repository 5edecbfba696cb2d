//! Sources at the limits of the language and beyond them, under `--run`.
//! The expected bytes come from the rules of the language.

use aplc_cli::aplc;
use aplc_io::{MemHost, MemSink, MemSource};
use aplc_tests::times;
use std::alloc::Global;
use std::process::Abort;
use std::test::Fail;

// Lines of MAIN in a file of their own: what is written to out, and the line on err.
fn runs(
    rt: &impl Abort,
    alloc: Global,
    lines: &str,
    expected: &[u8],
    line: &[u8],
) -> Result<(), Fail> {
    let mut words = Vec::new(alloc);
    words.push(String::from_str(alloc, "--run")?)?;
    words.push(String::from_str(alloc, "f")?)?;
    let mut host = MemHost::new(alloc, 20_000, Vec::new(alloc))?;
    let file = format!(in alloc; "∇MAIN\n{lines}\n∇\n")?;
    host.add("f", file.as_str().as_bytes().to_vec(alloc)?)?;
    let mut input = MemSource::new(Vec::new(alloc), Vec::new(alloc));
    let mut out = MemSink::new(alloc, 100, Vec::new(alloc))?;
    let mut err = MemSink::new(alloc, 100, Vec::new(alloc))?;
    let _ = aplc(alloc, words, &mut host, &mut input, &mut out, &mut err);
    assert_eq!(rt; out.bytes(), expected);
    assert_eq!(rt; err.bytes(), line);
    Ok(())
}

#[test]
fn most_is_read(rt: HostRuntime) -> Result<(), Fail> {
    let alloc = rt.alloc();
    let more = times(alloc, "1+", 127)?;
    let most = format!(in alloc; "{more}1")?;
    runs(&rt, alloc, most.as_str(), b"128\n", b"")?;
    let open = times(alloc, "(", 32)?;
    let close = times(alloc, ")", 32)?;
    let deep = format!(in alloc; "{open}7{close}")?;
    runs(&rt, alloc, deep.as_str(), b"7\n", b"")?;
    let filler = times(alloc, "a", 262_122)?;
    let long = format!(in alloc; "2+3×4⍝{filler}")?;
    runs(&rt, alloc, long.as_str(), b"14\n", b"")?;
    runs(&rt, alloc, "2+3 ⍝ five", b"5\n", b"")
}

// Memory is there for trees that lean to the left, for elided places, and for the most functions.
#[test]
fn has_memory(rt: HostRuntime) -> Result<(), Fail> {
    let alloc = rt.alloc();
    let open = times(alloc, "(", 32)?;
    let close = times(alloc, "+1)", 32)?;
    let left = format!(in alloc; "{open}1{close}")?;
    runs(&rt, alloc, left.as_str(), b"33\n", b"")?;
    runs(&rt, alloc, "A[1;;2]←3", b"", b"REFUSED 90 LATER AT 8\n")?;
    let mut most = String::from_str(alloc, "1")?;
    for i in 0..998 {
        let function = format!(in alloc; "\n∇\n∇F{i}")?;
        most.push_str(function.as_str())?;
    }
    runs(&rt, alloc, most.as_str(), b"1\n", b"")
}

#[test]
fn more_is_refused(rt: HostRuntime) -> Result<(), Fail> {
    let alloc = rt.alloc();
    let more = times(alloc, "1+", 128)?;
    let many = format!(in alloc; "{more}1")?;
    runs(&rt, alloc, many.as_str(), b"", b"REFUSED 9 NODES AT 8\n")?;
    let open = times(alloc, "(", 33)?;
    let close = times(alloc, ")", 33)?;
    let deep = format!(in alloc; "{open}1{close}")?;
    runs(&rt, alloc, deep.as_str(), b"", b"REFUSED 8 NESTING AT 40\n")?;
    let lines = times(alloc, "\n", 999)?;
    runs(
        &rt,
        alloc,
        lines.as_str(),
        b"",
        b"REFUSED 10 COUNT AT 1007\n",
    )?;
    let name = times(alloc, "A", 64)?;
    runs(&rt, alloc, name.as_str(), b"", b"REFUSED 5 NAME AT 8\n")?;
    let filler = times(alloc, "a", 262_123)?;
    let long = format!(in alloc; "2+3×4⍝{filler}")?;
    runs(
        &rt,
        alloc,
        long.as_str(),
        b"",
        b"REFUSED 23 TOO LONG AT 262144\n",
    )
}
