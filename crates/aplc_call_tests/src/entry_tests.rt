//! The call that the program makes, over objects in memory.
//! The expected codes and lines come from the rules of the command line.

use crate::call_tests::USAGE;
use aplc_cli::entry;
use aplc_io::{MemHost, MemSink, MemSource};
use std::alloc::Global;
use std::env::Args;
use std::io::{self, ErrorKind};
use std::process::Abort;
use std::test::Fail;

fn args(alloc: Global, words: &[&str]) -> Result<Args, Fail> {
    let mut all = Vec::new(alloc);
    for word in words {
        all.push(String::from_str(alloc, word)?)?;
    }
    Ok(all.into_iter())
}

// The exit code, out and the line on err.
#[derive(Clone, Copy)]
struct Left<'a> {
    code: u8,
    out: &'a [u8],
    err: &'a [u8],
}

fn enters(
    rt: &impl Abort,
    alloc: Global,
    given: io::Result<Args>,
    err_fails: &[u64],
    left: &Left<'_>,
) -> Result<(), Fail> {
    let mut host = MemHost::new(alloc, 10_000, Vec::new(alloc))?;
    host.add("f", "∇MAIN\n2+3×4\n∇\n".as_bytes().to_vec(alloc)?)?;
    let mut input = MemSource::new(Vec::new(alloc), Vec::new(alloc));
    let mut out = MemSink::new(alloc, 100, Vec::new(alloc))?;
    let mut err = MemSink::new(alloc, 1000, err_fails.to_vec(alloc)?)?;
    let code = entry(alloc, given, &mut host, &mut input, &mut out, &mut err);
    assert_eq!(rt; code, left.code);
    assert_eq!(rt; out.bytes(), left.out);
    assert_eq!(rt; err.bytes(), left.err);
    Ok(())
}

#[test]
fn enters_with_words(rt: HostRuntime) -> Result<(), Fail> {
    let alloc = rt.alloc();
    let words = args(alloc, &["aplc", "--run", "f"])?;
    let ran = Left {
        code: 0,
        out: b"14\n",
        err: b"",
    };
    enters(&rt, alloc, Ok(words), &[], &ran)?;
    let words = args(alloc, &["aplc", "--run", "--steps", "1", "f"])?;
    let spent = Left {
        code: 6,
        out: b"",
        err: b"STEP LIMIT\n",
    };
    enters(&rt, alloc, Ok(words), &[], &spent)?;
    let words = args(alloc, &["aplc"])?;
    let usage = Left {
        code: 3,
        out: b"",
        err: USAGE,
    };
    enters(&rt, alloc, Ok(words), &[], &usage)
}

#[test]
fn enters_without_words(rt: HostRuntime) -> Result<(), Fail> {
    let alloc = rt.alloc();
    let no_text = io::Error::from(ErrorKind::InvalidData);
    let usage = Left {
        code: 3,
        out: b"",
        err: USAGE,
    };
    enters(&rt, alloc, Err(no_text), &[], &usage)?;
    let wanting = io::Error::from(ErrorKind::OutOfMemory);
    let memory = Left {
        code: 7,
        out: b"",
        err: b"NO MEMORY\n",
    };
    enters(&rt, alloc, Err(wanting), &[], &memory)?;
    let wanting = io::Error::from(ErrorKind::OutOfMemory);
    let fault = Left {
        code: 5,
        out: b"",
        err: b"WRITE FAULT\n",
    };
    enters(&rt, alloc, Err(wanting), &[1], &fault)
}
