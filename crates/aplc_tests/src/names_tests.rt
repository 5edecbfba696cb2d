//! Refusals of small sources by aplc_names, with places counted by hand.
//! They must not take an answer from the program.

use aplc_lex::tokens;
use aplc_names::{Stop, resolve};
use aplc_syntax::parse;
use std::alloc::Global;
use std::process::Abort;
use std::test::Fail;

/// Sources, each with the number and the place of its refusal, if there is one: names that a caller hides, names that
/// stand twice, assigned labels and functions, the function MAIN.
const SOURCES: [(&str, Option<(u8, u64)>); 13] = [
    ("∇MAIN;X\nX←1\nF\n∇\n∇F\nX\n∇\n", Some((14, 27))),
    ("∇MAIN;X\nF\n∇\n∇F\nG\n∇\n∇G\nX←1\n∇\n", Some((14, 32))),
    ("∇MAIN;X\nF\n∇\n∇F;X\nX\n∇\n", None),
    ("∇MAIN\n∇\n∇MAIN\n∇\n", Some((12, 15))),
    (
        "VAR A NUM RANK 0\nVAR A NUM RANK 0\n∇MAIN\n∇\n",
        Some((12, 21)),
    ),
    ("VAR MAIN NUM RANK 0\n∇MAIN\n∇\n", Some((12, 4))),
    ("∇MAIN;A;A\n∇\n", Some((12, 10))),
    ("∇MAIN\nL←1\nL:\n∇\n", Some((16, 8))),
    ("∇MAIN\nMAIN[1]←2\n∇\n", Some((16, 8))),
    ("∇MAIN;X\nMAIN←1\nF\n∇\n∇F\nX\n∇\n", Some((16, 10))),
    ("∇F\n∇\n", Some((15, 0))),
    ("∇MAIN B\n∇\n", Some((15, 3))),
    ("∇MAIN\nF\n∇\n∇F\nF\n∇\n", None),
];

/// The number and the place of a source's refusal, if there is one.
fn refusal(rt: &impl Abort, alloc: Global, text: &str) -> Result<Option<(u8, u64)>, Fail> {
    let bytes = text.as_bytes();
    assert!(rt; bytes.len() <= 262_144);
    let found = tokens(alloc, bytes)?;
    let program = parse(alloc, bytes, &found)?;
    match resolve(alloc, program) {
        Ok(_) => Ok(None),
        Err(Stop::Refused(r)) => Ok(Some((r.number, r.place))),
        Err(stop) => Err(stop)?,
    }
}

#[test]
fn names(rt: HostRuntime) -> Result<(), Fail> {
    for (source, expected) in SOURCES {
        let found = refusal(&rt, rt.alloc(), source)?;
        assert_eq!(rt; found, expected, "{source}");
    }
    Ok(())
}
