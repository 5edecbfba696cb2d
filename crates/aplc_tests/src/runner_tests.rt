//! C texts that aplc_crun runs over objects in memory; what they write is worked out by hand.
//! It must not take an expected answer from a run.

use crate::pieces::program_of;
use aplc_crun::{Machine, RunStop};
use aplc_io::{MemSink, MemSource};
use aplc_scalar::FaultKind;
use std::alloc::{AllocError, Global};
use std::process::Abort;
use std::test::Fail;

/// Reads two lines of characters, and writes each with a line feed. For a line of n characters these are 6 steps, and
/// 3 for each character; the calls and the end of `f0` are 3.
const TWO_LINES: &str = r#"static void f0(void);
static void f1(void);
static void f0(void) {
f1();
f1();
}
static void f1(void) {
int64_t v0, v1;
int64_t *b0 = 0;
b0 = read_text();
v0 = read_n;
v1 = 0LL;
while ((v1 < v0)) {
put_char(b0[v1]);
v1 = (v1 + 1LL);
}
put_char(10LL);
}
"#;

/// Reads a line of numbers, and writes each to a width of 3.
const NUMBERS: &str = r#"static void f0(void);
static void f0(void) {
int64_t v0, v1;
int64_t *b0 = 0;
b0 = read_nums();
v0 = read_n;
v1 = 0LL;
while ((v1 < v0)) {
put_num(b0[v1], 3LL);
v1 = (v1 + 1LL);
}
}
"#;

const FAULTY: &str = r#"static void f0(void);
static void f0(void) {
int64_t v0;
int64_t *b0 = 0;
at("F", 3);
b0 = cells(4LL);
v0 = (0LL - 42LL);
put_num(v0, 5LL);
drop(b0);
fault(1);
}
"#;

/// Two functions are entered, and one of them is left again.
const NESTED: &str = r#"static void f0(void);
static void f0(void) {
at("MAIN", 2);
enter();
enter();
leave();
enter();
at("G", 7);
fault(5);
}
"#;

/// The functions of a text, the input, the reads that fail, the bytes that the output takes; and what comes of a run of
/// at most 100 steps, with the faults of the input.
#[derive(Clone, Copy)]
pub(crate) struct Case<'a> {
    pub(crate) text: &'a str,
    pub(crate) input: &'a [u8],
    pub(crate) input_fails: &'a [u64],
    pub(crate) room: usize,
    pub(crate) answer: Result<(), RunStop>,
    pub(crate) out: &'a [u8],
    pub(crate) faults: u64,
    pub(crate) steps: u64,
    pub(crate) cells: u128,
    pub(crate) peak: u128,
}

/// A source of these bytes that fails at these calls.
fn source(alloc: Global, bytes: &[u8], fails: &[u64]) -> Result<MemSource, AllocError> {
    let bytes = Vec::from_slice(alloc, bytes)?;
    Ok(MemSource::new(bytes, Vec::from_slice(alloc, fails)?))
}

pub(crate) fn runs(rt: &impl Abort, alloc: Global, case: &Case<'_>) -> Result<(), Fail> {
    let mut machine = Machine::start(alloc, program_of(alloc, case.text)?)?;
    let mut input = source(alloc, case.input, case.input_fails)?;
    let mut out = MemSink::new(alloc, case.room, Vec::new(alloc))?;
    assert!(rt; machine.can_run());
    assert_eq!(rt; machine.steps(), 0);
    let answer = machine.run(&mut input, &mut out, 100);
    assert_eq!(rt; answer, case.answer);
    assert_eq!(rt; out.bytes(), case.out);
    assert_eq!(rt; input.faults(), case.faults);
    assert_eq!(rt; machine.steps(), case.steps);
    assert_eq!(rt; machine.cells(), case.cells);
    assert_eq!(rt; machine.peak(), case.peak);
    assert!(rt; !machine.can_run());
    Ok(())
}

// Two lines; numbers; no input; a source that fails at the second line; a sink that is full in the second line.
#[test]
fn reads_lines(rt: HostRuntime) -> Result<(), Fail> {
    let cases = [
        Case {
            text: TWO_LINES,
            input: b"a\xC2\xAF\r\ncd",
            input_fails: &[],
            room: 100,
            answer: Ok(()),
            out: b"a\xC2\xAF\ncd\n",
            faults: 0,
            steps: 27,
            cells: 4,
            peak: 4,
        },
        Case {
            text: NUMBERS,
            input: b"1 \xC2\xAF2\t-3\n",
            input_fails: &[],
            room: 100,
            answer: Ok(()),
            out: b"  1 \xC2\xAF2 \xC2\xAF3",
            faults: 0,
            steps: 14,
            cells: 3,
            peak: 3,
        },
        Case {
            text: NUMBERS,
            input: b"",
            input_fails: &[],
            room: 100,
            answer: Err(RunStop::Fault(FaultKind::Input)),
            out: b"",
            faults: 0,
            steps: 1,
            cells: 0,
            peak: 0,
        },
    ];
    for case in &cases {
        runs(&rt, rt.alloc(), case)?;
    }
    Ok(())
}

// A source that fails at the second line, and a sink that is full in it.
#[test]
fn fails_outside(rt: HostRuntime) -> Result<(), Fail> {
    let cases = [
        Case {
            text: TWO_LINES,
            input: b"ab\ncd",
            input_fails: &[2],
            room: 100,
            answer: Err(RunStop::ReadFault),
            out: b"ab\n",
            faults: 1,
            steps: 14,
            cells: 2,
            peak: 2,
        },
        Case {
            text: TWO_LINES,
            input: b"ab\ncd\n",
            input_fails: &[],
            room: 4,
            answer: Err(RunStop::WriteFault),
            out: b"ab\nc",
            faults: 0,
            steps: 27,
            cells: 4,
            peak: 4,
        },
    ];
    for case in &cases {
        runs(&rt, rt.alloc(), case)?;
    }
    Ok(())
}

#[test]
fn single_steps_add_up(rt: HostRuntime) -> Result<(), Fail> {
    let alloc = rt.alloc();
    let mut machine = Machine::start(alloc, program_of(alloc, TWO_LINES)?)?;
    let mut input = source(alloc, b"a\xC2\xAF\r\ncd", &[])?;
    let mut out = MemSink::new(alloc, 100, Vec::new(alloc))?;
    for turn in 0..26u64 {
        assert!(rt; machine.can_run());
        assert!(rt; machine.steps() < 1000);
        assert!(rt; matches!(machine.run(&mut input, &mut out, 1), Err(RunStop::Spent)));
        assert_eq!(rt; machine.steps(), turn + 1);
    }
    assert!(rt; machine.can_run());
    assert!(rt; machine.steps() < 1000);
    assert!(rt; matches!(machine.run(&mut input, &mut out, 1), Ok(())));
    assert!(rt; out.bytes() == b"a\xC2\xAF\ncd\n".as_slice());
    assert_eq!(rt; machine.steps(), 27);
    Ok(())
}

#[test]
fn runs_to_its_fault(rt: HostRuntime) -> Result<(), Fail> {
    let alloc = rt.alloc();
    let mut machine = Machine::start(alloc, program_of(alloc, FAULTY)?)?;
    assert!(rt; machine.can_run());
    assert!(rt; machine.place_name().is_empty());
    assert_eq!(rt; machine.place_line(), 0);
    assert_eq!(rt; machine.steps(), 0);
    let mut input = source(alloc, b"", &[])?;
    let mut out = MemSink::new(alloc, 100, Vec::new(alloc))?;
    let answer = machine.run(&mut input, &mut out, 100);
    assert!(rt; matches!(answer, Err(RunStop::Fault(FaultKind::Index))));
    assert!(rt; out.bytes() == b"  \xC2\xAF42".as_slice());
    assert_eq!(rt; machine.steps(), 6);
    assert!(rt; machine.cells() == 0);
    assert!(rt; machine.peak() == 4);
    assert_eq!(rt; machine.place_line(), 3);
    assert!(rt; machine.place_name() == b"F".as_slice());
    Ok(())
}

#[test]
fn faults_inside(rt: HostRuntime) -> Result<(), Fail> {
    let alloc = rt.alloc();
    let mut machine = Machine::start(alloc, program_of(alloc, NESTED)?)?;
    assert_eq!(rt; machine.places(), 1);
    assert!(rt; machine.caller_name(0).is_empty());
    let mut input = source(alloc, b"", &[])?;
    let mut out = MemSink::new(alloc, 100, Vec::new(alloc))?;
    assert!(rt; machine.steps() < 1000);
    let answer = machine.run(&mut input, &mut out, 5);
    assert!(rt; matches!(answer, Err(RunStop::Spent)));
    assert_eq!(rt; machine.marks(), 1);
    assert!(rt; machine.can_run());
    assert!(rt; machine.steps() < 1000);
    let answer = machine.run(&mut input, &mut out, 100);
    assert!(rt; matches!(answer, Err(RunStop::Fault(FaultKind::Value))));
    assert_eq!(rt; machine.marks(), 2);
    let places = machine.places();
    assert_eq!(rt; places, 3);
    assert!(rt; machine.caller_name(0) == b"G".as_slice());
    assert_eq!(rt; machine.caller_line(0), 7);
    assert!(rt; machine.caller_name(1).is_empty());
    assert_eq!(rt; machine.caller_line(1), 0);
    assert!(rt; machine.caller_name(2) == b"MAIN".as_slice());
    assert_eq!(rt; machine.caller_line(2), 2);
    Ok(())
}
