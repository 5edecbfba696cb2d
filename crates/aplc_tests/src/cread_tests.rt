//! Texts that are read, and where and why others are refused, worked out by hand.
//! It must not take an expected answer from `read`.

ghost use Rattle.aplc_cprof.specs.WellFormed.{IsWellFormed};
ghost use Rattle.aplc_cread.specs.Refusal.{IsRead};

use aplc_cprof::{Buf, CExpr, CProgram, CStmt, Int, preamble_bytes, print, tail_bytes};
use aplc_cread::{CRefusal, CStop, read};
use std::alloc::{AllocError, Global};
use std::test::Fail;

/// Every form of a line, a statement and an expression, behind the preamble and before the tail.
const FORMS: &str = r#"static const int64_t k0[3] = {1, -2, 9223372036854775807};
static const int64_t k1[1] = {-9223372036854775807};
static int64_t g0, g1;
static int64_t *h0, *h1;
static void f0(void);
static void f1(void);
static void f2(void);
static void f0(void) {
int64_t v0, v1, v2;
int64_t *b0 = 0, *b1 = 0;
v0 = 3LL;
g1 = (v0 + k0[v1]);
b0[(v0 - 1LL)] = h1[g0];
h0[0LL] = ((v0 * v1) / (v2 % 2LL));
b0 = b1;
b1 = h0;
h1 = 0;
b0 = cells(4LL);
drop(b0);
drop(h1);
v1 = add(v0, (v0 < 1LL));
g0 = sub((v0 <= v1), (v0 == v1));
v2 = mul((v0 != v1), (v0 >= v1));
v0 = width((v0 > v1));
put_num((v0 && v1), (v0 || v1));
put_char(10LL);
b0 = read_text();
h0 = read_nums();
v0 = read_n;
at("MAIN", 1);
at("∆x_1⍙", 9223372036854775807);
enter();
leave();
fault(0);
fault(6);
f2();
return;
if (v0) {
}
if (v0) {
f1();
} else {
while (v1) {
switch (g1) {
case 0: {
} break;
case 30: {
return;
} break;
default: {
put_char(b1[0LL]);
} break;
}
}
}
switch (v0) {
default: {
} break;
}
}
static void f1(void) {
int64_t *b0 = 0;
}
static void f2(void) {
int64_t v0;
}
"#;

/// The preamble and the parts behind it.
fn text(alloc: Global, parts: &[&[u8]]) -> Result<Vec<u8>, AllocError> {
    let mut bytes = Vec::new(alloc);
    bytes.extend_from_slice(preamble_bytes())?;
    for part in parts {
        bytes.extend_from_slice(part)?;
    }
    Ok(bytes)
}

/// Reads what a program is printed as.
fn again(alloc: Global, program: &CProgram) -> Result<CProgram, CStop>
    requires { IsWellFormed program.now }
    ensures { IsRead program.now result }
{
    match print(alloc, program) {
        Ok(bytes) => read(alloc, &bytes),
        Err(_) => Err(CStop::Memory),
    }
}

#[test]
fn every_form_is_read(rt: HostRuntime) -> Result<(), Fail> {
    let alloc = rt.alloc();
    let bytes = text(alloc, &[FORMS.as_bytes(), tail_bytes()])?;
    let program = read(alloc, &bytes)?;
    let printed = print(alloc, &program)?;
    assert!(rt; printed.as_slice() == bytes.as_slice());
    let twice = again(alloc, &program)?;
    let printed = print(alloc, &twice)?;
    assert!(rt; printed.as_slice() == bytes.as_slice());
    Ok(())
}

#[test]
fn values(rt: HostRuntime) -> Result<(), Fail> {
    let alloc = rt.alloc();
    let bytes = text(alloc, &[FORMS.as_bytes(), tail_bytes()])?;
    let program = read(alloc, &bytes)?;
    assert!(rt; program.ints == 2 && program.bufs == 2);
    let tables = program.tables.as_slice();
    assert!(rt; tables.len() == 2);
    assert!(rt; tables[0].as_slice() == [1i64, -2, 9223372036854775807].as_slice());
    assert!(rt; tables[1].as_slice() == [-9223372036854775807i64].as_slice());
    let functions = program.functions.as_slice();
    assert!(rt; functions.len() == 3);
    assert!(rt; functions[0].ints == 3 && functions[0].bufs == 2);
    assert!(rt; functions[1].ints == 0 && functions[1].bufs == 1);
    assert!(rt; functions[2].ints == 1 && functions[2].bufs == 0);
    let body = functions[0].body.as_slice();
    assert!(rt; body.len() == 30);
    assert!(rt; matches!(&body[0], CStmt::Set(Int::Local(0), CExpr::Lit(3))));
    assert!(rt; matches!(&body[4], CStmt::SetBuf(Buf::Local(0), Some(Buf::Local(1)))));
    assert!(rt; matches!(&body[18], CStmt::ReadCount(Int::Local(0))));
    assert!(rt; matches!(&body[26], CStmt::Return));
    Ok(())
}

fn refusal_of(alloc: Global, bytes: &[u8]) -> Option<CRefusal> {
    match read(alloc, bytes) {
        Err(CStop::Refused(refusal)) => Some(refusal),
        _ => None,
    }
}

/// A number, and a place counted from the first byte.
fn at(number: u8, place: usize) -> Option<CRefusal> {
    Some(CRefusal {
        number,
        place: place as u64,
    })
}

/// A number, and a place counted from the preamble's end.
fn behind(number: u8, place: u64) -> Option<CRefusal> {
    Some(CRefusal {
        number,
        place: (preamble_bytes().len() as u64).wrapping_add(place),
    })
}

fn but_last(bytes: &[u8]) -> &[u8] {
    match bytes {
        [front @ .., _] => front,
        [] => bytes,
    }
}

const HEAD: &[u8] = b"static void f0(void);\nstatic void f0(void) {\n";

const END: &[u8] = b"}\n";

/// How a preamble of a single place goes on there.
const ONE_PLACE: &[u8] = b" = \"\";\n";

#[test]
fn lines_of_a_function(rt: HostRuntime) -> Result<(), Fail> {
    let alloc = rt.alloc();
    let cases: [(&str, u8, u64); 23] = [
        ("v0 = 1LL;\n", 33, 45),
        ("int64_t v0;\nv0 = (1LL  + 2LL);\n", 32, 67),
        ("int64_t v0;\nv10 = 1LL;\n", 33, 58),
        ("int64_t v0;\nv01 = 1LL;\n", 32, 59),
        ("int64_t v0;\nv0 = 01LL;\n", 32, 63),
        ("int64_t v0;\nv0 = 9223372036854775808LL;\n", 32, 80),
        ("int64_t v0, v2;\n", 32, 58),
        ("int64_t *b0 = 0, *b1;\n", 32, 65),
        ("int64_t *b0 = 0;\nint64_t v0;\n", 32, 63),
        ("iff", 32, 47),
        ("drop(b0);\n", 33, 45),
        ("switch (v0) {\n", 33, 45),
        ("f1();\n", 33, 46),
        ("fault(7);\n", 32, 51),
        ("put_char(k0[0LL]);\n", 33, 54),
        ("put_char(\u{80});\n", 31, 54),
        ("put_char(10LL);\n\n", 32, 61),
        ("at(\"9\", 1);\n", 32, 49),
        ("at(\"A\u{2200}\", 1);\n", 31, 52),
        ("leaves();\n", 32, 50),
        ("return;\n}\n}\n", 32, 55),
        (
            "int64_t v0;\nswitch (v0) {\ncase 7: {\n} break;\ncase 3: {\n",
            32,
            96,
        ),
        (
            "int64_t v0;\nswitch (v0) {\ncase 7: {\n} break;\ncase 7: {\n",
            32,
            96,
        ),
    ];
    for (lines, number, place) in cases {
        let bytes = text(alloc, &[HEAD, lines.as_bytes(), END, tail_bytes()])?;
        assert!(rt;
            refusal_of(alloc, &bytes) == behind(number, place),
            "{lines}"
        );
    }
    Ok(())
}

#[test]
fn lines_at_the_top(rt: HostRuntime) -> Result<(), Fail> {
    let alloc = rt.alloc();
    let cases: [(&str, u8, u64); 14] = [
        ("", 32, 0),
        ("\n", 32, 0),
        ("static const int64_t k0[0] = {};\n", 32, 24),
        ("static const int64_t k0[1] = {-0};\n", 32, 31),
        (
            "static const int64_t k0[1] = {9223372036854775808};\n",
            32,
            48,
        ),
        ("static const int64_t k0[2] = {1};\n", 32, 31),
        ("static const int64_t k0[1] = {1, 2};\n", 32, 31),
        ("static const int64_t k1[1] = {1};\n", 32, 22),
        ("static int64_t g0, g2;\n", 32, 20),
        ("static int64_t *h0;\nstatic int64_t g0;\n", 32, 27),
        ("static void f0(void) {\n", 32, 20),
        ("static void f0(void);\nstatic void f2(void);\n", 32, 35),
        ("static void f0(void);\nstatic void f0(void);\n", 32, 42),
        ("static void f0(void);\nint main(void) {\n", 32, 22),
    ];
    for (lines, number, place) in cases {
        let bytes = text(alloc, &[lines.as_bytes()])?;
        assert!(rt;
            refusal_of(alloc, &bytes) == behind(number, place),
            "{lines}"
        );
    }
    Ok(())
}

#[test]
fn preamble_and_tail(rt: HostRuntime) -> Result<(), Fail> {
    let alloc = rt.alloc();
    let preamble = but_last(preamble_bytes());
    let bytes = text(alloc, &[HEAD, END, tail_bytes()])?;
    let whole = bytes.as_slice();
    assert!(rt; read(alloc, whole).is_ok());
    assert!(rt; refusal_of(alloc, b"") == at(30, 0));
    assert!(rt; refusal_of(alloc, b"x") == at(30, 0));
    assert!(rt; refusal_of(alloc, preamble) == at(30, preamble.len()));
    assert!(rt; refusal_of(alloc, but_last(whole)) == at(32, but_last(whole).len()));
    let more = text(alloc, &[HEAD, END, tail_bytes(), b"x"])?;
    assert!(rt; refusal_of(alloc, &more) == at(32, whole.len()));
    let control = text(alloc, &[HEAD, END, tail_bytes(), &[7]])?;
    assert!(rt; refusal_of(alloc, &control) == at(31, whole.len()));
    Ok(())
}

/// A preamble that differs behind `at_name`.
#[test]
fn another_preamble(rt: HostRuntime) -> Result<(), Fail> {
    let alloc = rt.alloc();
    let mut bytes = Vec::from_slice(alloc, preamble_bytes())?;
    bytes.truncate(228);
    bytes.extend_from_slice(ONE_PLACE)?;
    assert!(rt; refusal_of(alloc, &bytes) == at(30, 228));
    Ok(())
}

/// A text in whose one function a line stands so often, and then others.
fn nested(alloc: Global, line: &[u8], times: usize, rest: &[u8]) -> Result<Vec<u8>, AllocError> {
    let mut bytes = text(alloc, &[HEAD, b"int64_t v0;\n"])?;
    for _ in 0..times {
        bytes.extend_from_slice(line)?;
    }
    bytes.extend_from_slice(rest)?;
    Ok(bytes)
}

#[test]
fn nesting(rt: HostRuntime) -> Result<(), Fail> {
    let alloc = rt.alloc();
    let line: &[u8] = b"while (1LL) {\n";
    let mut most = nested(alloc, line, 256, b"")?;
    for _ in 0..256 {
        most.extend_from_slice(b"}\n")?;
    }
    most.extend_from_slice(END)?;
    most.extend_from_slice(tail_bytes())?;
    assert!(rt; read(alloc, &most).is_ok());
    let many = nested(alloc, line, 300, b"")?;
    assert!(rt; refusal_of(alloc, &many) == behind(34, 57 + 256 * 14));
    let switch = nested(alloc, line, 255, b"switch (v0) {\n")?;
    assert!(rt; refusal_of(alloc, &switch) == behind(34, 57 + 255 * 14));
    let cell = nested(alloc, line, 256, b"v0 = b0[0LL];\n")?;
    assert!(rt; refusal_of(alloc, &cell) == behind(32, 57 + 256 * 14 + 5));
    let mut open = nested(alloc, b"", 0, b"v0 = ")?;
    for _ in 0..300 {
        open.extend_from_slice(b"(")?;
    }
    assert!(rt; refusal_of(alloc, &open) == behind(34, 57 + 5 + 256));
    Ok(())
}
