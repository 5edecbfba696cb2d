//! A small program, printed and compared with its text as written by hand.
//! It must not take an expected text from `print` itself.

ghost use Rattle.std.specs.Prelude.{◌≡◌, IfOk};
ghost use Rattle.aplc_cprof.specs.Examples.{sample_body, sample};

use aplc_cprof::{
    CExpr, CFunction, CProgram, CStmt, Checked, Int, List, Op, preamble_bytes, print,
};
use sqlite_items::{Boxed, Items};
use std::alloc::{AllocError, Global};
use std::test::Fail;

const AFTER_PREAMBLE: &str = r#"static void f0(void);
static void f0(void) {
int64_t v0;
v0 = 4LL;
v0 = mul(3LL, v0);
at("MAIN", 1);
put_num(v0, 0LL);
put_char(10LL);
v0 = (0LL - 5LL);
}
int main(void) {
f0();
return 0;
}
"#;

fn sample_statements(alloc: Global) -> Result<Items<CStmt>, AllocError>
    ensures { IfOk result (λ body. body ≡ sample_body) }
{
    let v0 = Int::Local(0);
    let zero = Boxed::new(alloc, CExpr::Lit(0))?;
    let five = Boxed::new(alloc, CExpr::Lit(5))?;
    let name = List::from_vec(Vec::from_slice(alloc, b"MAIN")?);
    let mut body = Items::new(alloc);
    body.push(CStmt::Set(v0, CExpr::Lit(4)))?;
    body.push(CStmt::Check(v0, Checked::Mul, CExpr::Lit(3), CExpr::Var(v0)))?;
    body.push(CStmt::At(name, 1))?;
    body.push(CStmt::PutNum(CExpr::Var(v0), CExpr::Lit(0)))?;
    body.push(CStmt::PutChar(CExpr::Lit(10)))?;
    body.push(CStmt::Set(v0, CExpr::Bin(Op::Sub, zero, five)))?;
    Ok(body)
}

fn sample_program(alloc: Global) -> Result<CProgram, AllocError>
    ensures { IfOk result (λ program. program ≡ sample) }
{
    let body = sample_statements(alloc)?;
    let mut functions = Vec::new(alloc);
    functions.push(CFunction {
        ints: 1,
        bufs: 0,
        body,
    })?;
    Ok(CProgram {
        tables: List::from_vec(Vec::new(alloc)),
        ints: 0,
        bufs: 0,
        functions: List::from_vec(functions),
    })
}

#[test]
fn prints_a_program(rt: HostRuntime) -> Result<(), Fail> {
    let program = sample_program(rt.alloc())?;
    let text = print(rt.alloc(), &program)?;
    assert_eq!(rt; text.len(), 3457 + AFTER_PREAMBLE.len());
    assert!(rt; &text[3457..] == AFTER_PREAMBLE.as_bytes());
    assert!(rt; text[3456] == b'\n');
    Ok(())
}

#[test]
fn preamble_is_whole(rt: HostRuntime) {
    let text = preamble_bytes();
    assert_eq!(rt; text.len(), 3457);
    assert!(rt; text.starts_with(b"#include <stdint.h>\n#include <stdio.h>\n"));
    assert!(rt; text.ends_with(b"free(t);\nread_n = m;\nreturn p;\n}\n"));
}
