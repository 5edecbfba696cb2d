//! Writes names, numbers and expressions at the end of a text.
//! It must not know statements.

ghost use Rattle.std.specs.Prelude.{◌≡◌, ◌++◌, OnOk, decimal};
ghost use Rattle.std.specs.Fmt.{signed_decimal};
ghost use Rattle.aplc_cprof.specs.Text.{int_name, buf_name, op_text, expr_text};

use crate::{Buf, CExpr, Int, Op};
use itoa::Buffer;
use std::alloc::AllocError;

pub(crate) fn put(out: &mut Vec<u8>, text: &[u8]) -> Result<(), AllocError>
    ensures { OnOk result (out.new.items ≡ out.old.items ++ text.now) }
{
    out.extend_from_slice(text)
}

pub(crate) fn put_number(out: &mut Vec<u8>, n: u64) -> Result<(), AllocError>
    ensures { OnOk result (out.new.items ≡ out.old.items ++ decimal n) }
{
    let mut buffer = Buffer::new();
    put(out, buffer.format(n).as_bytes())
}

pub(crate) fn put_signed(out: &mut Vec<u8>, n: i64) -> Result<(), AllocError>
    ensures { OnOk result (out.new.items ≡ out.old.items ++ signed_decimal n) }
{
    let mut buffer = Buffer::new();
    put(out, buffer.format(n).as_bytes())
}

#[tactic(auto, unfolding(crate::specs::Text::int_name))]
pub(crate) fn put_int(out: &mut Vec<u8>, x: Int) -> Result<(), AllocError>
    ensures { OnOk result (out.new.items ≡ out.old.items ++ int_name x) }
{
    match x {
        Int::Local(n) => {
            put(out, b"v")?;
            put_number(out, n as u64)
        }
        Int::Global(n) => {
            put(out, b"g")?;
            put_number(out, n as u64)
        }
    }
}

#[tactic(auto, unfolding(crate::specs::Text::buf_name))]
pub(crate) fn put_buf(out: &mut Vec<u8>, p: Buf) -> Result<(), AllocError>
    ensures { OnOk result (out.new.items ≡ out.old.items ++ buf_name p) }
{
    match p {
        Buf::Local(n) => {
            put(out, b"b")?;
            put_number(out, n as u64)
        }
        Buf::Global(n) => {
            put(out, b"h")?;
            put_number(out, n as u64)
        }
    }
}

fn op_bytes(op: Op) -> &'static [u8]
    ensures { result.now ≡ op_text op }
{
    match op {
        Op::Add => b" + ",
        Op::Sub => b" - ",
        Op::Mul => b" * ",
        Op::Div => b" / ",
        Op::Rem => b" % ",
        Op::Less => b" < ",
        Op::LessEq => b" <= ",
        Op::Equal => b" == ",
        Op::NotEqual => b" != ",
        Op::GreaterEq => b" >= ",
        Op::Greater => b" > ",
        Op::And => b" && ",
        Op::Or => b" || ",
    }
}

pub(crate) fn put_expr(out: &mut Vec<u8>, e: &CExpr) -> Result<(), AllocError>
    ensures { OnOk result (out.new.items ≡ out.old.items ++ expr_text e.now) }
{
    match e {
        CExpr::Lit(n) => {
            put_signed(out, *n)?;
            put(out, b"LL")
        }
        CExpr::Var(x) => put_int(out, *x),
        CExpr::Cell(p, place) => {
            put_buf(out, *p)?;
            put(out, b"[")?;
            put_expr(out, place.get())?;
            put(out, b"]")
        }
        CExpr::Table(k, place) => {
            put(out, b"k")?;
            put_number(out, *k as u64)?;
            put(out, b"[")?;
            put_expr(out, place.get())?;
            put(out, b"]")
        }
        CExpr::Bin(op, x, y) => {
            put(out, b"(")?;
            put_expr(out, x.get())?;
            put(out, op_bytes(*op))?;
            put_expr(out, y.get())?;
            put(out, b")")
        }
    }
}
