//! Writes statements at the end of a text.
//! It must not know programs, nor what a statement means.

ghost use Rattle.std.specs.Prelude.{◌≡◌, ◌++◌, OnOk, Some, None, codes};
ghost use Rattle.aplc_cprof.specs.Text.{checked_text, fault_number, expr_text, stmt_text, stmts_text, arm_text, arms_text};

use crate::expressions::{put, put_buf, put_expr, put_int, put_number, put_signed};
use crate::{Arm, Buf, CExpr, CStmt, Checked, Int};
use aplc_scalar::FaultKind;
use std::alloc::AllocError;

fn checked_bytes(op: Checked) -> &'static [u8]
    ensures { result.now ≡ checked_text op }
{
    match op {
        Checked::Add => b" = add(",
        Checked::Sub => b" = sub(",
        Checked::Mul => b" = mul(",
    }
}

fn number_of(kind: FaultKind) -> u64
    ensures { result ≡ fault_number kind }
{
    match kind {
        FaultKind::Domain => 0,
        FaultKind::Index => 1,
        FaultKind::Length => 2,
        FaultKind::Limit => 3,
        FaultKind::Rank => 4,
        FaultKind::Value => 5,
        FaultKind::Input => 6,
    }
}

/// A text, an expression, and the end of a statement.
fn put_last(out: &mut Vec<u8>, before: &[u8], e: &CExpr) -> Result<(), AllocError>
    ensures { OnOk result (out.new.items ≡ out.old.items ++ before.now ++ expr_text e.now ++ codes ");\n") }
{
    put(out, before)?;
    put_expr(out, e)?;
    put(out, b");\n")
}

/// A text, a condition, and the brace of a block.
fn put_condition(out: &mut Vec<u8>, before: &[u8], e: &CExpr) -> Result<(), AllocError>
    ensures { OnOk result (out.new.items ≡ out.old.items ++ before.now ++ expr_text e.now ++ codes ") {\n") }
{
    put(out, before)?;
    put_expr(out, e)?;
    put(out, b") {\n")
}

fn put_read_text(out: &mut Vec<u8>, p: Buf) -> Result<(), AllocError>
    ensures { OnOk result (out.new.items ≡ out.old.items ++ stmt_text (CStmt.ReadText p)) }
{
    put_buf(out, p)?;
    put(out, b" = read_text();\n")
}

fn put_read_nums(out: &mut Vec<u8>, p: Buf) -> Result<(), AllocError>
    ensures { OnOk result (out.new.items ≡ out.old.items ++ stmt_text (CStmt.ReadNums p)) }
{
    put_buf(out, p)?;
    put(out, b" = read_nums();\n")
}

fn put_read_count(out: &mut Vec<u8>, x: Int) -> Result<(), AllocError>
    ensures { OnOk result (out.new.items ≡ out.old.items ++ stmt_text (CStmt.ReadCount x)) }
{
    put_int(out, x)?;
    put(out, b" = read_n;\n")
}

fn put_at(out: &mut Vec<u8>, name: &[u8], line: i64) -> Result<(), AllocError>
    ensures { OnOk result (out.new.items ≡ out.old.items ++ stmt_text (CStmt.At name.now line)) }
{
    put(out, b"at(\"")?;
    put(out, name)?;
    put(out, b"\", ")?;
    put_signed(out, line)?;
    put(out, b");\n")
}

fn put_fault(out: &mut Vec<u8>, kind: FaultKind) -> Result<(), AllocError>
    ensures { OnOk result (out.new.items ≡ out.old.items ++ stmt_text (CStmt.Fault kind)) }
{
    put(out, b"fault(")?;
    put_number(out, number_of(kind))?;
    put(out, b");\n")
}

fn put_call(out: &mut Vec<u8>, function: u32) -> Result<(), AllocError>
    ensures { OnOk result (out.new.items ≡ out.old.items ++ stmt_text (CStmt.Call function)) }
{
    put(out, b"f")?;
    put_number(out, function as u64)?;
    put(out, b"();\n")
}

fn put_set(out: &mut Vec<u8>, x: Int, e: &CExpr) -> Result<(), AllocError>
    ensures { OnOk result (out.new.items ≡ out.old.items ++ stmt_text (CStmt.Set x e.now)) }
{
    put_int(out, x)?;
    put(out, b" = ")?;
    put_expr(out, e)?;
    put(out, b";\n")
}

fn put_set_cell(out: &mut Vec<u8>, p: Buf, e: &CExpr, f: &CExpr) -> Result<(), AllocError>
    ensures { OnOk result (out.new.items ≡ out.old.items ++ stmt_text (CStmt.SetCell p e.now f.now)) }
{
    put_buf(out, p)?;
    put(out, b"[")?;
    put_expr(out, e)?;
    put(out, b"] = ")?;
    put_expr(out, f)?;
    put(out, b";\n")
}

fn put_null(out: &mut Vec<u8>, p: Buf) -> Result<(), AllocError>
    ensures { OnOk result (out.new.items ≡ out.old.items ++ stmt_text (CStmt.SetBuf p None)) }
{
    put_buf(out, p)?;
    put(out, b" = 0;\n")
}

fn put_same_buf(out: &mut Vec<u8>, p: Buf, q: Buf) -> Result<(), AllocError>
    ensures { OnOk result (out.new.items ≡ out.old.items ++ stmt_text (CStmt.SetBuf p (Some q))) }
{
    put_buf(out, p)?;
    put(out, b" = ")?;
    put_buf(out, q)?;
    put(out, b";\n")
}

fn put_cells(out: &mut Vec<u8>, p: Buf, e: &CExpr) -> Result<(), AllocError>
    ensures { OnOk result (out.new.items ≡ out.old.items ++ stmt_text (CStmt.Cells p e.now)) }
{
    put_buf(out, p)?;
    put_last(out, b" = cells(", e)
}

fn put_free(out: &mut Vec<u8>, p: Buf) -> Result<(), AllocError>
    ensures { OnOk result (out.new.items ≡ out.old.items ++ stmt_text (CStmt.Free p)) }
{
    put(out, b"drop(")?;
    put_buf(out, p)?;
    put(out, b");\n")
}

fn put_check(out: &mut Vec<u8>, x: Int, op: Checked, e: &CExpr, f: &CExpr) -> Result<(), AllocError>
    ensures { OnOk result (out.new.items ≡ out.old.items ++ stmt_text (CStmt.Check x op e.now f.now)) }
{
    put_int(out, x)?;
    put(out, checked_bytes(op))?;
    put_expr(out, e)?;
    put_last(out, b", ", f)
}

fn put_width(out: &mut Vec<u8>, x: Int, e: &CExpr) -> Result<(), AllocError>
    ensures { OnOk result (out.new.items ≡ out.old.items ++ stmt_text (CStmt.Width x e.now)) }
{
    put_int(out, x)?;
    put_last(out, b" = width(", e)
}

fn put_put_num(out: &mut Vec<u8>, e: &CExpr, f: &CExpr) -> Result<(), AllocError>
    ensures { OnOk result (out.new.items ≡ out.old.items ++ stmt_text (CStmt.PutNum e.now f.now)) }
{
    put(out, b"put_num(")?;
    put_expr(out, e)?;
    put_last(out, b", ", f)
}

#[cycle(stmts)]
#[tactic(auto, using(crate::proofs::Equations::texts))]
fn put_stmt(out: &mut Vec<u8>, s: &CStmt) -> Result<(), AllocError>
    ensures { OnOk result (out.new.items ≡ out.old.items ++ stmt_text s.now) }
{
    match s {
        CStmt::Set(x, e) => put_set(out, *x, e),
        CStmt::SetCell(p, e, f) => put_set_cell(out, *p, e, f),
        CStmt::SetBuf(p, None) => put_null(out, *p),
        CStmt::SetBuf(p, Some(q)) => put_same_buf(out, *p, *q),
        CStmt::Cells(p, e) => put_cells(out, *p, e),
        CStmt::Free(p) => put_free(out, *p),
        CStmt::Check(x, op, e, f) => put_check(out, *x, *op, e, f),
        CStmt::Width(x, e) => put_width(out, *x, e),
        CStmt::PutNum(e, f) => put_put_num(out, e, f),
        CStmt::PutChar(e) => put_last(out, b"put_char(", e),
        CStmt::ReadText(p) => put_read_text(out, *p),
        CStmt::ReadNums(p) => put_read_nums(out, *p),
        CStmt::ReadCount(x) => put_read_count(out, *x),
        CStmt::At(name, line) => put_at(out, name.as_slice(), *line),
        CStmt::Enter => put(out, b"enter();\n"),
        CStmt::Leave => put(out, b"leave();\n"),
        CStmt::Fault(kind) => put_fault(out, *kind),
        CStmt::Call(function) => put_call(out, *function),
        CStmt::Return => put(out, b"return;\n"),
        CStmt::If(e, a, None) => {
            put_condition(out, b"if (", e)?;
            put_stmts(out, a.as_slice())?;
            put(out, b"}\n")
        }
        CStmt::If(e, a, Some(o)) => {
            put_condition(out, b"if (", e)?;
            put_stmts(out, a.as_slice())?;
            put(out, b"} else {\n")?;
            put_stmts(out, o.as_slice())?;
            put(out, b"}\n")
        }
        CStmt::While(e, a) => {
            put_condition(out, b"while (", e)?;
            put_stmts(out, a.as_slice())?;
            put(out, b"}\n")
        }
        CStmt::Switch(x, arms, d) => {
            put(out, b"switch (")?;
            put_int(out, *x)?;
            put(out, b") {\n")?;
            put_arms(out, arms.as_slice())?;
            put(out, b"default: {\n")?;
            put_stmts(out, d.as_slice())?;
            put(out, b"} break;\n}\n")
        }
    }
}

#[cycle(stmts)]
pub(crate) fn put_stmts(out: &mut Vec<u8>, body: &[CStmt]) -> Result<(), AllocError>
    ensures { OnOk result (out.new.items ≡ out.old.items ++ stmts_text body.now) }
{
    for s in body {
        put_stmt(out, s)?;
    }
    Ok(())
}

#[cycle(stmts)]
fn put_arm(out: &mut Vec<u8>, arm: &Arm) -> Result<(), AllocError>
    ensures { OnOk result (out.new.items ≡ out.old.items ++ arm_text arm.now) }
{
    put(out, b"case ")?;
    put_signed(out, arm.value)?;
    put(out, b": {\n")?;
    put_stmts(out, arm.body.as_slice())?;
    put(out, b"} break;\n")
}

#[cycle(stmts)]
fn put_arms(out: &mut Vec<u8>, arms: &[Arm]) -> Result<(), AllocError>
    ensures { OnOk result (out.new.items ≡ out.old.items ++ arms_text arms.now) }
{
    for arm in arms {
        put_arm(out, arm)?;
    }
    Ok(())
}
