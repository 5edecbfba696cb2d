//! The test whether a program is well formed.
//! It must not know what a program means, nor who built it.

ghost use Rattle.std.specs.Prelude.{◌≡◌, Some, IsTrue, All};
ghost use Rattle.aplc_cprof.specs.WellFormed.{IsWellFormed, declared, is_int, is_buf, is_source, is_expr, is_stmt, are_stmts, is_function};

use aplc_cprof::{Buf, CExpr, CFunction, CProgram, CStmt, Int};
use sqlite_items::Items;

fn is_int(p: &CProgram, f: &CFunction, x: Int) -> bool
    ensures { result ≡ is_int (declared p.now f.now) x }
{
    match x {
        Int::Local(n) => n < f.ints,
        Int::Global(n) => n < p.ints,
    }
}

fn is_buf(p: &CProgram, f: &CFunction, b: Buf) -> bool
    ensures { result ≡ is_buf (declared p.now f.now) b }
{
    match b {
        Buf::Local(n) => n < f.bufs,
        Buf::Global(n) => n < p.bufs,
    }
}

#[tactic(auto, using(aplc_cprof::proofs::Forms::expr_forms))]
fn is_expr(p: &CProgram, f: &CFunction, e: &CExpr, room: u32) -> bool
    ensures { IsTrue result → IsTrue (is_expr (declared p.now f.now) e.now (Some room)) }
{
    match e {
        CExpr::Lit(n) => *n >= 0,
        CExpr::Var(x) => is_int(p, f, *x),
        CExpr::Cell(b, at) => is_buf(p, f, *b) && room > 0 && is_expr(p, f, at.get(), room - 1),
        CExpr::Table(_, _) => false,
        CExpr::Bin(_, x, y) => {
            room > 0 && is_expr(p, f, x.get(), room - 1) && is_expr(p, f, y.get(), room - 1)
        }
    }
}

fn is_source(p: &CProgram, f: &CFunction, source: Option<Buf>) -> bool
    ensures { result ≡ is_source (declared p.now f.now) source }
{
    match source {
        None => true,
        Some(b) => is_buf(p, f, b),
    }
}

#[cycle(stmts)]
#[tactic(auto, using(aplc_cprof::proofs::Forms::forms))]
fn is_stmt(p: &CProgram, f: &CFunction, s: &CStmt, room: u32) -> bool
    ensures { IsTrue result → IsTrue (is_stmt (declared p.now f.now) s.now (Some room)) }
{
    match s {
        CStmt::Set(x, e) => is_int(p, f, *x) && is_expr(p, f, e, room),
        CStmt::SetCell(b, at, e) => {
            is_buf(p, f, *b) && is_expr(p, f, at, room) && is_expr(p, f, e, room)
        }
        CStmt::SetBuf(b, source) => is_buf(p, f, *b) && is_source(p, f, *source),
        CStmt::Cells(b, e) => is_buf(p, f, *b) && is_expr(p, f, e, room),
        CStmt::Free(b) => is_buf(p, f, *b),
        CStmt::Check(x, _, a, b) => {
            is_int(p, f, *x) && is_expr(p, f, a, room) && is_expr(p, f, b, room)
        }
        CStmt::Width(x, e) => is_int(p, f, *x) && is_expr(p, f, e, room),
        CStmt::PutNum(e, w) => is_expr(p, f, e, room) && is_expr(p, f, w, room),
        CStmt::PutChar(e) => is_expr(p, f, e, room),
        CStmt::ReadNums(b) => is_buf(p, f, *b),
        CStmt::ReadCount(x) => is_int(p, f, *x),
        CStmt::Fault(_) => true,
        CStmt::If(e, a, otherwise) => {
            if room == 0 || !is_expr(p, f, e, room) {
                return false;
            }
            if !are_stmts(p, f, a.as_slice(), room - 1) {
                return false;
            }
            match otherwise {
                None => true,
                Some(o) => are_stmts(p, f, o.as_slice(), room - 1),
            }
        }
        CStmt::While(e, a) => {
            if room == 0 || !is_expr(p, f, e, room) {
                return false;
            }
            are_stmts(p, f, a.as_slice(), room - 1)
        }
        _ => false,
    }
}

#[cycle(stmts)]
fn are_stmts(p: &CProgram, f: &CFunction, ss: &[CStmt], room: u32) -> bool
    ensures { IsTrue result → All (λ s. IsTrue (is_stmt (declared p.now f.now) s (Some room))) ss.now }
{
    for s in ss {
        if !is_stmt(p, f, s, room) {
            return false;
        }
    }
    true
}

/// How many braces, brackets and parentheses of a function may be open at once.
const MOST_OPEN: u32 = 256;

fn is_function(p: &CProgram, f: &CFunction) -> bool
    ensures { IsTrue result → IsTrue (is_function (declared p.now f.now) (Some 256) f.now) }
{
    let _ints = f.ints;
    let _bufs = f.bufs;
    are_stmts(p, f, f.body.as_slice(), MOST_OPEN)
}

/// Whether a program of one function without tables, marks and switches is well formed. Others are not told.
pub fn is_well_formed(p: &CProgram) -> bool
    ensures { IsTrue result → IsWellFormed p.now }
{
    let _ints = p.ints;
    let _bufs = p.bufs;
    let tables = p.tables.as_slice();
    if tables.len() != 0 {
        return false;
    }
    let functions = p.functions.as_slice();
    if functions.len() != 1 {
        return false;
    }
    is_function(p, &functions[0])
}
