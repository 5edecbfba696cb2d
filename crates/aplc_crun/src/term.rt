//! Expressions as they are laid out: the common ones hold whole variables and literals in place.
//! It must not know what they are worth.

ghost use Rattle.std.specs.Prelude.{◌≡◌, IfOk, IfSome};
ghost use Rattle.aplc_crun.specs.Terms.{leaf_of, expr_of, IsTerm};

use aplc_cprof::{Buf, CExpr, Int, Op};
use sqlite_items::Boxed;
use std::alloc::{AllocError, Global};

/// An expression with no parts.
#[derive(Clone, Copy, Debug, PartialEq, Eq)]
pub enum Operand {
    Lit(i64),
    Local(u32),
    Global(u32),
}

/// An expression.
#[derive(Drop)]
pub enum Term {
    Leaf(Operand),
    Both(Op, Operand, Operand),
    Cell(Buf, Operand),
    Other(CExpr),
}

fn as_operand(e: &CExpr) -> Option<Operand>
    ensures { IfSome result (λ o. leaf_of o ≡ e.now) }
{
    match e {
        CExpr::Lit(n) => Some(Operand::Lit(*n)),
        CExpr::Var(Int::Local(n)) => Some(Operand::Local(*n)),
        CExpr::Var(Int::Global(n)) => Some(Operand::Global(*n)),
        _ => None,
    }
}

fn copy(alloc: Global, e: &CExpr) -> Result<CExpr, AllocError>
    ensures { IfOk result (λ c. c ≡ e.now) }
{
    match e {
        CExpr::Lit(n) => Ok(CExpr::Lit(*n)),
        CExpr::Var(x) => Ok(CExpr::Var(*x)),
        CExpr::Cell(p, e) => {
            let e = copy(alloc, e.get())?;
            Ok(CExpr::Cell(*p, Boxed::new(alloc, e)?))
        }
        CExpr::Table(k, e) => {
            let e = copy(alloc, e.get())?;
            Ok(CExpr::Table(*k, Boxed::new(alloc, e)?))
        }
        CExpr::Bin(op, a, b) => {
            let a = copy(alloc, a.get())?;
            let b = copy(alloc, b.get())?;
            Ok(CExpr::Bin(*op, Boxed::new(alloc, a)?, Boxed::new(alloc, b)?))
        }
    }
}

/// The expression, where its parts are operands.
fn as_small(e: &CExpr) -> Option<Term>
    ensures { IfSome result (λ t. expr_of t ≡ e.now) }
{
    match e {
        CExpr::Bin(op, a, b) => {
            let a = as_operand(a.get())?;
            let b = as_operand(b.get())?;
            Some(Term::Both(*op, a, b))
        }
        CExpr::Cell(p, e) => {
            let e = as_operand(e.get())?;
            Some(Term::Cell(*p, e))
        }
        CExpr::Table(_, _) => None,
        CExpr::Lit(n) => Some(Term::Leaf(Operand::Lit(*n))),
        CExpr::Var(Int::Local(n)) => Some(Term::Leaf(Operand::Local(*n))),
        CExpr::Var(Int::Global(n)) => Some(Term::Leaf(Operand::Global(*n))),
    }
}

/// A copy of an expression, laid out.
pub fn laid_term(alloc: Global, e: &CExpr) -> Result<Term, AllocError>
    ensures { IfOk result (λ t. IsTerm e.now t) }
{
    match as_small(e) {
        Some(t) => Ok(t),
        None => {
            let e = copy(alloc, e)?;
            Ok(Term::Other(e))
        }
    }
}
