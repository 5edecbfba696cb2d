//! Small expressions, and loops that count.
//! They must not know what they are built for.

ghost use Rattle.std.specs.Prelude.{◌≡◌, ◌<◌, OnOk, IfOk, length};
ghost use Rattle.aplc_cprof.specs.Blocks.{IsKept};
ghost use Rattle.aplc_cprof.specs.Emitted.{on_values, plus_one, less, loop_begun, LoopEnded, IsKeptRound};

use crate::{Builder, CExpr, CStmt, Int, Op};
use sqlite_items::Boxed;
use std::alloc::{AllocError, Global};

/// An operation on the values of two expressions.
pub fn binary(alloc: Global, o: Op, left: CExpr, right: CExpr) -> Result<CExpr, AllocError>
    ensures { IfOk result (λ e. e ≡ CExpr.Bin o left right) }
{
    let left = Boxed::new(alloc, left)?;
    let right = Boxed::new(alloc, right)?;
    Ok(CExpr::Bin(o, left, right))
}

/// An operation on the values of two variables.
pub fn on_values(alloc: Global, o: Op, x: Int, y: Int) -> Result<CExpr, AllocError>
    ensures { IfOk result (λ e. e ≡ on_values o x y) }
{
    binary(alloc, o, CExpr::Var(x), CExpr::Var(y))
}

/// A variable's value and one more.
pub fn plus_one(alloc: Global, x: Int) -> Result<CExpr, AllocError>
    ensures { IfOk result (λ e. e ≡ plus_one x) }
{
    binary(alloc, Op::Add, CExpr::Var(x), CExpr::Lit(1))
}

/// Whether a variable's value is below another's.
pub fn less(alloc: Global, x: Int, y: Int) -> Result<CExpr, AllocError>
    ensures { IfOk result (λ e. e ≡ less x y) }
{
    on_values(alloc, Op::Less, x, y)
}

impl Builder {
    /// Begins a loop with a counter of its own, which is 0 at first. The body is what is added from now on.
    pub fn begin_loop(&mut self) -> Result<Int, AllocError>
        ensures name { IfOk result (λ i. i ≡ Int.Local self.old.ints) }
        ensures begun { OnOk result (self.new ≡ loop_begun self.old) }
        ensures below { OnOk result (self.old.ints < 4294967295) }
        ensures kept { IsKept self.old self.new }
    {
        let i = self.fresh_int()?;
        self.emit(CStmt::Set(i, CExpr::Lit(0)))?;
        self.open()?;
        Ok(i)
    }

    /// Ends the innermost block as the body of a loop, which is done while the counter is below the bound.
    pub fn end_loop(&mut self, alloc: Global, i: Int, bound: Int) -> Result<(), AllocError>
        requires { 0 < length self.old.outer }
        ensures ended { OnOk result (LoopEnded i bound self.old self.new) }
        ensures kept { IsKeptRound self.old self.new }
    {
        let next = plus_one(alloc, i)?;
        let more = less(alloc, i, bound)?;
        self.emit(CStmt::Set(i, next))?;
        let body = self.close();
        self.emit(CStmt::While(more, body))
    }
}
