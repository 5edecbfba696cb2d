//! A builder of the statements of one function.
//! It must not know what the statements mean.

ghost use Rattle.std.specs.Prelude.{◌≡◌, ◌+◌, ◌<◌, ◌^◌, [], ◌∷◌, ◌++◌, OnOk, IfOk, OnErr, length, None, Some};
ghost use Rattle.aplc_cprof.specs.Blocks.{Blocks, no_blocks, IsKept};

use crate::{Buf, CFunction, CStmt, Int};
use sqlite_items::Items;
use std::alloc::{AllocError, Global};
use std::marker::Model;

/// The open blocks of a function, and the next names that are free.
#[derive(Drop)]
pub struct Builder {
    outer: Items<Items<CStmt>>,
    inner: Items<CStmt>,
    ints: u32,
    bufs: u32,
    alloc: Global,
}

impl Model for Builder {
    ghost use Rattle.std.specs.Coded.{codes, coded_list};
    ghost use Rattle.aplc_cprof.specs.contracts.syntax.CStmt as stmt;
    ghost use Rattle.aplc_cprof.specs.Blocks.{Blocks};

    ghost Value = { Blocks };

    ghost coded = { Prim.hlevel (codes, stmt.the_row.coded) };

    ghost view = { λ b. record { outer = b.outer; inner = b.inner; ints = b.ints; bufs = b.bufs } };
}

impl Builder {
    pub fn new(alloc: Global) -> Builder
        ensures { result ≡ no_blocks }
    {
        Builder {
            outer: Items::new(alloc),
            inner: Items::new(alloc),
            ints: 0,
            bufs: 0,
            alloc,
        }
    }

    /// A local whole variable that wasn't given before; `AllocError` where none is left.
    pub fn fresh_int(&mut self) -> Result<Int, AllocError>
        ensures name { IfOk result (λ x. x ≡ Int.Local self.old.ints) }
        ensures given { OnOk result (self.new ≡ record self.old { ints = self.old.ints + 1 }) }
        ensures below { OnOk result (self.old.ints < 4294967295) }
        ensures err { OnErr result (self.new ≡ self.old) }
        ensures kept { IsKept self.old self.new }
    {
        if self.ints == u32::MAX {
            return Err(AllocError);
        }
        let name = Int::Local(self.ints);
        self.ints += 1;
        Ok(name)
    }

    /// A local buffer variable that wasn't given before; `AllocError` where none is left.
    pub fn fresh_buf(&mut self) -> Result<Buf, AllocError>
        ensures name { IfOk result (λ p. p ≡ Buf.Local self.old.bufs) }
        ensures given { OnOk result (self.new ≡ record self.old { bufs = self.old.bufs + 1 }) }
        ensures below { OnOk result (self.old.bufs < 4294967295) }
        ensures err { OnErr result (self.new ≡ self.old) }
        ensures kept { IsKept self.old self.new }
    {
        if self.bufs == u32::MAX {
            return Err(AllocError);
        }
        let name = Buf::Local(self.bufs);
        self.bufs += 1;
        Ok(name)
    }

    /// Adds a statement to the innermost block.
    pub fn emit(&mut self, s: CStmt) -> Result<(), AllocError>
        ensures ok { OnOk result (self.new ≡ record self.old { inner = self.old.inner ++ s ∷ [] }) }
        ensures err { OnErr result (self.new ≡ self.old) }
        ensures kept { IsKept self.old self.new }
    {
        self.inner.push(s)
    }

    /// Begins a block.
    pub fn open(&mut self) -> Result<(), AllocError>
        ensures ok { OnOk result (self.new ≡ record self.old { outer = self.old.outer ++ self.old.inner ∷ []; inner = [] }) }
        ensures err { OnErr result (self.new ≡ self.old) }
        ensures kept { IsKept self.old self.new }
    {
        let around = self.outer.len();
        self.outer.push(Items::new(self.alloc))?;
        let inner = std::mem::replace(&mut self.inner, Items::new(self.alloc));
        self.outer.set(around, inner);
        Ok(())
    }

    /// Ends the innermost block.
    pub fn close(&mut self) -> Items<CStmt>
        requires { 0 < length self.old.outer }
        ensures block { result ≡ self.old.inner }
        ensures rest { self.old.outer ≡ self.new.outer ++ self.new.inner ∷ [] }
        ensures names { (self.new.ints ≡ self.old.ints) × (self.new.bufs ≡ self.old.bufs) }
    {
        match self.outer.pop() {
            Some(inner) => std::mem::replace(&mut self.inner, inner),
            None => unreachable!(),
        }
    }

    /// The function, of the statements of the block that was there from the start.
    pub fn finish(self) -> CFunction
        requires { self.outer ≡ [] }
        ensures { result ≡ record { ints = self.ints; bufs = self.bufs; body = self.inner } }
    {
        CFunction {
            ints: self.ints,
            bufs: self.bufs,
            body: self.inner,
        }
    }
}
