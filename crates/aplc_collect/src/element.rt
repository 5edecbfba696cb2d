//! Code for the elements of an array.
//! It must not know what is done with them.

ghost use Rattle.std.specs.Prelude.{◌≡◌, ℕ, IfOk};
ghost use Rattle.aplc_cprof.specs.WellFormed.{Scope};
ghost use Rattle.aplc_cprof.specs.Blocks.{IsKept};
ghost use Rattle.aplc_cprof.specs.Frames.{AreOld, AreGiven};
ghost use Rattle.aplc_collect.specs.Elements.{Test, Steps, ReadsWithin, GivesInRange, Emits, scope_of, scalar_test, one_step};
ghost use Rattle.aplc_collect.specs.ElementLaws.{scalar_reads, scalar_numbers};

use aplc_cprof::{Builder, CExpr, CStmt, Int};
use std::alloc::{AllocError, Global};

/// Whatever emits code for the element of an array at a multi-index.
pub trait ElementCode {
    /// The element at a multi-index of the array for which the code stands in a state: a number or a fault.
    ghost test: { Self → Test };

    /// The most steps that the code of an element takes from a state.
    ghost steps: { Self → Steps };

    /// The names that it looks at: those below these numbers.
    ghost given: { Self → Scope };

    /// How deep its code nests.
    ghost depth: { Self → ℕ };

    /// Adds code that sets a fresh variable to the element at the multi-index that the variables `at` hold, or that
    /// ends with the element's fault.
    fn emit(&mut self, alloc: Global, b: &mut Builder, at: &[Int]) -> Result<Int, AllocError>
        requires places { AreOld b.old.ints at.now }
        requires given { AreGiven (given self.old) b.old }
        ensures emits { IfOk result (λ v. Emits (test self.old) (steps self.old) (given self.old) (depth self.old) b.old b.new at.now v) }
        ensures kept { IsKept b.old b.new }
        ensures same { (test self.new ≡ test self.old) × (steps self.new ≡ steps self.old) × (given self.new ≡ given self.old) × (depth self.new ≡ depth self.old) };

    /// It looks at nothing but these names and their buffers.
    ghost reads: { (x : Self) → ReadsWithin (given x) (test x) (steps x) };

    /// Each number is one of the machine's.
    ghost numbers: { (x : Self) → GivesInRange (test x) };
}

/// The number in a variable, at every multi-index: an argument of rank 0.
#[derive(Drop)]
pub struct ScalarElement {
    pub variable: Int,
}

impl ElementCode for ScalarElement {
    ghost test = { λ x. scalar_test x.variable };

    ghost steps = { λ x. one_step };

    ghost given = { λ x. scope_of x.variable };

    ghost depth = { λ x. 0 };

    ghost reads = { λ x. scalar_reads x.variable };

    ghost numbers = { λ x. scalar_numbers x.variable };

    fn emit(&mut self, _alloc: Global, b: &mut Builder, _at: &[Int]) -> Result<Int, AllocError> {
        let v = b.fresh_int()?;
        b.emit(CStmt::Set(v, CExpr::Var(self.variable)))?;
        Ok(v)
    }
}
