//! Steppers, and the code of their elements.
//! They must not know how base and strides came about.

ghost use Rattle.std.specs.Prelude.{◌≡◌, ◌+◌, IfOk, length};
ghost use Rattle.aplc_cprof.specs.Blocks.{IsKept};
ghost use Rattle.aplc_cprof.specs.Frames.{AreGiven, AreOld};
ghost use Rattle.aplc_collect.specs.Elements.{Emits, one_step};
ghost use Rattle.aplc_step.specs.Steppers.{stepper_test, stepper_scope, origin_expr, address_expr};
ghost use Rattle.aplc_step.specs.StepperLaws.{stepper_reads, stepper_numbers};

use crate::place::place;
use aplc_collect::ElementCode;
use aplc_cprof::{Buf, Builder, CExpr, CStmt, Int, List};
use sqlite_items::Boxed;
use std::alloc::{AllocError, Global};

/// Where the cells stand.
#[derive(Clone, Copy, Debug, PartialEq, Eq)]
pub enum Origin {
    Buffer(Buf),
    Table(u32),
}

/// The variables of an array's lengths, and those that say where its elements stand: the cell at the base and each
/// stride times its index.
#[derive(Drop)]
pub struct Stepper {
    pub from: Origin,
    pub lengths: List<Int>,
    pub base: Int,
    pub strides: List<Int>,
}

fn cell(alloc: Global, from: Origin, at: CExpr) -> Result<CExpr, AllocError>
    ensures { IfOk result (λ e. e ≡ origin_expr from at) }
{
    let at = Boxed::new(alloc, at)?;
    match from {
        Origin::Buffer(p) => Ok(CExpr::Cell(p, at)),
        Origin::Table(k) => Ok(CExpr::Table(k, at)),
    }
}

/// Adds code that sets a fresh variable to the element at the multi-index that the variables `at` hold.
pub fn element(alloc: Global, b: &mut Builder, s: &Stepper, at: &[Int]) -> Result<Int, AllocError>
    requires places { AreOld b.old.ints at.now }
    requires given { AreGiven (stepper_scope s.now.from s.now.base s.now.strides) b.old }
    ensures emits { IfOk result (λ v. Emits (stepper_test s.now.from s.now.base s.now.strides) one_step (stepper_scope s.now.from s.now.base s.now.strides) (2 + length s.now.strides) b.old b.new at.now v) }
    ensures kept { IsKept b.old b.new }
{
    let v = b.fresh_int()?;
    let place = place(alloc, s.base, s.strides.as_slice(), at)?;
    let value = cell(alloc, s.from, place)?;
    b.emit(CStmt::Set(v, value))?;
    Ok(v)
}

impl ElementCode for Stepper {
    ghost test = { λ x. stepper_test x.from x.base x.strides };

    ghost steps = { λ x. one_step };

    ghost given = { λ x. stepper_scope x.from x.base x.strides };

    ghost depth = { λ x. 2 + length x.strides };

    ghost reads = { λ x. stepper_reads x.from x.base x.strides };

    ghost numbers = { λ x. stepper_numbers x.from x.base x.strides };

    fn emit(&mut self, alloc: Global, b: &mut Builder, at: &[Int]) -> Result<Int, AllocError> {
        element(alloc, b, self, at)
    }
}
