//! Elements that scalar functions make of elements.
//! They must not know at which place they stand, nor what their arguments are.

ghost use Rattle.std.specs.Prelude.{◌≡◌, max, IsTrue};
ghost use Rattle.aplc_scalar.specs.Scalar.{dyadic, monadic, is_dyadic, is_monadic};
ghost use Rattle.aplc_cprof.specs.Emitted.{joint};
ghost use Rattle.aplc_collect.specs.Scalars.{dyad_steps, dyad_depth, mono_steps, mono_depth};
ghost use Rattle.aplc_collect.specs.Fused.{dyad_test, steps_of_two, mono_test, steps_of_one};
ghost use Rattle.aplc_collect.specs.FusedLaws.{dyad_reads, dyad_numbers, mono_reads, mono_numbers};

use crate::dyadic::dyad_code;
use crate::element::ElementCode;
use crate::monadic::mono_code;
use aplc_cprof::{Builder, Int};
use aplc_scalar::ScalarFn;
use std::alloc::{AllocError, Global};

/// A function of two elements, of which the right one is computed first.
#[derive(Drop)]
pub struct Dyad<L, R> {
    pub f: ScalarFn,
    ghost form: { IsTrue (is_dyadic f) },
    pub left: L,
    pub right: R,
}

impl<L: ElementCode, R: ElementCode> ElementCode for Dyad<L, R> {
    ghost test = { λ x. dyad_test (dyadic x.f) (L.test x.left) (R.test x.right) };

    ghost steps = { λ x. steps_of_two (dyad_steps x.f) (L.steps x.left) (R.steps x.right) };

    ghost given = { λ x. joint (L.given x.left) (R.given x.right) };

    ghost depth = { λ x. max (max (L.depth x.left) (R.depth x.right)) dyad_depth };

    ghost reads = { λ x. dyad_reads (dyadic x.f) (dyad_steps x.f) (L.given x.left) (R.given x.right) (L.test x.left) (R.test x.right) (L.steps x.left) (R.steps x.right) (L.reads x.left) (R.reads x.right) };

    ghost numbers = { λ x. dyad_numbers x.f (L.test x.left) (R.test x.right) (L.numbers x.left) (R.numbers x.right) };

    fn emit(&mut self, alloc: Global, b: &mut Builder, at: &[Int]) -> Result<Int, AllocError> {
        let right = self.right.emit(alloc, b, at)?;
        let left = self.left.emit(alloc, b, at)?;
        dyad_code(alloc, b, self.f, left, right)
    }
}

/// A function of one element.
#[derive(Drop)]
pub struct Mono<A> {
    pub f: ScalarFn,
    ghost form: { IsTrue (is_monadic f) },
    pub argument: A,
}

impl<A: ElementCode> ElementCode for Mono<A> {
    ghost test = { λ x. mono_test (monadic x.f) (A.test x.argument) };

    ghost steps = { λ x. steps_of_one mono_steps (A.steps x.argument) };

    ghost given = { λ x. A.given x.argument };

    ghost depth = { λ x. max (A.depth x.argument) mono_depth };

    ghost reads = { λ x. mono_reads (monadic x.f) mono_steps (A.given x.argument) (A.test x.argument) (A.steps x.argument) (A.reads x.argument) };

    ghost numbers = { λ x. mono_numbers x.f (A.test x.argument) (A.numbers x.argument) };

    fn emit(&mut self, alloc: Global, b: &mut Builder, at: &[Int]) -> Result<Int, AllocError> {
        let a = self.argument.emit(alloc, b, at)?;
        mono_code(alloc, b, self.f, a)
    }
}
