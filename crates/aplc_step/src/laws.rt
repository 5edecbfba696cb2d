//! Laws of the definitions alone.
//! They must not say what a call does.

ghost use Rattle.std.specs.Prelude.{◌≡◌, ◌≤◌, ◌^◌, ℕ, ℤ, List, Some, Ok, length, pos, slice_index_or};
ghost use Rattle.aplc_arr.specs.Arrays.{IsIndexOf};
ghost use Rattle.aplc_cprof.specs.declared.syntax.Int.{Int};
ghost use Rattle.aplc_cprof.specs.Machine.{State};
ghost use Rattle.aplc_cprof.specs.Frames.{AreOld, IsOld, Stays};
ghost use Rattle.aplc_step.specs.declared.stepper.Origin.{Origin};
ghost use Rattle.aplc_step.specs.Steppers.{cells_at, stepper_test, StepsOver, AreInRange};

/// Where base and strides go over an array, the element of their code is the cell at its place; and they still do where
/// all that stood before has stayed.
pub fn elements_by_steppers()
    ensures element { (from : Origin) (base : Int) (strides lengths : List Int) (tables : List (List ℤ)) (s : State) (ns is : List ℕ) (place : List ℕ → ℕ) (cells : List ℤ) → cells_at from tables s ≡ Some cells → length cells ≤ 2 ^ 31 → AreInRange cells → StepsOver lengths base strides s ns place (length cells) → IsIndexOf ns is → stepper_test from base strides tables s is ≡ Some (Ok (slice_index_or cells (place is) (pos 0))) }
    ensures stays { (n m size : ℕ) (base : Int) (strides lengths : List Int) (s t : State) (ns : List ℕ) (place : List ℕ → ℕ) → Stays n m s t → AreOld n lengths → IsOld n base → AreOld n strides → StepsOver lengths base strides s ns place size → StepsOver lengths base strides t ns place size }
{}
