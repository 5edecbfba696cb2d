//! What the definitions promise, for those who build on them.
//! It must not hold code that runs.

ghost use Rattle.std.specs.Prelude.{◌≡◌, ◌⊎◌, ℕ};
ghost use Rattle.aplc_lex.specs.declared.token.Refusal.{Refusal};
ghost use Rattle.aplc_lex.specs.Firsts.{IsFirst};
ghost use Rattle.aplc_syntax.specs.declared.tree.Program.{Program};
ghost use Rattle.aplc_names.specs.Clashes.{Stands};
ghost use Rattle.aplc_names.specs.Programs.{IsClean};
ghost use Rattle.aplc_names.specs.Scopes.{scope_of, IsScope};

/// A program that nothing refuses has no first refusal.
pub fn clean_or_refusal()
    ensures { (p : Program) (r : Refusal) → IsClean p → IsFirst (Stands p) r → ⊥ }
{}

/// Nothing refuses a program, or it has a first refusal.
pub fn always_one()
    ensures { (p : Program) → IsClean p ⊎ ((r : Refusal) × IsFirst (Stands p) r) }
{}

/// A program has one first refusal at most.
pub fn one_refusal()
    ensures { (p : Program) (r s : Refusal) → IsFirst (Stands p) r → IsFirst (Stands p) s → r ≡ s }
{}

/// A function that a scope gives is one of the program's, and has the name; so has the line of a label its label.
pub fn every_scope()
    ensures { (p : Program) (i n : ℕ) → IsScope p i n (scope_of p i n) }
{}
