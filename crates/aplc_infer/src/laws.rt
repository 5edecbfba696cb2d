//! What the definitions promise, for those who build on them.
//! It must not hold code that runs.

ghost use Rattle.std.specs.Prelude.{◌≡◌, ◌⊎◌};
ghost use Rattle.aplc_lex.specs.declared.token.Refusal.{Refusal};
ghost use Rattle.aplc_syntax.specs.declared.tree.Program.{Program};
ghost use Rattle.aplc_infer.specs.declared.rule_break.RuleBreak.{RuleBreak};
ghost use Rattle.aplc_infer.specs.Rules.{number_of};
ghost use Rattle.aplc_infer.specs.Families.{IsWellTyped, StandsFirst};

/// A program that is well typed has no first refusal.
pub fn typed_or_refused()
    ensures { (p : Program) (r : Refusal) → IsWellTyped p → StandsFirst p r → ⊥ }
{}

/// A program is well typed, or it has a first refusal.
pub fn always_one()
    ensures { (p : Program) → IsWellTyped p ⊎ ((r : Refusal) × StandsFirst p r) }
{}

/// A program has one first refusal at most.
pub fn one_refusal()
    ensures { (p : Program) (r s : Refusal) → StandsFirst p r → StandsFirst p s → r ≡ s }
{}

/// The number of a first refusal is that of what was broken.
pub fn refusals_have_reasons()
    ensures { (p : Program) (r : Refusal) → StandsFirst p r → (e : RuleBreak) × (r.number ≡ number_of e) }
{}
