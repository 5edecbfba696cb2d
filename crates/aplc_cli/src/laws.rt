//! Laws of the definitions alone.
//! They must not say what a call does.

ghost use Rattle.std.specs.Prelude.{◌≡◌, ◌⊎◌, ◌≤◌, ℕ, List, length, IsSome};
ghost use Rattle.aplc_lex.specs.declared.token.Refusal.{Refusal};
ghost use Rattle.aplc_syntax.specs.declared.tree.Program.{Program};
ghost use Rattle.aplc_cprof.specs.declared.syntax.CProgram.{CProgram};
ghost use Rattle.aplc_cprof.specs.WellFormed.{IsText};
ghost use Rattle.aplc_cli.specs.declared.words.Action.{Action};
ghost use Rattle.aplc_cli.specs.Sources.{IsSource, IsRefusedSource};
ghost use Rattle.aplc_cli.specs.Compiled.{text_limit, IsRefusedText, HasReason};
ghost use Rattle.aplc_cli.specs.Came.{refusal_word};

/// A file is one source at most.
pub fn one_source()
    ensures { (file : List ℕ) (p q : Program) → IsSource file p → IsSource file q → p ≡ q }
{}

/// A source is not refused.
pub fn source_or_refusal()
    ensures { (file : List ℕ) (p : Program) (r : Refusal) → IsSource file p → IsRefusedSource file r → ⊥ }
{}

/// A file has one refusal at most.
#[tactic(auto, using(crate::proofs::Verdicts::one_refusal))]
pub fn one_refusal()
    ensures { (file : List ℕ) (r s : Refusal) → IsRefusedSource file r → IsRefusedSource file s → r ≡ s }
{}

/// A file is a source, or it is refused.
pub fn every_file()
    ensures { (file : List ℕ) → ((p : Program) × IsSource file p) ⊎ ((r : Refusal) × IsRefusedSource file r) }
{}

/// A C text is that of one program at most.
pub fn one_text()
    ensures { (file : List ℕ) (p q : CProgram) → IsText file p → IsText file q → p ≡ q }
{}

/// A C text that is not too long is not refused.
pub fn text_or_refusal()
    ensures { (file : List ℕ) (p : CProgram) (r : Refusal) → length file ≤ text_limit → IsText file p → IsRefusedText file r → ⊥ }
{}

/// A file has one refusal as a C text at most.
pub fn one_text_refusal()
    ensures { (file : List ℕ) (r s : Refusal) → IsRefusedText file r → IsRefusedText file s → r ≡ s }
{}

/// No file is neither a C text, nor refused as one.
pub fn every_text()
    ensures { (file : List ℕ) → ((p : CProgram) → length file ≤ text_limit → IsText file p → ⊥) → ((r : Refusal) → IsRefusedText file r → ⊥) → ⊥ }
{}

/// Each refusal has a word, whatever is to be done with the file.
pub fn every_refusal_has_a_word()
    ensures { (action : Action) (file : List ℕ) (r : Refusal) → HasReason action file r → IsSome (refusal_word r.number) }
{}
