//! Laws of the definitions alone.
//! They must not say what a call does.

ghost use Rattle.std.specs.Prelude.{◌≡◌, ℕ, List};
ghost use Rattle.aplc_cprof.specs.declared.syntax.CProgram.{CProgram};
ghost use Rattle.aplc_cprof.specs.Blocks.{Blocks, IsKept};
ghost use Rattle.aplc_cprof.specs.WellFormed.{IsText};

/// A text is that of one well formed program, and a program has one text.
#[tactic(auto, using(crate::proofs::WellFormedPlain::program_of_text, crate::proofs::WellFormedPlain::text_of_program))]
pub fn one_program()
    ensures one_program { (bytes : List ℕ) (p q : CProgram) → IsText bytes p → IsText bytes q → p ≡ q }
    ensures one_text { (a b : List ℕ) (p : CProgram) → IsText a p → IsText b p → a ≡ b }
{}

/// What a builder keeps over each of two calls it keeps over both.
#[tactic(auto, using(crate::proofs::Kept::kept_same, crate::proofs::Kept::kept_trans))]
pub fn kept_calls()
    ensures none { (a : Blocks) → IsKept a a }
    ensures both { (a b c : Blocks) → IsKept a b → IsKept b c → IsKept a c }
{}
