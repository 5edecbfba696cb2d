//! What the definitions promise, for those who build on them.
//! It must not hold code that runs.

ghost use Rattle.std.specs.Prelude.{◌≡◌, ◌⊎◌, ℕ, List};
ghost use Rattle.aplc_lex.specs.Firsts.{IsFirst};
ghost use Rattle.aplc_lex.specs.Tokens.{AreTokens};
ghost use Rattle.aplc_lex.specs.declared.token.Token.{Token};
ghost use Rattle.aplc_lex.specs.declared.token.Refusal.{Refusal};
ghost use Rattle.aplc_syntax.specs.Programs.{IsProgramOf, IsStatement};
ghost use Rattle.aplc_syntax.specs.Refusals.{Stands};
ghost use Rattle.aplc_syntax.specs.declared.tree.Program.{Program};
ghost use Rattle.aplc_syntax.specs.declared.tree.Statement.{Statement};
ghost use Rattle.aplc_syntax.specs.declared.word.Word.{Word};

/// Words are one statement at most.
pub fn one_statement()
    ensures { (text : List ℕ) (ws : List Word) (a b : Statement) → IsStatement text ws a → IsStatement text ws b → a ≡ b }
{}

/// A text and its tokens have one program at most.
pub fn one_program()
    ensures { (text : List ℕ) (ts : List Token) (p q : Program) → IsProgramOf text ts p → IsProgramOf text ts q → p ≡ q }
{}

/// A text and its tokens that have a program are not refused.
pub fn program_or_refusal()
    ensures { (text : List ℕ) (ts : List Token) (p : Program) (r : Refusal) → IsProgramOf text ts p → Stands text ts r → ⊥ }
{}

/// A text and its tokens have a program, or a first refusal.
pub fn always_one()
    ensures { (text : List ℕ) (ts : List Token) → AreTokens text ts → ((p : Program) × IsProgramOf text ts p) ⊎ ((r : Refusal) × IsFirst (Stands text ts) r) }
{}

/// A text and its tokens have one first refusal at most.
pub fn one_refusal()
    ensures { (text : List ℕ) (ts : List Token) (r s : Refusal) → IsFirst (Stands text ts) r → IsFirst (Stands text ts) s → r ≡ s }
{}
