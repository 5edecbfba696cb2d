//! What the definitions promise, for those who build on them.
//! It must not hold code that runs.

ghost use Rattle.std.specs.Prelude.{◌≡◌, ◌⊎◌, ℕ, List};
ghost use Rattle.aplc_lex.specs.declared.token.Token.{Token};
ghost use Rattle.aplc_lex.specs.declared.token.Refusal.{Refusal};
ghost use Rattle.aplc_lex.specs.Tokens.{AreTokens, IsCause, IsFirst};

/// A text has one list of tokens at most.
pub fn one_list()
    ensures { (text : List ℕ) (ts us : List Token) → AreTokens text ts → AreTokens text us → ts ≡ us }
{}

/// A text that has tokens is not refused.
pub fn tokens_or_refusal()
    ensures { (text : List ℕ) (ts : List Token) (r : Refusal) → AreTokens text ts → IsCause text r → ⊥ }
{}

/// A text has tokens, or a first refusal.
pub fn always_one()
    ensures { (text : List ℕ) → ((ts : List Token) × AreTokens text ts) ⊎ ((r : Refusal) × IsFirst text r) }
{}

/// A text has one first refusal at most.
pub fn one_refusal()
    ensures { (text : List ℕ) (r s : Refusal) → IsFirst text r → IsFirst text s → r ≡ s }
{}
