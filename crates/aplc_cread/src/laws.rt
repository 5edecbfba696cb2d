//! Laws of the definitions alone.
//! They must not say what a call does.

ghost use Rattle.std.specs.Prelude.{◌≡◌, ℕ, List};
ghost use Rattle.aplc_cread.specs.declared.answer.CRefusal.{CRefusal};
ghost use Rattle.aplc_cread.specs.Refusal.{IsRefused};

/// Bytes that are no text have one place and one number.
#[tactic(auto, using(crate::proofs::Answering::one_refused))]
pub fn one_refusal()
    ensures { (bytes : List ℕ) (r s : CRefusal) → IsRefused bytes r → IsRefused bytes s → r ≡ s }
{}
