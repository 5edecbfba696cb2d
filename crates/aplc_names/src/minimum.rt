//! Refusals that hang on a test.
//! It must not know why anything is refused.

ghost use Rattle.std.specs.Prelude.{◌≡◌};
ghost use Rattle.aplc_lex.specs.Firsts.{earlier, comes_before};
ghost use Rattle.aplc_names.specs.Firsts.{refused_if};

use aplc_lex::Refusal;

/// A refusal where the test holds.
pub fn refused_if(test: bool, number: u8, place: u64) -> Option<Refusal>
    ensures { result ≡ refused_if test number place }
{
    if test {
        Some(Refusal { number, place })
    } else {
        None
    }
}
