//! The first of two refusals.
//! It must not know what refusals say.

ghost use Rattle.std.specs.Prelude.{◌≡◌};
ghost use Rattle.aplc_lex.specs.Firsts.{comes_before, sooner, earlier};

use crate::token::Refusal;

fn comes_before(r: Refusal, s: Refusal) -> bool
    ensures { result ≡ comes_before r s }
{
    r.place < s.place || (r.place == s.place && r.number < s.number)
}

/// The one of two refusals that comes first: at the smaller place, or there with the smaller number.
pub fn sooner(r: Refusal, s: Refusal) -> Refusal
    ensures { result ≡ sooner r s }
{
    if comes_before(s, r) { s } else { r }
}

/// The first of two refusals, where there is one.
pub fn earlier(a: Option<Refusal>, b: Option<Refusal>) -> Option<Refusal>
    ensures { result ≡ earlier a b }
{
    match (a, b) {
        (first, None) => first,
        (None, second) => second,
        (Some(r), Some(s)) => Some(sooner(r, s)),
    }
}
