//! The value of digits.
//! It must not know what the value counts.

ghost use Rattle.std.specs.Prelude.{◌≡◌};
ghost use Rattle.aplc_cli.specs.Digits.{is_digit, magnitude};

const LARGEST: u64 = 9_223_372_036_854_775_807;

fn is_digit(b: u8) -> bool
    ensures { result ≡ is_digit b }
{
    b'0' <= b && b <= b'9'
}

/// The value of digits. `None` where another byte is among them, where there is none, and above 9223372036854775807.
#[tactic(auto, using(crate::proofs::DigitSteps::steps))]
pub fn magnitude(digits: &[u8]) -> Option<u64>
    ensures { result ≡ magnitude digits.now }
{
    if digits.is_empty() {
        return None;
    }
    let mut value: u64 = 0;
    for b in digits {
        if !is_digit(*b) {
            return None;
        }
        if value > LARGEST / 10 {
            return None;
        }
        value = value * 10 + u64::from(*b - b'0');
        if value > LARGEST {
            return None;
        }
    }
    Some(value)
}
