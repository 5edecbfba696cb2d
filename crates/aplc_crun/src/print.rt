//! Numbers and characters as a program writes them.
//! It must not know which statement writes.

ghost use Rattle.std.specs.Prelude.{◌≡◌, ◌+◌, ◌-◌, ◌≤◌, ◌++◌, length, replicate, decimal, encode_utf8};
ghost use Rattle.std.specs.Int.RustNames.{unsigned_abs};
ghost use Rattle.aplc_scalar.specs.Number.{number_text};
ghost use Rattle.aplc_cprof.specs.Machine.{text_width, padded_text};

use crate::pending::Pending;
use itoa::Buffer;

/// The number of characters of a number's text, with its sign.
#[tactic(auto, using(crate::proofs::Numbers::texts))]
pub fn width_of(v: i64) -> usize
    ensures width { result ≡ text_width v }
    ensures short { result ≤ 41 }
{
    let mut buffer = Buffer::new();
    let digits = buffer.format(v.unsigned_abs()).len();
    if v < 0 { digits + 1 } else { digits }
}

fn put_digits(out: &mut Pending, n: u64)
    requires { length out.old.bytes.items + 40 ≤ 8192 }
    ensures { out.new.bytes.items ≡ out.old.bytes.items ++ decimal n }
{
    let mut buffer = Buffer::new();
    out.put(buffer.format(n).as_bytes());
}

#[tactic(auto, using(crate::proofs::Numbers::texts))]
fn put_number_text(out: &mut Pending, v: i64)
    requires { length out.old.bytes.items + 42 ≤ 8192 }
    ensures { out.new.bytes.items ≡ out.old.bytes.items ++ number_text v }
{
    if v < 0 {
        out.put(b"\xC2\xAF");
        put_digits(out, v.unsigned_abs());
    } else {
        put_digits(out, v.unsigned_abs());
    }
}

/// Writes a number, right-justified by blanks to a width of at most 20.
#[tactic(auto, using(crate::proofs::Numbers::texts))]
pub fn put_padded(out: &mut Pending, v: i64, width: usize)
    requires room { length out.old.bytes.items + 64 ≤ 8192 }
    requires narrow { width ≤ 20 }
    ensures { out.new.bytes.items ≡ out.old.bytes.items ++ padded_text v width }
{
    let blanks = width.saturating_sub(width_of(v));
    out.put_blanks(blanks);
    put_number_text(out, v);
}

/// Writes a character as UTF-8.
pub fn put_char(out: &mut Pending, c: char)
    requires { length out.old.bytes.items + 64 ≤ 8192 }
    ensures { out.new.bytes.items ≡ out.old.bytes.items ++ encode_utf8 c }
{
    let mut bytes = [0; 4];
    let text = c.encode_utf8(&mut bytes);
    out.put(text.as_bytes());
}
