//! The text of one element.
//! It must not know where the element stands.

ghost use Rattle.std.specs.Prelude.{◌≡◌, ◌++◌, OnOk, IsTrue, decimal, replicate, encode_utf8};
ghost use Rattle.std.specs.Int.RustNames.{unsigned_abs};
ghost use Rattle.aplc_arr.specs.Arrays.{is_cell};
ghost use Rattle.aplc_quad.specs.Rows.{width, element_bytes, justified_bytes};

use aplc_scalar::Kind;
use itoa::Buffer;
use std::alloc::AllocError;

/// The number of characters of an element's text.
pub fn width(kind: Kind, cell: i64) -> usize
    ensures { result ≡ width kind cell }
{
    match kind {
        Kind::Char => 1,
        Kind::Num => {
            let mut buffer = Buffer::new();
            let digits = buffer.format(cell.unsigned_abs()).len();
            if cell < 0 { digits + 1 } else { digits }
        }
    }
}

fn put_digits(out: &mut Vec<u8>, n: u64) -> Result<(), AllocError>
    ensures { OnOk result (out.new.items ≡ out.old.items ++ decimal n) }
{
    let mut buffer = Buffer::new();
    out.extend_from_slice(buffer.format(n).as_bytes())
}

#[tactic(auto, using(crate::proofs::Numbers::numbers))]
fn put_number(out: &mut Vec<u8>, number: i64) -> Result<(), AllocError>
    requires { IsTrue (is_cell Kind.Num number) }
    ensures { OnOk result (out.new.items ≡ out.old.items ++ element_bytes Kind.Num number) }
{
    if number < 0 {
        out.extend_from_slice(b"\xC2\xAF")?;
        put_digits(out, number.unsigned_abs())
    } else {
        put_digits(out, number.unsigned_abs())
    }
}

fn put_character(out: &mut Vec<u8>, code: i64) -> Result<(), AllocError>
    requires { IsTrue (is_cell Kind.Char code) }
    ensures { OnOk result (out.new.items ≡ out.old.items ++ element_bytes Kind.Char code) }
{
    let Some(character) = char::from_u32(code as u32) else {
        unreachable!()
    };
    let mut bytes = [0; 4];
    out.extend_from_slice(character.encode_utf8(&mut bytes).as_bytes())
}

fn put_blanks(out: &mut Vec<u8>, count: usize) -> Result<(), AllocError>
    ensures { OnOk result (out.new.items ≡ out.old.items ++ replicate count 32) }
{
    for _ in 0..count {
        out.push(b' ')?;
    }
    Ok(())
}

/// An element behind blanks up to a width.
pub fn put_element(
    out: &mut Vec<u8>,
    kind: Kind,
    cell: i64,
    wanted: usize,
) -> Result<(), AllocError>
    requires { IsTrue (is_cell kind cell) }
    ensures { OnOk result (out.new.items ≡ out.old.items ++ justified_bytes kind wanted cell) }
{
    put_blanks(out, wanted.saturating_sub(width(kind, cell)))?;
    match kind {
        Kind::Num => put_number(out, cell),
        Kind::Char => put_character(out, cell),
    }
}
