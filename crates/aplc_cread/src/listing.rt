//! Reads names with numbers, and lines that declare them.
//! It must not know what is declared.

ghost use Rattle.std.specs.Prelude.{◌<◌, ◌^◌, IsTrue};
ghost use Rattle.aplc_cread.specs.Reading.{Reads, Passes, Any, Lit};
ghost use Rattle.aplc_cread.specs.Listings.{numbered as numbered_text, Beyond, closes, Listing};

use crate::lexical::{Halt, literal, one_of};
use crate::range::number_in;

/// A text, this number and a text.
pub(crate) fn numbered<'a>(
    head: &[u8],
    n: u64,
    end: &[u8],
    input: &'a [u8],
) -> Result<&'a [u8], Halt<'a>>
    requires small { n < 2 ^ 63 }
    requires closes { IsTrue (closes end.now) }
    ensures { Passes (Beyond end.now) (Lit (numbered_text head.now end.now n)) tt input.now result }
{
    let rest = literal(head, input)?;
    let (_, rest) = number_in(n, n + 1, rest)?;
    literal(end, rest)
}

/// Behind the first name of a line: the further names and the line's end. It gives how many names there are in all.
pub(crate) fn more_names<'a>(
    head: &[u8],
    end: &[u8],
    input: &'a [u8],
) -> Result<(u32, &'a [u8]), Halt<'a>>
    requires closes { IsTrue (closes end.now) }
    ensures { Reads Any (Listing head.now end.now 1) input.now result }
{
    let mut count: u32 = 1;
    let mut rest = input;
    'names: loop {
        let (i, behind) = one_of(&[b";\n", b", "], &[true, count < u32::MAX], rest)?;
        if i == 0 {
            return Ok((count, behind));
        }
        rest = numbered(head, u64::from(count), end, behind)?;
        count += 1;
    }
}
