//! Reads constant tables.
//! It must not know where they stand.

ghost use Rattle.std.specs.Prelude.{◌≡◌, ◌<◌, ◌^◌, ◌++◌};
ghost use Rattle.aplc_cread.specs.Reading.{Reads, NoDigit, Any, Map, first};
ghost use Rattle.aplc_cread.specs.Tables.{Integer, is_minus as is_minus_code, Cells, MoreCells, Table};

use crate::lexical::{Halt, literal, number_below, split};
use crate::listing::numbered;
use crate::range::number_in;
use aplc_cprof::List;
use std::alloc::Global;

fn is_minus(input: &[u8]) -> bool
    ensures { result ≡ is_minus_code (first input.now) }
{
    match split(input) {
        None => false,
        Some((c, _)) => c == b'-',
    }
}

/// A number of the range. Only a number below 0 has a sign.
fn integer(input: &[u8]) -> Result<(i64, &[u8]), Halt>
    ensures { Reads NoDigit Integer input.now result }
{
    if is_minus(input) {
        let rest = literal(b"-", input)?;
        let (n, rest) = number_in(1, 1 << 63, rest)?;
        return Ok((-(n as i64), rest));
    }
    let (n, rest) = number_below(1 << 63, input)?;
    Ok((n as i64, rest))
}

/// So many more numbers, each behind a comma, and the end of the line.
fn more_cells(before: Vec<i64>, count: u64, input: &[u8]) -> Result<(List<i64>, &[u8]), Halt>
    ensures { Reads Any (Map (λ xs. before.items ++ xs) (MoreCells count)) input.now result }
{
    let mut cells = before;
    let mut left = count;
    let mut rest = input;
    'cells: while left > 0 {
        let behind = literal(b", ", rest)?;
        let (x, next) = integer(behind)?;
        cells.push(x)?;
        left -= 1;
        rest = next;
    }
    let end = literal(b"};\n", rest)?;
    Ok((List::from_vec(cells), end))
}

/// So many numbers, and the end of the line.
fn cells(alloc: Global, count: u64, input: &[u8]) -> Result<(List<i64>, &[u8]), Halt>
    requires some { 0 < count }
    ensures { Reads Any (Cells count) input.now result }
{
    let mut first = Vec::new(alloc);
    let (x, rest) = integer(input)?;
    first.push(x)?;
    more_cells(first, count - 1, rest)
}

/// The table of this number, behind the letter of its name.
pub(crate) fn table(alloc: Global, number: u64, input: &[u8]) -> Result<(List<i64>, &[u8]), Halt>
    requires small { number < 2 ^ 32 }
    ensures { Reads Any (Table number) input.now result }
{
    let rest = numbered(b"", number, b"[", input)?;
    let (count, rest) = number_in(1, 1 << 63, rest)?;
    let rest = literal(b"] = {", rest)?;
    cells(alloc, count, rest)
}
