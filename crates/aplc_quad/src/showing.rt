//! Code that prints a scalar or a vector.
//! It must not know how an element is printed, nor what makes the elements.

ghost use Rattle.std.specs.Prelude.{◌≡◌, ◌+◌, ◌<◌, ◌∷◌, [], OnOk, length};
ghost use Rattle.aplc_cprof.specs.Blocks.{IsKept};
ghost use Rattle.aplc_cprof.specs.Frames.{AreGiven, AreOld};
ghost use Rattle.aplc_quad.specs.Printed.{Adds};
ghost use Rattle.aplc_quad.specs.Shows.{plain_columns, LineShows};

use crate::cells::{line_feed, row_line};
use crate::printing::{Columns, element_code};
use aplc_collect::ElementCode;
use aplc_cprof::{Builder, Int};
use aplc_scalar::Kind;
use sqlite_items::Items;
use std::alloc::{AllocError, Global};

/// How elements are printed that have no widths.
fn plain_columns(kind: Kind) -> Columns
    ensures { result ≡ plain_columns kind }
{
    match kind {
        Kind::Num => Columns::Numbers,
        Kind::Char => Columns::Characters,
    }
}

fn scalar_code<E: ElementCode>(
    alloc: Global,
    b: &mut Builder,
    kind: Kind,
    code: &mut E,
) -> Result<(), AllocError>
    requires given { AreGiven (E.given code.old) b.old }
    ensures ok { OnOk result (Adds (E.given code.old) (3 + E.depth code.old) b.old b.new [] [] (LineShows (E.test code.old) (E.steps code.old) [] kind)) }
    ensures kept { IsKept b.old b.new }
    ensures same { (E.test code.new ≡ E.test code.old) × (E.steps code.new ≡ E.steps code.old) × (E.given code.new ≡ E.given code.old) × (E.depth code.new ≡ E.depth code.old) }
{
    let columns = plain_columns(kind);
    let at = Items::new(alloc);
    let v = code.emit(alloc, b, at.as_slice())?;
    element_code(alloc, b, columns, v, v)?;
    line_feed(b)
}

fn vector_code<E: ElementCode>(
    alloc: Global,
    b: &mut Builder,
    kind: Kind,
    length: Int,
    code: &mut E,
) -> Result<(), AllocError>
    requires given { AreGiven (E.given code.old) b.old }
    requires length { AreOld b.old.ints (length ∷ []) }
    ensures ok { OnOk result (Adds (E.given code.old) (3 + E.depth code.old) b.old b.new (length ∷ []) [] (LineShows (E.test code.old) (E.steps code.old) (length ∷ []) kind)) }
    ensures kept { IsKept b.old b.new }
    ensures same { (E.test code.new ≡ E.test code.old) × (E.steps code.new ≡ E.steps code.old) × (E.given code.new ≡ E.given code.old) × (E.depth code.new ≡ E.depth code.old) }
{
    let columns = plain_columns(kind);
    let mut at = Items::new(alloc);
    row_line(alloc, b, &mut at, length, columns, code)
}

/// Adds code that prints the scalar, or the vector of this length, of this kind for which `code` stands, none of whose
/// elements faults.
pub fn line_code<E: ElementCode>(
    alloc: Global,
    b: &mut Builder,
    kind: Kind,
    lengths: &[Int],
    code: &mut E,
) -> Result<(), AllocError>
    requires given { AreGiven (E.given code.old) b.old }
    requires ranked { length lengths.now < 2 }
    requires lengths { AreOld b.old.ints lengths.now }
    ensures ok { OnOk result (Adds (E.given code.old) (3 + E.depth code.old) b.old b.new lengths.now [] (LineShows (E.test code.old) (E.steps code.old) lengths.now kind)) }
    ensures kept { IsKept b.old b.new }
    ensures same { (E.test code.new ≡ E.test code.old) × (E.steps code.new ≡ E.steps code.old) × (E.given code.new ≡ E.given code.old) × (E.depth code.new ≡ E.depth code.old) }
{
    match lengths {
        [] => scalar_code(alloc, b, kind, code),
        [length, ..] => vector_code(alloc, b, kind, *length, code),
    }
}
