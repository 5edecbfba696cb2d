//! The lines of an array.
//! It must not know how an element is written.

ghost use Rattle.std.specs.Prelude.{max, slice_index_or, ◌≡◌, ◌++◌, ◌+◌, ◌-◌, ◌*◌, ◌<◌, ◌≤◌, [], ◌∷◌, OnOk, IfOk, length, drop};
ghost use Rattle.aplc_arr.specs.Arrays.{IsArray, rank, product, count_limit};
ghost use Rattle.aplc_arr.specs.Delayed.{first_n};
ghost use Rattle.aplc_arr.specs.Display.{shown};
ghost use Rattle.aplc_quad.specs.Rows.{justified_bytes, gap_before, row_bytes, width, column_width, plane_bytes, empty_line, nest_bytes, cell_of, listed};

use crate::elements::{put_element, width};
use aplc_arr::Arr;
use aplc_scalar::Kind;
use std::alloc::{AllocError, Global};

fn put_gap(out: &mut Vec<u8>, kind: Kind, column: usize) -> Result<(), AllocError>
    ensures { OnOk result (out.new.items ≡ out.old.items ++ gap_before kind column) }
{
    match kind {
        Kind::Num if column > 0 => out.push(b' ')?,
        _ => {}
    }
    Ok(())
}

fn width_at(widths: &[usize], column: usize) -> usize
    ensures { result ≡ listed widths.now column }
{
    match widths.get(column) {
        Some(width) => *width,
        None => 0,
    }
}

fn put_cell(out: &mut Vec<u8>, a: &Arr, place: usize, wanted: usize) -> Result<(), AllocError>
    requires { place < product a.now.shape }
    ensures { OnOk result (out.new.items ≡ out.old.items ++ justified_bytes a.now.kind wanted (cell_of a.now place)) }
{
    put_element(out, a.kind(), a.cell(place), wanted)
}

/// The elements of a row, whose first one has this place; a column beyond the list of widths has no width.
fn put_row(
    out: &mut Vec<u8>,
    a: &Arr,
    first: usize,
    columns: usize,
    widths: &[usize],
) -> Result<(), AllocError>
    requires { first + columns ≤ product a.now.shape }
    ensures { OnOk result (out.new.items ≡ out.old.items ++ row_bytes a.now.kind (listed widths.now) (λ j. cell_of a.now (first + j)) columns) }
{
    for column in 0..columns {
        put_gap(out, a.kind(), column)?;
        put_cell(out, a, first + column, width_at(widths, column))?;
    }
    Ok(())
}

fn put_line(
    out: &mut Vec<u8>,
    a: &Arr,
    first: usize,
    columns: usize,
    widths: &[usize],
) -> Result<(), AllocError>
    requires { first + columns ≤ product a.now.shape }
    ensures { OnOk result (out.new.items ≡ out.old.items ++ (row_bytes a.now.kind (listed widths.now) (λ j. cell_of a.now (first + j)) columns ++ 10 ∷ [])) }
{
    put_row(out, a, first, columns, widths)?;
    out.push(b'\n')?;
    Ok(())
}

/// The rows of a plane; it gives the place behind them.
fn put_plane(
    out: &mut Vec<u8>,
    a: &Arr,
    first: usize,
    rows: usize,
    columns: usize,
    widths: &[usize],
) -> Result<usize, AllocError>
    requires place { first + rows * columns ≤ product a.now.shape }
    requires short { product a.now.shape ≤ count_limit }
    ensures place { IfOk result (λ next. next ≡ first + rows * columns) }
    ensures bytes { OnOk result (out.new.items ≡ out.old.items ++ plane_bytes a.now.kind (listed widths.now) (λ q. cell_of a.now (first + q)) rows columns) }
{
    let mut place = first;
    for _ in 0..rows {
        put_line(out, a, place, columns, widths)?;
        place += columns;
    }
    Ok(place)
}

fn put_empty_line(out: &mut Vec<u8>, length: usize, place: usize) -> Result<(), AllocError>
    ensures { OnOk result (out.new.items ≡ out.old.items ++ empty_line length place) }
{
    if place > 0 && length > 1 {
        out.push(b'\n')?;
    }
    Ok(())
}

fn length_of(a: &Arr, axis: usize) -> usize
    requires { axis < rank a.now }
    ensures { result ≡ slice_index_or a.now.shape axis 0 }
{
    a.length(axis) as usize
}

/// The elements from a place on, along this axis and those behind it; it gives the place behind them.
fn put_nest(
    out: &mut Vec<u8>,
    a: &Arr,
    widths: &[usize],
    axis: usize,
    first: usize,
) -> Result<usize, AllocError>
    requires axis { axis + 2 ≤ rank a.now }
    requires place { first + product (drop axis a.now.shape) ≤ product a.now.shape }
    requires short { product a.now.shape ≤ count_limit }
    ensures place { IfOk result (λ next. next ≡ first + product (drop axis a.now.shape)) }
    ensures bytes { OnOk result (out.new.items ≡ out.old.items ++ nest_bytes a.now.kind (listed widths.now) (cell_of a.now) (drop axis a.now.shape) first) }
{
    let length = length_of(a, axis);
    if a.rank() == axis + 2 {
        return put_plane(out, a, first, length, length_of(a, axis + 1), widths);
    }
    let mut place = first;
    for _ in 0..length {
        put_empty_line(out, length, place)?;
        place = put_nest(out, a, widths, axis + 1, place)?;
    }
    Ok(place)
}

fn wider(width: usize, other: usize) -> usize
    ensures { result ≡ max width other }
{
    if width < other { other } else { width }
}

fn width_of(a: &Arr, place: usize) -> usize
    requires { place < product a.now.shape }
    ensures { result ≡ width a.now.kind (cell_of a.now place) }
{
    width(a.kind(), a.cell(place))
}

/// The width of a column: its widest text in the rows of all planes.
fn width_of_column(a: &Arr, column: usize, columns: usize, rows: usize) -> usize
    requires rows { rows * columns ≤ product a.now.shape }
    requires column { column < columns }
    requires short { product a.now.shape ≤ count_limit }
    ensures { result ≡ column_width a.now.kind (λ r. cell_of a.now (column + r * columns)) rows }
{
    let mut widest = 0;
    let mut place = column;
    for _ in 0..rows {
        widest = wider(widest, width_of(a, place));
        place += columns;
    }
    widest
}

fn column_widths(
    alloc: Global,
    a: &Arr,
    columns: usize,
    rows: usize,
) -> Result<Vec<usize>, AllocError>
    requires rows { rows * columns ≤ product a.now.shape }
    requires short { product a.now.shape ≤ count_limit }
    ensures { IfOk result (λ widths. widths.items ≡ first_n (λ j. column_width a.now.kind (λ r. cell_of a.now (j + r * columns)) rows) columns) }
{
    let mut widths = Vec::new(alloc);
    for column in 0..columns {
        widths.push(width_of_column(a, column, columns, rows))?;
    }
    Ok(widths)
}

#[tactic(auto, using(crate::proofs::Whole::last_some))]
fn last_length(a: &Arr) -> usize
    requires ranked { 2 ≤ rank a.now }
    requires some { 0 < product a.now.shape }
    ensures last { result ≡ slice_index_or a.now.shape (rank a.now - 1) 0 }
    ensures some { 0 < result }
{
    length_of(a, a.rank() - 1)
}

/// The widths with which an array is written: those of its columns, and none for characters.
#[tactic(auto, using(crate::proofs::Widths::numbers_shown, crate::proofs::Widths::characters_shown, crate::proofs::Widths::short_array, crate::proofs::Widths::rows_fit))]
fn widths_of(alloc: Global, a: &Arr, kind: Kind) -> Result<Vec<usize>, AllocError>
    requires kind { kind ≡ a.now.kind }
    requires array { IsArray a.now }
    requires ranked { 2 ≤ rank a.now }
    requires some { 0 < product a.now.shape }
    ensures { IfOk result (λ widths. nest_bytes a.now.kind (listed widths.items) (cell_of a.now) a.now.shape 0 ≡ shown a.now) }
{
    match kind {
        Kind::Char => Ok(Vec::new(alloc)),
        Kind::Num => {
            let columns = last_length(a);
            column_widths(alloc, a, columns, a.count() / columns)
        }
    }
}

#[tactic(auto, using(crate::proofs::Widths::short_array))]
fn put_planes(alloc: Global, out: &mut Vec<u8>, a: &Arr, kind: Kind) -> Result<(), AllocError>
    requires kind { kind ≡ a.now.kind }
    requires array { IsArray a.now }
    requires ranked { 2 ≤ rank a.now }
    requires some { 0 < product a.now.shape }
    ensures { OnOk result (out.new.items ≡ out.old.items ++ shown a.now) }
{
    let widths = widths_of(alloc, a, kind)?;
    put_nest(out, a, widths.as_slice(), 0, 0)?;
    Ok(())
}

#[tactic(auto, using(crate::proofs::Whole::vector_shown, crate::proofs::Whole::nothing_shown, crate::proofs::Whole::written_same))]
fn put_array(alloc: Global, out: &mut Vec<u8>, a: &Arr) -> Result<(), AllocError>
    ensures { OnOk result (out.new.items ≡ out.old.items ++ shown a.now) }
{
    let kind = a.kind();
    if a.rank() < 2 {
        return put_line(out, a, 0, a.count(), &[]);
    }
    if a.count() == 0 {
        return Ok(());
    }
    put_planes(alloc, out, a, kind)
}

/// The text that displays an array, in UTF-8: a line for a scalar or a vector; from rank 2 on a line for each row, with
/// an empty line before a row for each axis but the last two whose index moves there, and nothing where there are no
/// elements.
pub fn show(alloc: Global, a: &Arr) -> Result<Vec<u8>, AllocError>
    ensures { IfOk result (λ text. text.items ≡ shown a.now) }
{
    let mut out = Vec::new(alloc);
    put_array(alloc, &mut out, a)?;
    Ok(out)
}
