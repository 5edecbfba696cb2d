//! The refusals of names that callers hide.
//! It must not know other refusals.

ghost use Rattle.std.specs.Prelude.{◌≡◌, ◌++◌, ◌&&◌, not, IfOk, OnOk, length};
ghost use Rattle.std.specs.List.{slice_get};
ghost use Rattle.std.specs.Option.{option_to_list};
ghost use Rattle.aplc_names.specs.Tables.{first, stands_in};
ghost use Rattle.aplc_names.specs.Scopes.{function_names};
ghost use Rattle.aplc_lex.specs.Firsts.{IsFirstOf};
ghost use Rattle.aplc_names.specs.Firsts.{Somewhere};
ghost use Rattle.aplc_names.specs.Clashes.{IsShadowed, IsShadowedIn};
ghost use Rattle.aplc_names.specs.Graphs.{callees, graph, all_locals, places_in, ids, is_set, is_set_at, Adds, Hides, Tells};

use crate::graph::{blank, is_set, reaches, row, spread};
use crate::minimum::refused_if;
use crate::outline::Outline;
use crate::table::Table;
use aplc_lex::{List, Refusal, earlier};
use aplc_syntax::NameId;
use std::alloc::{AllocError, Global};

const SHADOW: u8 = 14;

fn put_some(out: &mut Vec<usize>, place: Option<usize>) -> Result<(), AllocError>
    ensures { OnOk result (out.new.items ≡ out.old.items ++ option_to_list place) }
{
    if let Some(at) = place {
        out.push(at)?;
    }
    Ok(())
}

/// The functions that a function names in its lines.
fn callees(alloc: Global, heads: &Table, outline: &Outline) -> Result<List<usize>, AllocError>
    ensures { IfOk result (λ v. v ≡ callees heads.now outline.now) }
{
    let mut out = Vec::new(alloc);
    for m in outline.mentions.as_slice() {
        let place = heads.first(m.name);
        put_some(&mut out, place)?;
    }
    Ok(List::from_vec(out))
}

fn calls(alloc: Global, heads: &Table, outlines: &[Outline]) -> Result<Vec<List<usize>>, AllocError>
    ensures { IfOk result (λ v. v.items ≡ graph heads.now outlines.now) }
{
    let mut out = Vec::new(alloc);
    for outline in outlines {
        out.push(callees(alloc, heads, outline)?)?;
    }
    Ok(out)
}

/// The local names of all functions.
fn all_locals(alloc: Global, outlines: &[Outline]) -> Result<Table, AllocError>
    ensures { IfOk result (λ t. t ≡ all_locals outlines.now) }
{
    let mut out = Vec::new(alloc);
    for outline in outlines {
        out.extend_from_slice(outline.locals.names())?;
    }
    Table::new(alloc, out)
}

/// Where the local names of a function first stand among all.
fn places_in(alloc: Global, all: &Table, outline: &Outline) -> Result<List<usize>, AllocError>
    ensures { IfOk result (λ v. v ≡ places_in all.now outline.now) }
{
    let mut out = Vec::new(alloc);
    for x in outline.locals.names() {
        let place = all.first(x.name);
        put_some(&mut out, place)?;
    }
    Ok(List::from_vec(out))
}

fn ids(alloc: Global, all: &Table, outlines: &[Outline]) -> Result<Vec<List<usize>>, AllocError>
    ensures { IfOk result (λ v. v.items ≡ ids all.now outlines.now) }
{
    let mut out = Vec::new(alloc);
    for outline in outlines {
        out.push(places_in(alloc, all, outline)?)?;
    }
    Ok(out)
}

/// Marks the entries of a list, where a row leads to `to`.
fn hide(
    reached: &[bool],
    to: usize,
    list: &[usize],
    marks: &mut Vec<bool>,
    found: &mut Vec<usize>,
) -> Result<(), AllocError>
    ensures { OnOk result (Adds (is_set (slice_get reached.now to)) list.now marks.old.items found.old.items marks.new.items found.new.items) }
{
    if !is_set(reached, to) {
        return Ok(());
    }
    spread(list, marks, found)
}

/// The places of the names that are local where calls lead from to function `to`.
fn hidden(
    alloc: Global,
    size: usize,
    rows: &[List<bool>],
    lists: &[List<usize>],
    to: usize,
) -> Result<Vec<bool>, AllocError>
    ensures { IfOk result (λ v. Hides rows.now lists.now to (length rows.now) size v.items) }
{
    let mut marks = blank(alloc, size)?;
    let mut found = Vec::new(alloc);
    for (from, reached) in rows.iter().enumerate() {
        hide(
            reached.as_slice(),
            to,
            row(lists, from),
            &mut marks,
            &mut found,
        )?;
    }
    Ok(marks)
}

fn is_hidden(all: &Table, marks: &[bool], name: NameId) -> bool
    ensures { result ≡ is_set_at (first name.0 all.now) marks.now }
{
    match all.first(name) {
        Some(at) => is_set(marks, at),
        None => false,
    }
}

fn is_shadowed(heads: &Table, locals: &Table, all: &Table, marks: &[bool], name: NameId) -> bool
    ensures { result ≡ (not (stands_in name.0 heads.now) && not (stands_in name.0 locals.now) && is_set_at (first name.0 all.now) marks.now) }
{
    !heads.has(name) && !locals.has(name) && is_hidden(all, marks, name)
}

/// The first use of a hidden name in function `place`.
fn shadowed(
    heads: &Table,
    outlines: &[Outline],
    all: &Table,
    marks: &[bool],
    outline: &Outline,
    place: usize,
) -> Option<Refusal>
    requires { Tells heads.now outlines.now place all.now marks.now }
    ensures { IsFirstOf (IsShadowedIn heads.now outlines.now place outline.now) result }
{
    let mut best = None;
    for m in outline.mentions.as_slice() {
        let test = is_shadowed(heads, &outline.locals, all, marks, m.name);
        let one = refused_if(test, SHADOW, m.place);
        best = earlier(best, one);
    }
    best
}

/// The first use of a hidden name.
pub fn shadows(
    alloc: Global,
    heads: &Table,
    outlines: &[Outline],
) -> Result<Option<Refusal>, AllocError>
    requires { heads.now ≡ function_names outlines.now }
    ensures { IfOk result (IsFirstOf (Somewhere (IsShadowedIn heads.now outlines.now) outlines.now)) }
{
    let calls = calls(alloc, heads, outlines)?;
    let graph = calls.as_slice();
    let reached = reaches(alloc, graph)?;
    let rows = reached.as_slice();
    let all = all_locals(alloc, outlines)?;
    let places = ids(alloc, &all, outlines)?;
    let lists = places.as_slice();
    let names = all.names();
    let size = names.len();
    let mut best = None;
    for (i, outline) in outlines.iter().enumerate() {
        let found = hidden(alloc, size, rows, lists, i)?;
        let marks = found.as_slice();
        let one = shadowed(heads, outlines, &all, marks, outline, i);
        best = earlier(best, one);
    }
    Ok(best)
}
