//! The refusals of names, but for names that are hidden.
//! It must not know which functions lead to which.

ghost use Rattle.std.specs.Prelude.{◌≡◌, ◌&&◌, ◌||◌};
ghost use Rattle.std.specs.List.{list_any};
ghost use Rattle.aplc_names.specs.Tables.{first, stands_in};
ghost use Rattle.aplc_lex.specs.Firsts.{IsFirstOf};
ghost use Rattle.aplc_names.specs.Firsts.{Somewhere, is_before};
ghost use Rattle.aplc_names.specs.Clashes.{IsAgain, IsTaken, IsAssigned, IsMainless, StandsIn, is_start, main_place};

use crate::entry::is_main;
use crate::minimum::refused_if;
use crate::outline::{Mention, Outline};
use crate::table::Table;
use aplc_lex::{List, Refusal, earlier};
use aplc_syntax::{NameId, Named};

const TWICE: u8 = 12;

const NO_MAIN: u8 = 15;

const ASSIGNED: u8 = 16;

/// A name stands before this place too.
fn is_again(names: &Table, name: NameId, place: usize) -> bool
    ensures { result ≡ is_before (first name.0 names.now) place }
{
    match names.first(name) {
        Some(i) => i < place,
        None => false,
    }
}

/// The first name of a list that stands in it before.
pub fn again(table: &Table) -> Option<Refusal>
    ensures { IsFirstOf (Somewhere (IsAgain table.now) table.now) result }
{
    let mut best = None;
    for (i, x) in table.names().iter().enumerate() {
        let test = is_again(table, x.name, i);
        let one = refused_if(test, TWICE, x.place);
        best = earlier(best, one);
    }
    best
}

/// The first name of a list that is a function's.
pub fn taken(heads: &Table, names: &[Named]) -> Option<Refusal>
    ensures { IsFirstOf (Somewhere (IsTaken heads.now) names.now) result }
{
    let mut best = None;
    for x in names {
        let test = heads.has(x.name);
        let one = refused_if(test, TWICE, x.place);
        best = earlier(best, one);
    }
    best
}

fn is_assigned(heads: &Table, labels: &Table, mention: Mention) -> bool
    ensures { result ≡ (mention.assigned && (stands_in mention.name.0 labels.now || stands_in mention.name.0 heads.now)) }
{
    mention.assigned && (labels.has(mention.name) || heads.has(mention.name))
}

/// The first label or function's name that a function assigns.
pub fn assigned(heads: &Table, outline: &Outline) -> Option<Refusal>
    ensures { IsFirstOf (Somewhere (IsAssigned heads.now outline.now) outline.now.mentions) result }
{
    let mut best = None;
    for m in outline.mentions.as_slice() {
        let test = is_assigned(heads, &outline.labels, *m);
        let one = refused_if(test, ASSIGNED, m.place);
        best = earlier(best, one);
    }
    best
}

fn is_start(names: &[List<u8>], outline: &Outline) -> bool
    ensures { result ≡ is_start names.now outline.now }
{
    is_main(names, outline.name.name) && outline.bare
}

/// The place of the first function MAIN, or 0.
fn main_place(names: &[List<u8>], outlines: &[Outline]) -> u64
    ensures { result ≡ main_place names.now outlines.now }
{
    for f in outlines {
        if is_main(names, f.name.name) {
            return f.name.place;
        }
    }
    0
}

fn any_start(names: &[List<u8>], outlines: &[Outline]) -> bool
    ensures { result ≡ list_any (is_start names.now) outlines.now }
{
    outlines.iter().any(|f| is_start(names, f))
}

/// No function MAIN is without arguments and result.
pub fn mainless(names: &[List<u8>], outlines: &[Outline]) -> Option<Refusal>
    ensures { IsFirstOf (IsMainless names.now outlines.now) result }
{
    let found = any_start(names, outlines);
    let place = main_place(names, outlines);
    refused_if(!found, NO_MAIN, place)
}

/// The first refusal of a function.
fn in_one(heads: &Table, outline: &Outline, place: usize) -> Option<Refusal>
    ensures { IsFirstOf (StandsIn heads.now place outline.now) result }
{
    let a = again(&outline.locals);
    let b = taken(heads, outline.locals.names());
    let c = assigned(heads, outline);
    earlier(earlier(a, b), c)
}

/// The first refusal of functions.
pub fn in_functions(heads: &Table, outlines: &[Outline]) -> Option<Refusal>
    ensures { IsFirstOf (Somewhere (StandsIn heads.now) outlines.now) result }
{
    let mut best = None;
    for (i, outline) in outlines.iter().enumerate() {
        let one = in_one(heads, outline, i);
        best = earlier(best, one);
    }
    best
}
