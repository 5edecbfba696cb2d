//! The lines of a text outside its functions: declarations, and their first refusal.
//! It must not know the functions.

ghost use Rattle.std.specs.Prelude.{◌≡◌, map, option_map, OnOk, IfOk, None};
ghost use Rattle.aplc_lex.specs.Tokens.{refusal};
ghost use Rattle.aplc_syntax.specs.Layout.{declaration};
ghost use Rattle.aplc_syntax.specs.Refusals.{bad_declaration};
ghost use Rattle.aplc_syntax.specs.Held.{row_of, declared_of};
ghost use Rattle.aplc_lex.specs.Firsts.{IsFirstOf, earlier};
ghost use Rattle.aplc_syntax.specs.Causes.{InSome, at_first, said_cause, origin_next, vars_next, OfRows, DeclareFrom, OfBare};
ghost use Rattle.aplc_syntax.specs.Noted.{origin_or};

use crate::header::{Declaration, read_declaration};
use crate::layout::Row;
use crate::tree::Var;
use crate::word::Word;
use aplc_lex::{List, Refusal, earlier};
use std::alloc::{AllocError, Global};

const BAD_DECLARATION: u8 = 11;

/// The refusal of a line, at its first word.
fn at_first(words: &[Word]) -> Option<Refusal>
    ensures { result ≡ at_first bad_declaration words.now }
{
    match words {
        [] => None,
        [first, ..] => Some(Refusal {
            number: BAD_DECLARATION,
            place: first.place as u64,
        }),
    }
}

/// The refusal of a line that says this behind the declaration of an origin, if there is one.
fn said_cause(origin: Option<i64>, said: Option<Declaration>, words: &[Word]) -> Option<Refusal>
    ensures { result ≡ said_cause origin (option_map declared_of said) words.now }
{
    match said {
        None => at_first(words),
        Some(Declaration::Origin(_)) => match origin {
            Some(_) => at_first(words),
            None => None,
        },
        Some(_) => None,
    }
}

/// The origin that is declared before the next line.
fn origin_next(origin: Option<i64>, said: Option<Declaration>) -> Option<i64>
    ensures { result ≡ origin_next origin (option_map declared_of said) }
{
    match origin {
        Some(v) => Some(v),
        None => match said {
            Some(Declaration::Origin(v)) => Some(v),
            _ => None,
        },
    }
}

/// What lines declare, and their first refusal.
#[derive(Drop)]
pub struct Declared {
    pub origin: Option<i64>,
    pub vars: Vec<Var>,
    pub first: Option<Refusal>,
}

impl Declared {
    /// The declared names, with one more if this is the declaration of a name.
    fn add(&mut self, said: Option<Declaration>) -> Result<(), AllocError>
        ensures { OnOk result ((self.new.vars.items ≡ vars_next self.old.vars.items (option_map declared_of said)) × (self.new.origin ≡ self.old.origin) × (self.new.first ≡ self.old.first)) }
    {
        match said {
            Some(Declaration::Var(var)) => {
                self.vars.push(var)?;
                Ok(())
            }
            _ => Ok(()),
        }
    }

    /// One more line.
    fn note(&mut self, names: &[List<u8>], row: &Row) -> Result<(), AllocError>
        ensures { OnOk result ((self.new.first ≡ earlier self.old.first (said_cause self.old.origin (declaration names.now (row_of row.now)) row.now.words))
            × (self.new.origin ≡ origin_next self.old.origin (declaration names.now (row_of row.now)))
            × (self.new.vars.items ≡ vars_next self.old.vars.items (declaration names.now (row_of row.now)))) }
    {
        let words = row.words.as_slice();
        let said = read_declaration(names, words);
        self.add(said)?;
        self.first = earlier(self.first, said_cause(self.origin, said, words));
        self.origin = origin_next(self.origin, said);
        Ok(())
    }

    /// The index origin: the declared one, or 1.
    pub fn origin(&self) -> i64
        ensures { result ≡ origin_or self.now.origin }
    {
        match self.origin {
            Some(v) => v,
            None => 1,
        }
    }
}

/// What the lines before the first function declare, where these are the names of the text.
pub fn declarations(alloc: Global, names: &[List<u8>], rows: &[Row]) -> Result<Declared, AllocError>
    ensures first { IfOk result (λ d. IsFirstOf (OfRows names.now None (map row_of rows.now)) d.first) }
    ensures said { IfOk result (λ d. d.first ≡ None → DeclareFrom names.now None (map row_of rows.now) (origin_or d.origin) d.vars.items) }
{
    let mut declared = Declared {
        origin: None,
        vars: Vec::new(alloc),
        first: None,
    };
    for row in rows {
        declared.note(names, row)?;
    }
    Ok(declared)
}

/// The first refusal of the lines outside functions behind the first function.
pub fn bare_cause(rows: &[Row]) -> Option<Refusal>
    ensures { IsFirstOf (InSome OfBare (map row_of rows.now)) result }
{
    let mut first = None;
    for row in rows {
        first = earlier(first, at_first(row.words.as_slice()));
    }
    first
}
