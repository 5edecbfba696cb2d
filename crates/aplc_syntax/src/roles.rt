//! The functions of a text as statements know them.
//! It must not know what a statement says.

ghost use Rattle.std.specs.Prelude.{◌≡◌, ◌<◌, ◌++◌, List as ListOf, All, map, filter_map, option_map, drop, is_some, Some, OnOk, IfOk, if◌then◌else◌};
ghost use Rattle.std.specs.List.{cons_option};
ghost use Rattle.aplc_syntax.specs.Layout.{Header as HeaderOf, placed, label, arity_of, role_of, kind_in, word_in, header_of, sentence};
ghost use Rattle.aplc_syntax.specs.Held.{row_of, block_of, header_of_held, role_at, AreRoles};
ghost use Rattle.aplc_syntax.specs.declared.header.Header.{Header as HeldHeader};

use crate::header::{Header, read_header};
use crate::layout::{Block, Row};
use crate::tree::Named;
use crate::word::{Arity, Role, Word, WordKind};
use std::alloc::{AllocError, Global};

fn arity(left: Option<Named>, right: Option<Named>) -> Arity
    ensures { result ≡ arity_of left right }
{
    match left {
        None => match right {
            None => Arity::Niladic,
            Some(_) => Arity::Monadic,
        },
        Some(_) => match right {
            None => Arity::Monadic,
            Some(_) => Arity::Dyadic,
        },
    }
}

fn role(header: &Header) -> Role
    ensures { result ≡ role_of (Some (header_of_held header.now)) }
{
    let arity = arity(header.left, header.right);
    match header.result {
        Some(_) => Role::Function(arity),
        None => Role::Procedure(arity),
    }
}

/// One more than the greatest number of a name that heads a function.
fn count(headers: &[Header]) -> usize
    ensures { All (λ (h : HeldHeader). h.name.name.0 < result) headers.now }
{
    let mut count = 0;
    for header in headers {
        count = count.max(header.name.name.0 as usize + 1);
    }
    count
}

/// The roles of the names by their numbers; a name that heads two functions is known by the first.
fn roles(alloc: Global, headers: &[Header]) -> Result<Vec<Role>, AllocError>
    ensures { IfOk result (λ v. AreRoles v.items (map header_of_held headers.now)) }
{
    let mut roles = vec![in alloc; Role::Variable; count(headers)]?;
    let mut i = headers.len();
    while i > 0 {
        i -= 1;
        let header = &headers[i];
        roles[header.name.name.0 as usize] = role(header);
    }
    Ok(roles)
}

/// One more header, if there is one.
#[tactic(auto, using(crate::proofs::Roled::roled))]
fn push(headers: &mut Vec<Header>, header: Option<Header>) -> Result<(), AllocError>
    ensures { OnOk result ((rest : ListOf HeaderOf) → map header_of_held headers.new.items ++ rest ≡ map header_of_held headers.old.items ++ cons_option (option_map header_of_held header) rest) }
{
    match header {
        Some(header) => {
            headers.push(header)?;
            Ok(())
        }
        None => Ok(()),
    }
}

/// The well-formed headers.
fn headers(alloc: Global, blocks: &[Block]) -> Result<Vec<Header>, AllocError>
    ensures { IfOk result (λ v. map header_of_held v.items ≡ filter_map header_of (map block_of blocks.now)) }
{
    let mut out = Vec::new(alloc);
    for block in blocks {
        push(&mut out, read_header(alloc, block.head.rest.as_slice())?)?;
    }
    Ok(out)
}

/// The known headers, and the roles that they give to names.
#[derive(Drop)]
pub struct Known {
    pub headers: Vec<Header>,
    roles: Vec<Role>,
    ghost are: { AreRoles roles.items (map header_of_held headers.items) },
}

/// What the functions of a text make known.
pub fn known_of(alloc: Global, blocks: &[Block]) -> Result<Known, AllocError>
    ensures { IfOk result (λ k. map header_of_held k.headers.items ≡ filter_map header_of (map block_of blocks.now)) }
{
    let headers = headers(alloc, blocks)?;
    let roles = roles(alloc, &headers)?;
    Ok(Known { headers, roles })
}

/// The words behind the label, if there is one.
fn unlabelled(words: &[Word]) -> &[Word]
    ensures { result.now ≡ (if is_some (label (map placed words.now)) then drop 2 words.now else words.now) }
{
    match words {
        [x, y, rest @ ..] => match (x.kind, y.kind) {
            (WordKind::Name(_, _), WordKind::Colon) => rest,
            _ => words,
        },
        _ => words,
    }
}

impl Known {
    fn role_at(&self, n: u32) -> Role
        ensures { result ≡ role_at self.now.roles.items n }
    {
        match self.roles.get(n as usize) {
            None => Role::Variable,
            Some(role) => *role,
        }
    }

    /// What a token is, with the role of its name.
    fn kind(&self, kind: WordKind) -> WordKind
        ensures { result ≡ kind_in (map header_of_held self.now.headers.items) kind }
    {
        match kind {
            WordKind::Name(_, n) => WordKind::Name(self.role_at(n), n),
            _ => kind,
        }
    }

    /// A word with the role of its name.
    fn word(&self, word: Word) -> Word
        ensures { result ≡ word_in (map header_of_held self.now.headers.items) word }
    {
        Word {
            kind: self.kind(word.kind),
            place: word.place,
        }
    }

    /// The statement of a line, with the roles of its names.
    pub fn sentence(&self, alloc: Global, row: &Row) -> Result<Vec<Word>, AllocError>
        ensures { IfOk result (λ v. v.items ≡ sentence (map header_of_held self.now.headers.items) (row_of row.now)) }
    {
        let mut out = Vec::new(alloc);
        for word in unlabelled(row.words.as_slice()) {
            out.push(self.word(*word))?;
        }
        Ok(out)
    }
}
