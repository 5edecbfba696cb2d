//! The program of a text's tokens, or its first refusal.
//! It must not know the scopes of names.

ghost use Rattle.std.specs.Prelude.{◌≡◌, ◌≤◌, length, nat_eq, IfOk, IfErr};
ghost use Rattle.std.specs.List.{IsDistinct};
ghost use Rattle.aplc_lex.specs.Tokens.{AreTokens};
ghost use Rattle.aplc_lex.specs.declared.token.Refusal.{Refusal};
ghost use Rattle.aplc_syntax.specs.Programs.{IsProgramOf, program_ids};
ghost use Rattle.aplc_syntax.specs.Refusals.{Stands, Refuses};
ghost use Rattle.aplc_syntax.specs.declared.tree.Program.{Program};

use crate::functions::{function_cause, functions_of};
use crate::layout::parts_of;
use crate::names::words;
use crate::outside::{bare_cause, declarations};
use crate::roles::known_of;
use crate::tree::Program;
use aplc_lex::{List, Stop, Token, earlier};
use std::alloc::Global;

/// The program of the tokens of a text, or its first refusal.
fn program(alloc: Global, text: &[u8], tokens: &[Token]) -> Result<Program, Stop>
    requires length { length text.now ≤ 262144 }
    requires tokens { AreTokens text.now tokens.now }
    ensures program { IfOk result (λ p. IsProgramOf text.now tokens.now p) }
    ensures refused { IfErr result (Refuses text.now tokens.now) }
{
    let (names, words) = match words(alloc, text, tokens) {
        Ok(read) => read,
        Err(_) => return Err(Stop::Memory),
    };
    let parts = match parts_of(alloc, &words) {
        Ok(parts) => parts,
        Err(_) => return Err(Stop::Memory),
    };
    let known = match known_of(alloc, &parts.blocks) {
        Ok(known) => known,
        Err(_) => return Err(Stop::Memory),
    };
    let declared = match declarations(alloc, names.as_slice(), &parts.above) {
        Ok(declared) => declared,
        Err(_) => return Err(Stop::Memory),
    };
    let inside = match functions_of(alloc, text, &known, &parts.blocks) {
        Ok(inside) => inside,
        Err(_) => return Err(Stop::Memory),
    };
    let outside_first = earlier(declared.first, bare_cause(&parts.below));
    let inside_first = earlier(inside.first, function_cause(&parts.blocks));
    match earlier(outside_first, inside_first) {
        Some(refusal) => Err(Stop::Refused(refusal)),
        None => Ok(Program {
            names,
            origin: declared.origin(),
            vars: List::from_vec(declared.vars),
            functions: List::from_vec(inside.functions),
        }),
    }
}

/// The program that tokens spell, their text having at most 262,144 bytes, or its first refusal: 6 where a header is not
/// one, 7 where a statement is not one, 8 where more than 32 parentheses and brackets are open, 9 where a statement has
/// over 256 nodes, 10 where there are more than 999 functions or lines of one, 11 where a line of no function declares
/// nothing, 13 where a name that is no function stands before an argument. The smallest place counts, then the
/// smallest number. `Memory` says nothing of the text.
pub fn parse(alloc: Global, text: &[u8], tokens: &[Token]) -> Result<Program, Stop>
    requires length { length text.now ≤ 262144 }
    requires tokens { AreTokens text.now tokens.now }
    ensures program { IfOk result (λ p. IsProgramOf text.now tokens.now p) }
    ensures only { IfOk result (λ p. (q : Program) → IsProgramOf text.now tokens.now q → q ≡ p) }
    ensures clean { IfOk result (λ p. (r : Refusal) → Stands text.now tokens.now r → ⊥) }
    ensures distinct { IfOk result (λ p. IsDistinct nat_eq (program_ids p)) }
    ensures refused { IfErr result (Refuses text.now tokens.now) }
{
    program(alloc, text, tokens)
}
