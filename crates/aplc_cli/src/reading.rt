//! From the bytes of a source to its program, with its names resolved, and its facts: four stages, one after the other.
//! It must not know what of a program is built.

ghost use Rattle.std.specs.Prelude.{◌≤◌, length, IfOk, IfErr};
ghost use Rattle.aplc_names.specs.Programs.{IsClean};
ghost use Rattle.aplc_infer.specs.Families.{IsWellTyped};
ghost use Rattle.aplc_infer.specs.Shown.{IsInferred};
ghost use Rattle.aplc_cli.specs.Sources.{Spells, source_limit};
ghost use Rattle.aplc_cli.specs.Call.{RefusesSource};

use aplc_infer::{Facts, infer};
use aplc_lex::{Token, tokens};
use aplc_names::{Bound, Stop, resolve};
use aplc_syntax::{Program, parse};
use std::alloc::Global;

/// A program, and the facts of its nodes.
#[derive(Drop)]
pub struct Typed {
    pub bound: Bound,
    pub facts: Facts,
}

/// The program of a file, or its first refusal among those of tokens, statements and names.
fn resolve_program(alloc: Global, file: &[u8]) -> Result<Bound, Stop>
    requires { length file.now ≤ source_limit }
    ensures spells { IfOk result (λ b. Spells file.now b) }
    ensures clean { IfOk result (λ b. IsClean b) }
    ensures refused { IfErr result (RefusesSource file.now) }
{
    let found = tokens(alloc, file)?;
    let program = parse(alloc, file, found.as_slice())?;
    resolve(alloc, program)
}

/// The program of a file, which is well typed, with its facts, or its first refusal among those of tokens, statements,
/// names and facts.
pub fn read_program(alloc: Global, file: &[u8]) -> Result<Typed, Stop>
    requires { length file.now ≤ source_limit }
    ensures spells { IfOk result (λ t. Spells file.now t.bound) }
    ensures clean { IfOk result (λ t. IsClean t.bound) }
    ensures typed { IfOk result (λ t. IsWellTyped t.bound) }
    ensures inferred { IfOk result (λ t. IsInferred t.bound t.facts) }
    ensures refused { IfErr result (RefusesSource file.now) }
{
    let bound = resolve_program(alloc, file)?;
    match infer(alloc, &bound) {
        Ok(facts) => Ok(Typed { bound, facts }),
        Err(stop) => Err(stop),
    }
}
