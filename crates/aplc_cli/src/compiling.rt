//! From the bytes of a source to its program and the bytes of its C text: the stages, one after the other.
//! It must not know where the bytes come from, nor where the text goes.

ghost use Rattle.std.specs.Prelude.{◌≡◌, ◌≤◌, ℕ, List as ListOf, None, length, IfOk, IfErr};
ghost use Rattle.aplc_names.specs.PlainPrograms.{plain};
ghost use Rattle.aplc_names.specs.States.{Marking};
ghost use Rattle.aplc_infer.specs.Shown.{IsInferred};
ghost use Rattle.aplc_cprof.specs.Behaviour.{behaviour, Alike};
ghost use Rattle.aplc_cprof.specs.WellFormed.{IsWellFormed};
ghost use Rattle.aplc_gen.specs.Shown.{source_behaviour};
ghost use Rattle.aplc_gen.specs.Unbuilt.{first_place};
ghost use Rattle.aplc_cli.specs.Sources.{IsSource, source_limit};
ghost use Rattle.aplc_cli.specs.Compiled.{Behaves};
ghost use Rattle.aplc_cli.specs.Came.{result_map};
ghost use Rattle.aplc_cli.specs.Call.{Compiles, StopsAt};

use crate::reading::{Typed, read_program};
use crate::status::Stop;
use aplc_core::{CoreProgram, lower};
use aplc_cprof::{CProgram, print};
use aplc_gen::{first_unbuilt, generate};
use aplc_lex::Refusal;
use aplc_plan::plan;
use std::alloc::{AllocError, Global};

/// The most bytes that a source may have.
pub const SOURCE_LIMIT: u64 = 262_144;

/// What a source is compiled to.
#[derive(Drop)]
pub struct Compiled {
    pub program: CProgram,
    /// The program's text.
    pub text: Vec<u8>,
}

/// The program of a file, all of which is built, with its facts.
fn read_built(alloc: Global, file: &[u8]) -> Result<Typed, Stop>
    requires { length file.now ≤ source_limit }
    ensures source { IfOk result (λ t. IsSource file.now t.bound) }
    ensures inferred { IfOk result (λ t. IsInferred t.bound t.facts) }
    ensures built { IfOk result (λ t. first_place t.bound t.facts ≡ None) }
    ensures refused { IfErr result (StopsAt file.now) }
{
    let typed = match read_program(alloc, file) {
        Ok(typed) => typed,
        Err(aplc_names::Stop::Refused(refusal)) => return Err(Stop::Refused(refusal)),
        Err(aplc_names::Stop::Memory) => return Err(Stop::Memory),
    };
    match first_unbuilt(typed.bound.program(), &typed.facts) {
        Some(place) => Err(Stop::Refused(Refusal { number: 90, place })),
        None => Ok(typed),
    }
}

/// The lowered program of a file. Its facts stand in it once more, and those that were inferred are dropped.
fn lower_file(alloc: Global, file: &[u8]) -> Result<CoreProgram, Stop>
    requires { length file.now ≤ source_limit }
    ensures source { IfOk result (λ c. IsSource file.now c.program) }
    ensures built { IfOk result (λ c. first_place c.program c.facts ≡ None) }
    ensures refused { IfErr result (StopsAt file.now) }
{
    let Typed { bound, facts } = read_built(alloc, file)?;
    match lower(alloc, bound, &facts) {
        Ok(core) => Ok(core),
        Err(_) => Err(Stop::Memory),
    }
}

/// The C program of a lowered program, after its plan.
fn plan_and_generate(alloc: Global, core: &CoreProgram) -> Result<CProgram, AllocError>
    requires built { first_place core.now.program core.now.facts ≡ None }
    ensures formed { IfOk result (λ c. IsWellFormed c) }
    ensures alike { IfOk result
        (λ c. (m : Marking) (input : ListOf ℕ) → Alike (source_behaviour (plain core.now.program) m input) (behaviour c input)) }
{
    let plan = plan(alloc, core)?;
    generate(alloc, core, &plan)
}

/// The C program of a file of at most `SOURCE_LIMIT` bytes, or its refusal.
fn compile_program(alloc: Global, file: &[u8]) -> Result<CProgram, Stop>
    requires { length file.now ≤ source_limit }
    ensures made { IfOk result (Behaves file.now) }
    ensures refused { IfErr result (StopsAt file.now) }
{
    let core = lower_file(alloc, file)?;
    match plan_and_generate(alloc, &core) {
        Ok(program) => Ok(program),
        Err(_) => Err(Stop::Memory),
    }
}

/// The program and the C text of a file of at most `SOURCE_LIMIT` bytes, or its refusal.
pub fn compile(alloc: Global, file: &[u8]) -> Result<Compiled, Stop>
    requires { length file.now ≤ source_limit }
    ensures { Compiles file.now (result_map (λ c. (c.program, c.text.items)) result) }
{
    let program = compile_program(alloc, file)?;
    match print(alloc, &program) {
        Ok(text) => Ok(Compiled { program, text }),
        Err(_) => Err(Stop::Memory),
    }
}
