//! Programs whose names are resolved.
//! It must not know what a program does.

ghost use Rattle.std.specs.Prelude.{◌≡◌, ◌≤◌, ◌<◌, map, length, true, Some, IfOk, IfErr};
ghost use Rattle.aplc_lex.specs.declared.token.Refusal.{Refusal};
ghost use Rattle.aplc_syntax.specs.declared.tree.Program.{Program};
ghost use Rattle.aplc_lex.specs.Firsts.{SaysFirst};
ghost use Rattle.aplc_names.specs.Tables.{first, stands_in};
ghost use Rattle.aplc_names.specs.Outlines.{outlines};
ghost use Rattle.aplc_names.specs.Scopes.{function_names, local_or_global, scope_of, start_of, IsScope};
ghost use Rattle.aplc_names.specs.Lookups.{line_or, scope_found, all_label_lines};
ghost use Rattle.aplc_names.specs.Fits.{HasFittingStatements, HasNames, HasNumberedNodes, is_origin, HasSmallRanks};
ghost use Rattle.aplc_lex.specs.Firsts.{IsFirstOf, earlier};
ghost use Rattle.aplc_names.specs.Clashes.{Stands, var_name};
ghost use Rattle.aplc_names.specs.Literals.{HasNumbersInRange, elements};
ghost use Rattle.aplc_names.specs.Programs.{IsParsed, IsClean, HasShortFunctions, HasSmallStatements, HasNamesBelow};

use crate::clashes::{again, in_functions, mainless, taken};
use crate::entry::start_number;
use crate::labels::label_lines_of;
use crate::outline::{Outline, outlines_of};
use crate::scope::Scope;
use crate::shadows::shadows;
use crate::table::Table;
use aplc_lex::{List, Refusal, Stop, earlier};
use aplc_syntax::{NameId, Named, Program, Var};
use std::alloc::{AllocError, Global};
use std::marker::Model;

/// A program that nothing refuses, and what each name is in it. Its text has at most 262,144 bytes.
#[derive(Drop)]
pub struct Bound {
    program: Program,
    heads: Table,
    outlines: Vec<Outline>,
    lines: Vec<List<i64>>,
}

impl Model for Bound {
    ghost use Rattle.aplc_syntax.specs.declared.tree.Program.{Program};
    ghost use Rattle.aplc_syntax.specs.contracts.tree.Program as p;
    ghost use Rattle.aplc_names.specs.Programs.{IsResolved};

    ghost Value = { Program };

    ghost coded = { p.the_row.coded };

    ghost view = { λ b. b.program };

    ghost invariant = { λ b. IsResolved b.program b.heads b.outlines.items b.lines.items };
}

/// The line of a label, or else this.
fn line_or(place: Option<usize>, lines: &[i64], other: Scope) -> Scope
    ensures { result ≡ line_or place lines.now other }
{
    match place {
        None => other,
        Some(i) => match lines.get(i) {
            Some(line) => Scope::Label(*line),
            None => other,
        },
    }
}

fn local_scope(outline: &Outline, lines: &[i64], name: NameId) -> Scope
    ensures { result ≡ line_or (first name.0 outline.now.labels) lines.now (local_or_global (stands_in name.0 outline.now.locals)) }
{
    let other = if outline.locals.has(name) {
        Scope::Local
    } else {
        Scope::Global
    };
    line_or(outline.labels.first(name), lines, other)
}

/// What a name is in a function.
fn scope_found(heads: &Table, outline: &Outline, lines: &[i64], name: NameId) -> Scope
    requires { length heads.now ≤ 999 }
    ensures { result ≡ scope_found heads.now outline.now lines.now name.0 }
{
    match heads.first(name) {
        Some(i) => Scope::Function(i as u32),
        None => local_scope(outline, lines, name),
    }
}

impl Bound {
    /// The program, which nothing refuses. Its text has at most 262,144 bytes. Each statement fits the
    /// functions of the program: functions stand with the arguments that they take, a call of a function without a
    /// result at the root alone; numbers and characters lie in their ranges.
    pub fn program(&self) -> &Program
        ensures program { result.now ≡ self.now }
        ensures parsed { ∥ IsParsed self.now ∥₁ }
        ensures clean { IsClean self.now }
        ensures few { length self.now.functions ≤ 999 }
        ensures short { HasShortFunctions self.now }
        ensures small { HasSmallStatements self.now }
        ensures fitting { HasFittingStatements self.now }
        ensures numbers { HasNumbersInRange self.now }
        ensures numbered { HasNumberedNodes self.now }
        ensures names { length self.now.names ≤ 262144 }
        ensures named { HasNames self.now }
        ensures below { HasNamesBelow self.now }
        ensures elements { elements self.now ≤ 262144 }
        ensures origin { is_origin self.now.origin ≡ true }
        ensures ranks { HasSmallRanks self.now }
    {
        &self.program
    }

    /// What a name is in the function of this number, counted from 0. A function is below the number of functions and
    /// has the name; a label's line has it as its label.
    pub fn scope(&self, function: usize, name: NameId) -> Scope
        requires function { function < length self.now.functions }
        ensures scope { result ≡ scope_of self.now function name.0 }
        ensures stands { IsScope self.now function name.0 result }
    {
        let known = self.outlines.as_slice();
        let labelled = self.lines.as_slice();
        scope_found(
            &self.heads,
            &known[function],
            labelled[function].as_slice(),
            name,
        )
    }

    /// The number of the function where the program starts: the first MAIN without arguments and result.
    pub fn start(&self) -> usize
        ensures start { start_of self.now ≡ Some result }
        ensures within { result < length self.now.functions }
    {
        start_number(&self.program)
    }
}

fn var_names(alloc: Global, vars: &[Var]) -> Result<Vec<Named>, AllocError>
    ensures { IfOk result (λ v. v.items ≡ map var_name vars.now) }
{
    vars.iter().map(|v| v.name).collect(alloc)
}

fn own_names(alloc: Global, known: &[Outline]) -> Result<Vec<Named>, AllocError>
    ensures { IfOk result (λ v. v.items ≡ function_names known.now) }
{
    known.iter().map(|f| f.name).collect(alloc)
}

/// The first of six refusals.
fn first_of(
    a: Option<Refusal>,
    b: Option<Refusal>,
    c: Option<Refusal>,
    d: Option<Refusal>,
    e: Option<Refusal>,
    f: Option<Refusal>,
) -> Option<Refusal>
    ensures { result ≡ earlier (earlier (earlier (earlier (earlier a b) c) d) e) f }
{
    earlier(earlier(earlier(earlier(earlier(a, b), c), d), e), f)
}

/// The first refusal of a program.
fn first_refusal(
    alloc: Global,
    program: &Program,
    heads: &Table,
    known: &[Outline],
) -> Result<Option<Refusal>, AllocError>
    requires heads { heads.now ≡ function_names known.now }
    requires all { known.now ≡ outlines program.now }
    ensures { IfOk result (IsFirstOf (Stands program.now)) }
{
    let declared = program.vars.as_slice();
    let listed = var_names(alloc, declared)?;
    let vars = Table::new(alloc, listed)?;
    let names = program.names.as_slice();
    let a = again(heads);
    let b = again(&vars);
    let list = vars.names();
    let c = taken(heads, list);
    let d = mainless(names, known);
    let e = in_functions(heads, known);
    let f = shadows(alloc, heads, known)?;
    Ok(first_of(a, b, c, d, e, f))
}

/// What was found out of a program.
#[derive(Drop)]
struct Findings {
    heads: Table,
    outlines: Vec<Outline>,
    lines: Vec<List<i64>>,
    first: Option<Refusal>,
}

fn examine(alloc: Global, program: &Program) -> Result<Findings, AllocError>
    requires { IsParsed program.now }
    ensures heads { IfOk result (λ found. found.heads ≡ function_names (outlines program.now)) }
    ensures all { IfOk result (λ found. found.outlines.items ≡ outlines program.now) }
    ensures lines { IfOk result (λ found. found.lines.items ≡ all_label_lines program.now) }
    ensures first { IfOk result (λ found. IsFirstOf (Stands program.now) found.first) }
{
    let functions = program.functions.as_slice();
    let outlines = outlines_of(alloc, functions)?;
    let known = outlines.as_slice();
    let names = own_names(alloc, known)?;
    let heads = Table::new(alloc, names)?;
    let lines = label_lines_of(alloc, functions)?;
    let first = first_refusal(alloc, program, &heads, known)?;
    Ok(Findings {
        heads,
        outlines,
        lines,
        first,
    })
}

fn bind(program: Program, found: Findings) -> Result<Bound, Stop>
    requires parsed { IsParsed program }
    requires heads { found.heads ≡ function_names (outlines program) }
    requires all { found.outlines.items ≡ outlines program }
    requires lines { found.lines.items ≡ all_label_lines program }
    requires first { IsFirstOf (Stands program) found.first }
    ensures bound { IfOk result (λ b. b ≡ program) }
    ensures clean { IfOk result (λ b. IsClean program) }
    ensures refused { IfErr result (SaysFirst (Stands program)) }
{
    let Findings {
        heads,
        outlines,
        lines,
        first,
    } = found;
    match first {
        Some(r) => Err(Stop::Refused(r)),
        None => Ok(Bound {
            program,
            heads,
            outlines,
            lines,
        }),
    }
}

/// The program with what each name is in it, or its first refusal: 12 where a name stands twice or is a function's, 14
/// where a caller hides a global name that is used, 15 where there is no MAIN that neither takes nor gives anything,
/// 16 where a function or a label is to be assigned. The smallest place counts, then the smallest number.
/// `Memory` says nothing of the program.
pub fn resolve(alloc: Global, program: Program) -> Result<Bound, Stop>
    requires { IsParsed program }
    ensures bound { IfOk result (λ b. b ≡ program) }
    ensures clean { IfOk result (λ b. IsClean program) }
    ensures refused { IfErr result (SaysFirst (Stands program)) }
{
    match examine(alloc, &program) {
        Err(_) => Err(Stop::Memory),
        Ok(found) => bind(program, found),
    }
}
