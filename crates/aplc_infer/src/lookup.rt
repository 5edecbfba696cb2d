//! A program with what names are in each of its functions.
//! It must not know the facts of names.

ghost use Rattle.std.specs.Prelude.{◌≡◌, ◌≤◌, ◌++◌, [], length, map, flat_map, Some, IfOk, OnOk, option_map, slice_get};
ghost use Rattle.std.specs.Option.{option_to_list};
ghost use Rattle.aplc_names.specs.Clashes.{var_name};
ghost use Rattle.aplc_names.specs.PlainPrograms.{plain, routine_of, line_action, name_number};
ghost use Rattle.aplc_names.specs.Scopes.{scope_of};
ghost use Rattle.aplc_infer.specs.Seeing.{is_local, with_each, local_ones, mentioned, action_mentions, local_names, number_in, declared_kind, declared_fact, declarations};
ghost use Rattle.aplc_infer.specs.Lookups.{routine_at, binding_at};

use crate::cell::Binding;
use crate::fact::{FactKind, Inferred};
use crate::locals::Locals;
use crate::rules::unknown;
use aplc_names::{Bound, Mention, Scope, Table, put_statement};
use aplc_scalar::Kind;
use aplc_syntax::{Function, Line, NameId, Named, Program, Var};
use std::alloc::{AllocError, Global};
use std::marker::Model;

/// A program, the local names of its functions, and the names that it declares.
#[derive(Drop)]
pub struct Lookup<'a> {
    bound: &'a Bound,
    locals: Vec<Locals>,
    vars: Table,
}

impl<'a> Model for Lookup<'a> {
    ghost use Rattle.aplc_syntax.specs.declared.tree.Program.{Program};
    ghost use Rattle.aplc_syntax.specs.contracts.tree.Program as p;
    ghost use Rattle.aplc_infer.specs.Lookups.{IsLookup};

    ghost Value = { Program };

    ghost coded = { p.the_row.coded };

    ghost view = { λ x. x.bound.now };

    ghost invariant = { λ x. IsLookup x.bound.now x.locals.items x.vars };
}

// ---- Declarations

fn declared_kind(kind: Kind) -> FactKind
    ensures { result ≡ declared_kind kind }
{
    match kind {
        Kind::Num => FactKind::Num,
        Kind::Char => FactKind::Char,
    }
}

/// What a declaration says of its name: kind and rank, and no length.
fn declared_fact(var: &Var) -> Inferred
    requires { var.now.rank ≤ 8 }
    ensures { result ≡ declared_fact var.now }
{
    Inferred::Of(declared_kind(var.kind), Some(unknown(var.rank as usize)))
}

fn var_names(alloc: Global, vars: &[Var]) -> Result<Vec<Named>, AllocError>
    ensures { IfOk result (λ v. v.items ≡ map var_name vars.now) }
{
    vars.iter().map(|v| v.name).collect(alloc)
}

// ---- Local names

/// What a name is in the function of this number. In no function it is a global name.
fn scope_in(bound: &Bound, function: usize, name: NameId) -> Scope
    ensures { result ≡ scope_of bound.now function name.0 }
{
    if function < bound.program().functions.as_slice().len() {
        bound.scope(function, name)
    } else {
        Scope::Global
    }
}

fn is_local(scope: Scope) -> bool
    ensures { result ≡ is_local scope }
{
    match scope {
        Scope::Local => true,
        _ => false,
    }
}

/// The names in the statements of lines.
#[tactic(auto, using(crate::proofs::Names::action_names))]
fn mentions_in(alloc: Global, lines: &[Line]) -> Result<Vec<Mention>, AllocError>
    ensures { IfOk result (λ v. v.items ≡ flat_map action_mentions (map line_action lines.now)) }
{
    let mut out = Vec::new(alloc);
    for line in lines {
        put_statement(&mut out, &line.statement)?;
    }
    Ok(out)
}

fn add_named(locals: &mut Locals, named: Option<Named>) -> Result<(), AllocError>
    ensures { OnOk result (locals.new ≡ with_each locals.old (option_to_list (option_map name_number named))) }
{
    match named {
        None => Ok(()),
        Some(x) => locals.add(x.name.0),
    }
}

/// Adds the local names among these of the function of this number.
fn add_mentions(
    locals: &mut Locals,
    bound: &Bound,
    function: usize,
    mentions: &[Mention],
) -> Result<(), AllocError>
    ensures { OnOk result (locals.new ≡ with_each locals.old (local_ones (scope_of bound.now function) (map mentioned mentions.now))) }
{
    for mention in mentions {
        if is_local(scope_in(bound, function, mention.name)) {
            locals.add(mention.name.0)?;
        }
    }
    Ok(())
}

/// The names of a header that have a value when the function is entered or left.
#[tactic(auto, using(crate::proofs::Names::each_more))]
fn header_locals(alloc: Global, function: &Function) -> Result<Locals, AllocError>
    ensures { IfOk result (λ l. l ≡ with_each [] (option_to_list (option_map name_number function.now.result) ++ option_to_list (option_map name_number function.now.left) ++ option_to_list (option_map name_number function.now.right))) }
{
    let mut locals = Locals::new(alloc);
    add_named(&mut locals, function.result)?;
    add_named(&mut locals, function.left)?;
    add_named(&mut locals, function.right)?;
    Ok(locals)
}

/// The local names of the function of this number.
fn locals_of(
    alloc: Global,
    bound: &Bound,
    number: usize,
    function: &Function,
) -> Result<Locals, AllocError>
    requires { slice_get bound.now.functions number ≡ Some function.now }
    ensures { IfOk result (λ l. l ≡ local_names (routine_of bound.now function.now)) }
{
    let mut locals = header_locals(alloc, function)?;
    let mentions = mentions_in(alloc, function.lines.as_slice())?;
    add_mentions(&mut locals, bound, number, mentions.as_slice())?;
    Ok(locals)
}

fn all_locals(alloc: Global, bound: &Bound) -> Result<Vec<Locals>, AllocError>
    ensures { IfOk result (λ v. v.items ≡ map local_names (plain bound.now).routines) }
{
    let functions = bound.program().functions.as_slice();
    let mut out = Vec::new(alloc);
    for number in 0..functions.len() {
        out.push(locals_of(alloc, bound, number, &functions[number])?)?;
    }
    Ok(out)
}

impl<'a> Lookup<'a> {
    pub fn new(alloc: Global, bound: &'a Bound) -> Result<Lookup<'a>, AllocError>
        ensures { IfOk result (λ x. x ≡ bound.now) }
    {
        let names = var_names(alloc, bound.program().vars.as_slice())?;
        let vars = Table::new(alloc, names)?;
        let locals = all_locals(alloc, bound)?;
        Ok(Lookup {
            bound,
            locals,
            vars,
        })
    }

    pub fn program(&self) -> &Program
        ensures { result.now ≡ self.now }
    {
        self.bound.program()
    }

    pub fn origin(&self) -> i64
        ensures { result ≡ self.now.origin }
    {
        self.bound.program().origin
    }

    /// How many local names a function has.
    #[tactic(auto, using(crate::proofs::Numbered::counts))]
    pub fn count(&self, function: usize) -> usize
        ensures { result ≡ length (local_names (routine_at self.now function)) }
    {
        match self.locals.get(function) {
            None => 0,
            Some(names) => names.len(),
        }
    }

    /// The number of a local name of a function.
    #[tactic(auto, using(crate::proofs::Numbered::numbers))]
    pub fn number(&self, function: usize, name: NameId) -> usize
        ensures { result ≡ number_in name.0 (local_names (routine_at self.now function)) }
    {
        match self.locals.get(function) {
            None => 0,
            Some(names) => names.number(name.0),
        }
    }

    /// The fact of a declared name.
    pub fn declared(&self, name: NameId) -> Option<Inferred>
        ensures { result ≡ declarations self.now.vars name.0 }
    {
        let vars = self.bound.program().vars.as_slice();
        match self.vars.first(name) {
            None => None,
            Some(i) => Some(declared_fact(&vars[i])),
        }
    }

    /// What a name is in the function of this number. In no function it is a global name.
    pub fn binding(&self, function: usize, name: NameId) -> Binding
        ensures { result ≡ binding_at self.now function name.0 }
    {
        match scope_in(self.bound, function, name) {
            Scope::Local => Binding::Local(self.number(function, name)),
            Scope::Label(line) => Binding::Label(line),
            Scope::Function(number) => Binding::Function(number as usize),
            Scope::Global => Binding::Global,
        }
    }
}
