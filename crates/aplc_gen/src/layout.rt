//! The making of a program's variables.
//! It must not know what the code does with them.

ghost use Rattle.std.specs.Prelude.{◌≡◌, ◌<◌, ◌≤◌, [], true, IfOk, OnOk, length, map, option_map, unwrap_or};
ghost use Rattle.std.specs.Option.{option_to_list};
ghost use Rattle.aplc_names.specs.PlainPrograms.{names_of_header, name_number, routine_of};
ghost use Rattle.aplc_names.specs.Eager.{function_of};
ghost use Rattle.aplc_core.specs.PlainSteps.{term_of, effect_of, slot_number};
ghost use Rattle.aplc_core.specs.CoreRuns.{steps_at};
ghost use Rattle.aplc_core.specs.Lowering.{lowered_routine};
ghost use Rattle.aplc_gen.specs.Layouts.{routine_at};
ghost use Rattle.aplc_gen.specs.Sound.{is_sound};
ghost use Rattle.aplc_gen.specs.Writing.{lowered_core, HasShortLists};
ghost use Rattle.aplc_gen.specs.Made.{no_needs, with_each, with_global, with_slot, with_slots, term_needs, step_needs, steps_need, routine_needs, parameters, frame_made, layout_with, layout_of, is_low_term, is_low_slot, is_low_step, are_low_steps, is_low_routine, is_modest};

use crate::frame::{Frame, Layout};
use crate::names::Names;
use aplc_core::{CoreProgram, SlotId, Step, Tree};
use aplc_names::Scope;
use aplc_syntax::{Function, NameId, Named};
use std::alloc::{AllocError, Global};
use std::marker::Model;

/// What steps need.
#[derive(Drop)]
struct Needs {
    globals: Names,
    called: Names,
    slots: u32,
}

impl Model for Needs {
    ghost use Rattle.aplc_gen.specs.Made.{Needs, needs_code};

    ghost Value = { Needs };

    ghost coded = { needs_code };

    ghost view = { λ s. record { globals = s.globals; called = s.called; slots = s.slots } };
}

/// The function of this number.
#[tactic(auto, using(crate::proofs::There::function_is))]
fn function_at(core: &CoreProgram, number: usize) -> &Function
    requires { number < length core.now.program.functions }
    ensures routine { routine_at (lowered_core core.now) number ≡ lowered_routine (routine_of core.now.program result.now) }
    ensures few { length result.now.lines ≤ 999 }
{
    &core.bound().program().functions.as_slice()[number]
}

/// How many lines it has.
#[tactic(auto, using(crate::proofs::Sites::lines_are))]
fn line_count(core: &CoreProgram, number: usize) -> usize
    requires { number < length core.now.program.functions }
    ensures lines { result ≡ length (routine_at (lowered_core core.now) number).steps }
    ensures few { result ≤ 999 }
{
    function_at(core, number).lines.as_slice().len()
}

/// The steps of a line, counted from 1.
#[tactic(auto, using(crate::proofs::Sites::steps_are))]
fn steps_of(core: &CoreProgram, number: usize, line: usize) -> &[Step]
    ensures { map effect_of result.now ≡ unwrap_or (steps_at (routine_at (lowered_core core.now) number).steps line) [] }
{
    core.steps(number, line)
}

/// The function that is called by a name.
fn function_of(scope: Scope) -> u32
    ensures { result ≡ function_of scope }
{
    match scope {
        Scope::Function(function) => function,
        _ => 0,
    }
}

/// What a name is in a function.
#[tactic(auto, using(crate::proofs::Sites::scopes))]
fn scope_in(core: &CoreProgram, function: usize, name: NameId) -> Scope
    requires { function < length core.now.program.functions }
    ensures { result ≡ (routine_at (lowered_core core.now) function).header.scope name.0 }
{
    core.bound().scope(function, name)
}

impl Needs {
    fn new(alloc: Global) -> Needs
        ensures { result ≡ no_needs }
    {
        Needs {
            globals: Names::new(alloc),
            called: Names::new(alloc),
            slots: 0,
        }
    }

    fn add_name(&mut self, scope: Scope, name: NameId) -> Result<(), AllocError>
        ensures { OnOk result (self.new ≡ with_global scope name.0 self.old) }
    {
        match scope {
            Scope::Global => self.globals.add(name.0),
            _ => Ok(()),
        }
    }

    fn add_slot(&mut self, slot: SlotId)
        requires { slot.0 < 2000 }
        ensures { self.new ≡ with_slot slot.0 self.old }
    {
        self.slots = self.slots.max(slot.0 + 1);
    }

    fn add_slots(&mut self, slot: Option<SlotId>)
        requires { is_low_slot (option_map slot_number slot) ≡ true }
        ensures { self.new ≡ with_slots (option_map slot_number slot) self.old }
    {
        match slot {
            None => (),
            Some(slot) => self.add_slot(slot),
        }
    }

    /// What a tree needs.
    #[tactic(auto, using(aplc_core::proofs::TermForms::term_forms))]
    fn add_tree(
        &mut self,
        core: &CoreProgram,
        function: usize,
        tree: &Tree,
    ) -> Result<(), AllocError>
        requires function { function < length core.now.program.functions }
        requires low { is_low_term (routine_at (lowered_core core.now) function).header.scope (names_of_header (routine_at (lowered_core core.now) function).header) (term_of tree.now) ≡ true }
        ensures { OnOk result (self.new ≡ term_needs (routine_at (lowered_core core.now) function).header.scope (term_of tree.now) self.old) }
    {
        match tree {
            Tree::Read(_, name) => self.add_name(scope_in(core, function, *name), *name),
            Tree::Slot(_, slot) => {
                self.add_slot(*slot);
                Ok(())
            }
            Tree::Mono(_, _, argument) => self.add_tree(core, function, argument.get()),
            Tree::Dyad(_, _, left, right) => {
                self.add_tree(core, function, right.get())?;
                self.add_tree(core, function, left.get())
            }
            _ => Ok(()),
        }
    }

    /// What a step needs.
    fn add_step(
        &mut self,
        core: &CoreProgram,
        function: usize,
        step: &Step,
    ) -> Result<(), AllocError>
        requires function { function < length core.now.program.functions }
        requires low { is_low_step (routine_at (lowered_core core.now) function).header.scope (names_of_header (routine_at (lowered_core core.now) function).header) (effect_of step.now) ≡ true }
        ensures { OnOk result (self.new ≡ step_needs (routine_at (lowered_core core.now) function).header.scope (effect_of step.now) self.old) }
    {
        match step {
            Step::Keep(slot, tree) => {
                self.add_tree(core, function, tree)?;
                self.add_slot(*slot);
                Ok(())
            }
            Step::Store(_, name, tree) => {
                self.add_tree(core, function, tree)?;
                self.add_name(scope_in(core, function, *name), *name)
            }
            Step::Call(_, name, left, right, to) => {
                self.called
                    .add(function_of(scope_in(core, function, *name)))?;
                self.add_slots(*left);
                self.add_slots(*right);
                self.add_slots(*to);
                Ok(())
            }
            Step::Show(_, tree) => self.add_tree(core, function, tree),
            Step::Branch(tree) => self.add_tree(core, function, tree),
            _ => Ok(()),
        }
    }

    /// What the steps of a line need.
    fn add_steps(
        &mut self,
        core: &CoreProgram,
        function: usize,
        steps: &[Step],
    ) -> Result<(), AllocError>
        requires function { function < length core.now.program.functions }
        requires low { are_low_steps (routine_at (lowered_core core.now) function).header.scope (names_of_header (routine_at (lowered_core core.now) function).header) (map effect_of steps.now) ≡ true }
        ensures { OnOk result (self.new ≡ steps_need (routine_at (lowered_core core.now) function).header.scope (map effect_of steps.now) self.old) }
    {
        for step in steps {
            self.add_step(core, function, step)?;
        }
        Ok(())
    }

    /// What the lines of a function need. Its slots are its own.
    #[tactic(auto, using(crate::proofs::Laying::lines_needed))]
    fn add_routine(&mut self, core: &CoreProgram, function: usize) -> Result<(), AllocError>
        requires function { function < length core.now.program.functions }
        requires low { is_low_routine (routine_at (lowered_core core.now) function) ≡ true }
        ensures { OnOk result (self.new ≡ routine_needs (routine_at (lowered_core core.now) function) self.old) }
    {
        self.slots = 0;
        for index in 0..line_count(core, function) {
            self.add_steps(core, function, steps_of(core, function, index + 1))?;
        }
        Ok(())
    }

    /// The layout of a program that needs this, with these variables of its functions.
    fn layout(self, alloc: Global, frames: Vec<Frame>) -> Result<Layout, AllocError>
        requires short { HasShortLists (layout_with self frames.items) }
        ensures { IfOk result (λ y. y ≡ layout_with self frames.items) }
    {
        let Needs {
            globals,
            called,
            slots: _,
        } = self;
        let unsure = globals.copy(alloc)?;
        let counted = called.len() != 0;
        Ok(Layout::new(globals, unsure, called, counted, frames))
    }
}

/// Puts a name behind the others, if there is one.
fn add_named(names: &mut Names, named: Option<Named>) -> Result<(), AllocError>
    ensures { OnOk result (names.new ≡ with_each names.old (option_to_list (option_map name_number named))) }
{
    match named {
        None => Ok(()),
        Some(named) => names.add(named.name.0),
    }
}

/// Puts names behind the others.
fn add_locals(names: &mut Names, locals: &[Named]) -> Result<(), AllocError>
    ensures { OnOk result (names.new ≡ with_each names.old (map name_number locals.now)) }
{
    for local in locals {
        names.add(local.name.0)?;
    }
    Ok(())
}

/// The names of a header but the function's own, each once.
#[tactic(auto, using(crate::proofs::Laying::header_each))]
fn header_names(alloc: Global, core: &CoreProgram, function: usize) -> Result<Names, AllocError>
    requires { function < length core.now.program.functions }
    ensures { IfOk result (λ ns. ns ≡ with_each [] (names_of_header (routine_at (lowered_core core.now) function).header)) }
{
    let header = function_at(core, function);
    let mut names = Names::new(alloc);
    add_named(&mut names, header.result)?;
    add_named(&mut names, header.left)?;
    add_named(&mut names, header.right)?;
    add_locals(&mut names, header.locals.as_slice())?;
    Ok(names)
}

/// The arguments.
#[tactic(auto, using(crate::proofs::Laying::parameters_each))]
fn parameters(alloc: Global, core: &CoreProgram, function: usize) -> Result<Names, AllocError>
    requires { function < length core.now.program.functions }
    ensures { IfOk result (λ ns. ns ≡ with_each [] (parameters (routine_at (lowered_core core.now) function))) }
{
    let header = function_at(core, function);
    let mut names = Names::new(alloc);
    add_named(&mut names, header.left)?;
    add_named(&mut names, header.right)?;
    Ok(names)
}

/// The variables of a function whose lines use this many slots.
#[tactic(auto, using(crate::proofs::Laying::frame_short))]
fn frame(
    alloc: Global,
    core: &CoreProgram,
    function: usize,
    slots: u32,
) -> Result<Frame, AllocError>
    requires function { function < length core.now.program.functions }
    requires low { is_low_routine (routine_at (lowered_core core.now) function) ≡ true }
    requires slots { slots ≤ 2000 }
    ensures { IfOk result (λ f. f ≡ frame_made (routine_at (lowered_core core.now) function) slots) }
{
    let names = header_names(alloc, core, function)?;
    let unsure = names.copy(alloc)?;
    let sure = parameters(alloc, core, function)?;
    Ok(Frame::new(names, unsure, slots, sure))
}

/// The variables that a program gets: those of its functions, and those of the global names that its lines use.
#[tactic(auto, using(crate::proofs::Laying::frames_left))]
pub(crate) fn layout(alloc: Global, core: &CoreProgram) -> Result<Layout, AllocError>
    requires sound { is_sound (lowered_core core.now) ≡ true }
    requires modest { is_modest (lowered_core core.now) ≡ true }
    ensures made { IfOk result (λ y. y ≡ layout_of (lowered_core core.now)) }
{
    let mut needs = Needs::new(alloc);
    let mut frames = Vec::new(alloc);
    for function in 0..core.bound().program().functions.as_slice().len() {
        needs.add_routine(core, function)?;
        frames.push(frame(alloc, core, function, needs.slots)?)?;
    }
    needs.layout(alloc, frames)
}
