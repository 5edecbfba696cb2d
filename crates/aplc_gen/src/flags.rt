//! The names that are read where they are not known to have a value: these need a flag.
//! It must not know which variables there are.

ghost use Rattle.std.specs.Prelude.{◌≡◌, ◌+◌, ◌≤◌, [], false, Some, IfOk, OnOk, map, length, drop};
ghost use Rattle.aplc_core.specs.PlainSteps.{term_of, effect_of};
ghost use Rattle.aplc_gen.specs.Layouts.{the_routine};
ghost use Rattle.aplc_gen.specs.Emitted.{known_after, known_behind, known_through};
ghost use Rattle.aplc_gen.specs.Laid.{known_at_end};
ghost use Rattle.aplc_gen.specs.Writing.{site_of};
ghost use Rattle.aplc_gen.specs.Sparing.{no_flags, with_flag, read_flags, term_flags, step_flags, steps_flags, lines_flags, arms_flags, result_flags, sure_of, site_flags};

use crate::flow::Flow;
use crate::known::Known;
use crate::names::Names;
use crate::segments::{first_known, is_left};
use crate::site::Site;
use crate::statements::{branches, is_blank, is_branch};
use aplc_core::{Step, Tree};
use aplc_names::Scope;
use std::alloc::{AllocError, Global};
use std::marker::Model;

/// Names that are read where they are not known to have a value, the latest first.
#[derive(Drop)]
pub struct Flags {
    /// Of the function that was gone through last.
    locals: Known,
    /// Of all functions.
    globals: Known,
}

impl Model for Flags {
    ghost use Rattle.aplc_gen.specs.Sparing.{Flags, flags_code};

    ghost Value = { Flags };

    ghost coded = { flags_code };

    ghost view = { λ s. record { locals = s.locals; globals = s.globals } };
}

impl Flags {
    pub fn new(alloc: Global) -> Flags
        ensures { result ≡ no_flags }
    {
        Flags {
            locals: Known::new(alloc),
            globals: Known::new(alloc),
        }
    }

    pub fn locals(&self) -> &Known
        ensures { result.now ≡ self.now.locals }
    {
        &self.locals
    }

    pub fn globals(&self) -> &Known
        ensures { result.now ≡ self.now.globals }
    {
        &self.globals
    }

    fn add(&mut self, scope: Scope, name: u32) -> Result<(), AllocError>
        ensures { OnOk result (self.new ≡ with_flag scope name self.old) }
    {
        match scope {
            Scope::Local => self.locals.add(name),
            Scope::Label(_) => Ok(()),
            _ => self.globals.add(name),
        }
    }

    /// A name is read.
    fn add_read(&mut self, known: &Known, scope: Scope, name: u32) -> Result<(), AllocError>
        ensures { OnOk result (self.new ≡ read_flags known.now scope name self.old) }
    {
        if known.has(name) {
            return Ok(());
        }
        self.add(scope, name)
    }

    /// A tree comes to its value.
    #[cycle(trees)]
    #[tactic(auto, using(aplc_core::proofs::TermForms::term_forms))]
    fn add_tree(&mut self, site: &Site, known: &mut Known, tree: &Tree) -> Result<(), AllocError>
        ensures flags { OnOk result (self.new ≡ term_flags (the_routine (site_of site.now)).header.scope known.old (term_of tree.now) self.old) }
        ensures known { OnOk result (known.new ≡ known_after known.old (term_of tree.now)) }
    {
        match tree {
            Tree::Read(_, name) => {
                self.add_read(known, site.scope(*name), name.0)?;
                known.add(name.0)
            }
            Tree::Mono(_, _, argument) => self.add_tree(site, known, argument.get()),
            Tree::Dyad(_, _, left, right) => {
                self.add_tree(site, known, right.get())?;
                self.add_tree(site, known, left.get())
            }
            _ => Ok(()),
        }
    }

    /// The tree of a branch. What is known behind it is what was known before.
    fn add_branch(
        &mut self,
        alloc: Global,
        site: &Site,
        known: &Known,
        tree: &Tree,
    ) -> Result<(), AllocError>
        ensures { OnOk result (self.new ≡ term_flags (the_routine (site_of site.now)).header.scope known.now (term_of tree.now) self.old) }
    {
        let mut own = known.copy(alloc)?;
        self.add_tree(site, &mut own, tree)
    }

    fn add_step(
        &mut self,
        alloc: Global,
        site: &Site,
        known: &mut Known,
        step: &Step,
    ) -> Result<(), AllocError>
        ensures flags { OnOk result (self.new ≡ step_flags (the_routine (site_of site.now)).header.scope known.old (effect_of step.now) self.old) }
        ensures known { OnOk result (known.new ≡ known_behind known.old (effect_of step.now)) }
    {
        match step {
            Step::Keep(_, tree) => self.add_tree(site, known, tree),
            Step::Store(_, name, tree) => {
                self.add_tree(site, known, tree)?;
                known.add(name.0)
            }
            Step::Show(_, tree) => self.add_tree(site, known, tree),
            Step::Branch(tree) => self.add_branch(alloc, site, known, tree),
            _ => Ok(()),
        }
    }

    /// The steps from a branch on.
    fn add_end(
        &mut self,
        alloc: Global,
        site: &Site,
        known: &Known,
        steps: &[Step],
    ) -> Result<(), AllocError>
        ensures { OnOk result (self.new ≡ steps_flags (the_routine (site_of site.now)).header.scope known.now (map effect_of steps.now) self.old) }
    {
        let mut own = known.copy(alloc)?;
        for step in steps {
            self.add_step(alloc, site, &mut own, step)?;
        }
        Ok(())
    }

    /// The steps of a line. A branch ends what is known behind it.
    #[tactic(auto, using(crate::proofs::SparedWalks::through_steps))]
    fn add_steps(
        &mut self,
        alloc: Global,
        site: &Site,
        known: &mut Known,
        steps: &[Step],
    ) -> Result<(), AllocError>
        ensures flags { OnOk result (self.new ≡ steps_flags (the_routine (site_of site.now)).header.scope known.old (map effect_of steps.now) self.old) }
        ensures known { OnOk result (known.new ≡ known_through known.old (map effect_of steps.now)) }
    {
        match steps {
            [] => Ok(()),
            [step, rest @ ..] => {
                if is_branch(step) {
                    return self.add_end(alloc, site, known, steps);
                }
                self.add_step(alloc, site, known, step)?;
                self.add_steps(alloc, site, known, rest)
            }
        }
    }

    /// The lines from number `from + 1` on, as far as code goes through them.
    #[tactic(auto, using(crate::proofs::SparedWalks::lines_flagged))]
    fn add_lines(
        &mut self,
        alloc: Global,
        flow: &Flow,
        known: &mut Known,
        from: usize,
    ) -> Result<(), AllocError>
        requires { from ≤ length (the_routine (site_of flow.now)).steps }
        ensures flags { OnOk result (self.new ≡ lines_flags (the_routine (site_of flow.now)) known.old false (from + 1) (drop from (the_routine (site_of flow.now)).steps) self.old) }
        ensures known { OnOk result (known.new ≡ known_at_end (site_of flow.now) known.old false (from + 1) (drop from (the_routine (site_of flow.now)).steps)) }
    {
        let site = flow.site();
        let mut through = false;
        for index in from..site.lines() {
            let steps = site.steps(index + 1);
            if is_blank(steps) {
                continue;
            }
            if is_left(flow, through, index + 1) {
                return Ok(());
            }
            self.add_steps(alloc, site, known, steps)?;
            if branches(steps) {
                return Ok(());
            }
            through = true;
        }
        Ok(())
    }

    /// The segments that begin at lines with an arm, where these names have a value.
    #[tactic(auto, using(crate::proofs::SparedWalks::arms_flagged))]
    fn add_arms(&mut self, alloc: Global, flow: &Flow, sure: &Names) -> Result<(), AllocError>
        ensures { OnOk result (self.new ≡ arms_flags (the_routine (site_of flow.now)) sure.now 1 (the_routine (site_of flow.now)).steps self.old) }
    {
        for index in 0..flow.site().lines() {
            if !flow.is_entry(index + 1) {
                continue;
            }
            let mut known = Known::of(alloc, sure)?;
            self.add_lines(alloc, flow, &mut known, index)?;
        }
        Ok(())
    }

    fn add_unsure(&mut self, sure: &Names, name: u32) -> Result<(), AllocError>
        ensures { OnOk result (self.new ≡ result_flags sure.now (Some name) self.old) }
    {
        if sure.has(name) {
            return Ok(());
        }
        self.locals.add(name)
    }

    /// The result, which is read at the function's ends.
    fn add_result(&mut self, sure: &Names, name: Option<u32>) -> Result<(), AllocError>
        ensures { OnOk result (self.new ≡ result_flags sure.now name self.old) }
    {
        match name {
            None => Ok(()),
            Some(name) => self.add_unsure(sure, name),
        }
    }

    /// A function. Its result are the names that have a value wherever a branch may lead, and at the end.
    #[tactic(auto, using(crate::proofs::SparedWalks::function_flags))]
    pub fn add_function(&mut self, alloc: Global, flow: &Flow) -> Result<Names, AllocError>
        ensures flags { OnOk result (self.new ≡ site_flags (site_of flow.now) self.old) }
        ensures sure { IfOk result (λ ns. ns ≡ sure_of (site_of flow.now)) }
    {
        let site = flow.site();
        self.locals = Known::new(alloc);
        let mut known = first_known(alloc, site)?;
        self.add_lines(alloc, flow, &mut known, 0)?;
        let sure = known.once(alloc)?;
        self.add_arms(alloc, flow, &sure)?;
        self.add_result(&sure, site.result())?;
        Ok(sure)
    }
}
