//! A function that is being written, with where its lines and branches lead.
//! It must not know the code of steps.

ghost use Rattle.std.specs.Prelude.{◌≡◌, ◌+◌, ◌≤◌, ◌<◌, ◌||◌, nat_eq, IfOk, OnOk, map, length, get_or, pos, unwrap_or};
ghost use Rattle.aplc_core.specs.PlainSteps.{term_of, effect_of};
ghost use Rattle.aplc_core.specs.CoreRuns.{steps_at};
ghost use Rattle.aplc_gen.specs.Layouts.{the_routine, frame_of};
ghost use Rattle.aplc_gen.specs.Emitted.{known_label, known_number, lead, lead_at, lead_of_line, lead_by, is_entry, first_line, lines_loop};
ghost use Rattle.aplc_gen.specs.Writing.{site_of, IsLineNumber};
ghost use Rattle.aplc_gen.specs.Flows.{lead_of, landing_of, AreLandings, HasBehind, landing_by, turned, step_turned, steps_turned, lines_turned, no_turns};
ghost use Rattle.aplc_names.specs.Eager.{line_named};
ghost use Rattle.aplc_names.specs.States.{is_among};

use crate::frame::{Frame, Layout};
use crate::known::Known;
use crate::lead::Lead;
use crate::site::Site;
use aplc_core::{CoreProgram, Step, Tree};
use aplc_names::Scope;
use std::alloc::{AllocError, Global};
use std::marker::Model;

/// The lines to which branches lead.
#[derive(Drop)]
struct Turns {
    lines: Known,
    computed: bool,
    loops: bool,
}

impl Model for Turns {
    ghost use Rattle.aplc_gen.specs.Flows.{Turns, turns_code};

    ghost Value = { Turns };

    ghost coded = { turns_code };

    ghost view = { λ t. record { lines = t.lines; computed = t.computed; loops = t.loops } };
}

/// A function of a program, and where its lines and branches lead.
#[derive(Drop)]
pub struct Flow<'a> {
    site: Site<'a>,
    landings: Vec<u32>,
    turns: Turns,
}

impl<'a> Model for Flow<'a> {
    ghost use Rattle.std.specs.Prelude.{◌≡◌};
    ghost use Rattle.aplc_gen.specs.Layouts.{the_routine};
    ghost use Rattle.aplc_gen.specs.Writing.{Spot, spot_code, site_of};
    ghost use Rattle.aplc_gen.specs.Flows.{AreLandings, lines_turned, no_turns};

    ghost Value = { Spot };

    ghost coded = { spot_code };

    ghost view = { λ f. f.site };

    ghost invariant = { λ f. AreLandings (the_routine (site_of f.site)) f.landings.items × (f.turns ≡ lines_turned (the_routine (site_of f.site)) (the_routine (site_of f.site)).steps no_turns) };
}

// ---- Landings

fn landing_at(landings: &[u32], line: usize) -> u32
    ensures { result ≡ get_or landings.now line 0 }
{
    match landings.get(line) {
        None => 0,
        Some(landing) => *landing,
    }
}

/// Where a line with these steps leads, from where the next one leads.
fn landing_by(steps: &[Step], line: u32, next: u32) -> u32
    ensures { result ≡ landing_by (map effect_of steps.now) line next }
{
    match steps {
        [] => next,
        _ => line,
    }
}

/// The landing of line number `index + 1`, where those behind it are in the table.
#[tactic(auto, using(crate::proofs::Turning::landings))]
fn put_landing(table: &mut Vec<u32>, site: &Site, index: usize)
    requires line { index < length (the_routine (site_of site.now)).steps }
    requires few { length (the_routine (site_of site.now)).steps ≤ 999 }
    requires long { length table.old.items ≡ length (the_routine (site_of site.now)).steps + 1 }
    requires behind { HasBehind (the_routine (site_of site.now)) table.old.items (index + 1) }
    ensures long { length table.new.items ≡ length table.old.items }
    ensures none { get_or table.new.items 0 0 ≡ get_or table.old.items 0 0 }
    ensures behind { HasBehind (the_routine (site_of site.now)) table.new.items index }
{
    let line = index + 1;
    let next = landing_at(table.as_slice(), line + 1);
    table[line] = landing_by(site.steps(line), line as u32, next);
}

/// Where each line leads: to itself, or to the next that has steps. Lines are counted from 1.
#[tactic(auto, using(crate::proofs::Tables::tables))]
fn landings(alloc: Global, site: &Site) -> Result<Vec<u32>, AllocError>
    ensures { IfOk result (λ v. AreLandings (the_routine (site_of site.now)) v.items) }
{
    let count = site.lines();
    let mut table = Vec::from_elem(alloc, 0, count + 1)?;
    for behind in 0..count {
        put_landing(&mut table, site, count - 1 - behind);
    }
    Ok(table)
}

// ---- Leads

fn lead_at(landing: u32) -> Lead
    ensures { lead_of result ≡ lead_at landing }
{
    if landing == 0 {
        Lead::Out
    } else {
        Lead::Line(landing)
    }
}

fn known_label(scope: Scope) -> Option<i64>
    ensures { result ≡ known_label scope }
{
    match scope {
        Scope::Label(line) => Some(line),
        _ => None,
    }
}

/// The number that a tree is known to have.
#[tactic(auto, using(aplc_core::proofs::TermForms::term_forms))]
fn known_number(site: &Site, tree: &Tree) -> Option<i64>
    ensures { result ≡ known_number (the_routine (site_of site.now)).header.scope (term_of tree.now) }
{
    match tree {
        Tree::Literal(_, _, numbers) => match numbers.as_slice() {
            [number] => Some(*number),
            _ => None,
        },
        Tree::Read(_, name) => known_label(site.scope(*name)),
        _ => None,
    }
}

/// The line that a number names.
#[tactic(auto, using(crate::proofs::Turning::named))]
fn line_named(number: i64) -> u64
    ensures { result ≡ line_named number }
{
    if number < 0 { 0 } else { number.unsigned_abs() }
}

/// Where the line of this number leads.
#[tactic(auto, using(crate::proofs::Turning::lead_there))]
fn lead_of_line(site: &Site, landings: &[u32], line: u64) -> Lead
    requires { AreLandings (the_routine (site_of site.now)) landings.now }
    ensures { lead_of result ≡ lead_of_line (the_routine (site_of site.now)) line }
{
    lead_at(landing_at(landings, line as usize))
}

/// Where a branch leads.
fn branch_lead(site: &Site, landings: &[u32], tree: &Tree) -> Lead
    requires { AreLandings (the_routine (site_of site.now)) landings.now }
    ensures { lead_of result ≡ lead (the_routine (site_of site.now)) (term_of tree.now) }
{
    match known_number(site, tree) {
        None => Lead::Computed,
        Some(number) => lead_of_line(site, landings, line_named(number)),
    }
}

// ---- Turns

impl Turns {
    fn new(alloc: Global) -> Turns
        ensures { result ≡ no_turns }
    {
        Turns {
            lines: Known::new(alloc),
            computed: false,
            loops: false,
        }
    }

    /// Whether a line has an arm: the first one, or one to which a branch leads.
    fn lead_to(&self, line: u32, first: bool) -> bool
        ensures { result ≡ (first || (self.now.computed || is_among line self.now.lines)) }
    {
        first || self.computed || self.lines.has(line)
    }

    /// One branch more.
    fn add(&mut self, lead: Lead) -> Result<(), AllocError>
        ensures { OnOk result (self.new ≡ turned (lead_of lead) self.old) }
    {
        match lead {
            Lead::Out => (),
            Lead::Line(line) => {
                self.lines.add(line)?;
                self.loops = true;
            }
            Lead::Computed => {
                self.computed = true;
                self.loops = true;
            }
        }
        Ok(())
    }

    fn add_step(&mut self, site: &Site, landings: &[u32], step: &Step) -> Result<(), AllocError>
        requires { AreLandings (the_routine (site_of site.now)) landings.now }
        ensures { OnOk result (self.new ≡ step_turned (the_routine (site_of site.now)) (effect_of step.now) self.old) }
    {
        match step {
            Step::Branch(tree) => self.add(branch_lead(site, landings, tree)),
            _ => Ok(()),
        }
    }

    fn add_steps(&mut self, site: &Site, landings: &[u32], steps: &[Step]) -> Result<(), AllocError>
        requires { AreLandings (the_routine (site_of site.now)) landings.now }
        ensures { OnOk result (self.new ≡ steps_turned (the_routine (site_of site.now)) (map effect_of steps.now) self.old) }
    {
        for step in steps {
            self.add_step(site, landings, step)?;
        }
        Ok(())
    }
}

/// The lines to which the branches of a function lead.
#[tactic(auto, using(crate::proofs::Turning::lines_left))]
fn all_turns(alloc: Global, site: &Site, landings: &[u32]) -> Result<Turns, AllocError>
    requires { AreLandings (the_routine (site_of site.now)) landings.now }
    ensures { IfOk result (λ t. t ≡ lines_turned (the_routine (site_of site.now)) (the_routine (site_of site.now)).steps no_turns) }
{
    let mut turns = Turns::new(alloc);
    for index in 0..site.lines() {
        turns.add_steps(site, landings, site.steps(index + 1))?;
    }
    Ok(turns)
}

impl<'a> Flow<'a> {
    /// The function of this number, which has its variables there.
    pub fn new(
        alloc: Global,
        core: &'a CoreProgram,
        layout: &'a Layout,
        frame: &'a Frame,
        number: usize,
        first: bool,
    ) -> Result<Flow<'a>, AllocError>
        requires frame { frame.now ≡ frame_of layout.now number }
        requires function { number < length core.now.program.functions }
        ensures { IfOk result (λ f. f ≡ record { core = core.now; layout = layout.now; number = number; first = first }) }
    {
        let site = Site::new(core, layout, frame, number, first);
        let landings = landings(alloc, &site)?;
        let turns = all_turns(alloc, &site, landings.as_slice())?;
        Ok(Flow {
            site,
            landings,
            turns,
        })
    }

    pub fn site(&self) -> &Site<'a>
        ensures { result.now ≡ self.now }
    {
        &self.site
    }

    /// Where a branch leads.
    pub fn lead(&self, tree: &Tree) -> Lead
        ensures { lead_of result ≡ lead (the_routine (site_of self.now)) (term_of tree.now) }
    {
        branch_lead(&self.site, self.landings.as_slice(), tree)
    }

    /// Where a line leads: to itself, or to the next that has steps.
    pub fn landing(&self, line: usize) -> u32
        ensures { result ≡ landing_of (the_routine (site_of self.now)) line }
    {
        landing_at(self.landings.as_slice(), line)
    }

    /// The lead to where a line leads.
    pub fn line_lead(&self, line: usize) -> Lead
        ensures { lead_of result ≡ lead_at (landing_of (the_routine (site_of self.now)) line) }
    {
        lead_at(self.landing(line))
    }

    /// Whether a line has an arm.
    #[tactic(auto, using(crate::proofs::Tables::entry_by))]
    pub fn is_entry(&self, line: usize) -> bool
        requires { line ≤ 1000 }
        ensures { result ≡ is_entry (the_routine (site_of self.now)) line }
    {
        let number = line as u32;
        self.turns.lead_to(number, number == self.landing(1))
    }

    /// Whether a branch leads to a line.
    #[tactic(auto, using(crate::proofs::Turning::loops_is))]
    pub fn loops(&self) -> bool
        ensures { result ≡ lines_loop (the_routine (site_of self.now)) (the_routine (site_of self.now)).steps }
    {
        self.turns.loops
    }
}
