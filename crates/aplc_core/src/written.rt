//! The steps of a line that are written, and the values that wait in slots.
//! It must not know which trees wait besides, nor of what the steps are.

ghost use Rattle.std.specs.Prelude.{◌≡◌, [], map, option_map, OnOk, MatchOption};
ghost use Rattle.aplc_core.specs.PlainSteps.{term_of, effect_of, id_of};
ghost use Rattle.aplc_core.specs.Passes.{no_pass, next_slot, kept_last, with_step, waits, all_kept};
ghost use Rattle.aplc_core.specs.Stands.{pass_of, kept_by, numbers_of, slot_term, kept_in_turn};

use crate::step::{SlotId, Step, Tree};
use aplc_lex::List;
use aplc_syntax::NodeId;
use sqlite_items::Items;
use std::alloc::{AllocError, Global};
use std::marker::Model;

/// The value of a node in a slot.
#[derive(Clone, Copy, Debug, PartialEq, Eq)]
pub struct Kept {
    pub node: NodeId,
    pub slot: SlotId,
}

/// The steps so far, what waits in slots, and the number of the first slot that is free.
#[derive(Drop)]
pub struct Written {
    steps: Vec<Step>,
    kept: Items<Kept>,
    free: u32,
}

impl Model for Written {
    ghost use Rattle.std.specs.Prelude.{map, reverse};
    ghost use Rattle.aplc_core.specs.Stands.{Stand, stand_code, slot_tree};

    ghost Value = { Stand };

    ghost coded = { stand_code };

    ghost view = { λ w. record { steps = w.steps.items; free = w.free; waiting = map slot_tree (reverse w.kept) } };
}

/// The slot for which a tree stands, if it does.
#[tactic(auto, using(crate::proofs::TermForms::term_forms))]
fn kept_by(tree: &Tree) -> Option<Kept>
    ensures { option_map numbers_of result ≡ kept_by (term_of tree.now) }
{
    match tree {
        Tree::Slot(node, slot) => Some(Kept {
            node: *node,
            slot: *slot,
        }),
        _ => None,
    }
}

/// The node of a tree.
#[tactic(auto, using(crate::proofs::TermForms::term_forms))]
fn node_of(tree: &Tree) -> NodeId
    ensures { result.0 ≡ id_of (term_of tree.now) }
{
    match tree {
        Tree::Literal(node, _, _)
        | Tree::Read(node, _)
        | Tree::Slot(node, _)
        | Tree::Mono(node, _, _)
        | Tree::Dyad(node, _, _, _)
        | Tree::Index(node, _, _) => *node,
    }
}

impl Written {
    pub fn new(alloc: Global) -> Written
        ensures { pass_of result ≡ no_pass }
    {
        Written {
            steps: Vec::new(alloc),
            kept: Items::new(alloc),
            free: 0,
        }
    }

    /// A step is written.
    pub fn step(&mut self, step: Step) -> Result<(), AllocError>
        ensures { OnOk result (pass_of self.new ≡ with_step (effect_of step) (pass_of self.old)) }
    {
        self.steps.push(step)?;
        Ok(())
    }

    /// A value waits that is in a slot.
    pub fn wait(&mut self, kept: Kept) -> Result<(), AllocError>
        ensures { OnOk result (pass_of self.new ≡ waits (slot_term kept) (pass_of self.old)) }
    {
        self.kept.push(kept)?;
        Ok(())
    }

    /// The first free slot, which is free no more.
    pub fn take_slot(&mut self) -> SlotId
        ensures slot { result.0 ≡ self.old.free }
        ensures rest { self.new ≡ record { steps = self.old.steps; free = next_slot self.old.free; waiting = self.old.waiting } }
    {
        let slot = SlotId(self.free);
        self.free = self.free.saturating_add(1);
        slot
    }

    /// The slot that waits last.
    pub fn pop(&mut self) -> Option<Kept>
        ensures { MatchOption result ((self.old.waiting ≡ []) × (self.new ≡ self.old)) (λ k. pass_of self.old ≡ waits (slot_term k) (pass_of self.new)) }
    {
        self.kept.pop()
    }

    /// The steps, in no more memory than they need.
    pub fn into_steps(self) -> List<Step>
        ensures { result ≡ self.steps }
    {
        let Written {
            mut steps,
            kept: _,
            free: _,
        } = self;
        steps.shrink_to_fit();
        List::from_vec(steps)
    }

    /// A tree waits in a slot.
    pub fn keep(&mut self, tree: Tree) -> Result<(), AllocError>
        ensures { OnOk result (pass_of self.new ≡ kept_last next_slot (term_of tree) (pass_of self.old)) }
    {
        if let Some(kept) = kept_by(&tree) {
            return self.wait(kept);
        }
        let node = node_of(&tree);
        let slot = self.take_slot();
        self.step(Step::Keep(slot, tree))?;
        self.wait(Kept { node, slot })
    }

    /// Trees wait in slots, one after another.
    pub fn keep_each(&mut self, trees: Vec<Tree>) -> Result<(), AllocError>
        ensures slots { all_kept next_slot (pass_of self.old) ≡ pass_of self.old }
        ensures kept { OnOk result (pass_of self.new ≡ kept_in_turn next_slot (map term_of trees.items) (pass_of self.old)) }
    {
        let _slots = &self.kept;
        for tree in trees {
            self.keep(tree)?;
        }
        Ok(())
    }
}
