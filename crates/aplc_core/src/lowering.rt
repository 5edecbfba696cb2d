//! A line while it is lowered: trees wait for what uses them, and go into slots before a step is written.
//! It must not walk the trees of a program.

ghost use Rattle.std.specs.Prelude.{◌≡◌, ◌<◌, ◌≤◌, ◌+◌, length, Some, None, option_map, OnOk, IfOk};
ghost use Rattle.aplc_core.specs.PlainSteps.{term_of, terms_in, effect_of, slot_number, Show, Branch};
ghost use Rattle.aplc_syntax.specs.PlainTrees.{trees_in, argument_in};
ghost use Rattle.aplc_core.specs.Passes.{no_pass, next_slot, all_kept, waits, written, with_step, mono, dyad, assign, read_text, read_nums, show, index, assign_at, calls, call, perform_call, ends, changes};
ghost use Rattle.aplc_core.specs.Stands.{pass_of, slot_term, argument_count, TakesArgument, given_count, listed};

use crate::step::{SlotId, Step, Tree};
use crate::written::{Kept, Written};
use aplc_lex::List;
use aplc_syntax::{NameId, Node, NodeId, Prim};
use sqlite_items::{Boxed, Items};
use std::alloc::{AllocError, Global};
use std::marker::Model;

/// The steps so far, and the trees that wait: those in slots first.
#[derive(Drop)]
pub struct Lowering {
    written: Written,
    waiting: Vec<Tree>,
}

impl Model for Lowering {
    ghost use Rattle.std.specs.Prelude.{◌++◌, reverse};
    ghost use Rattle.aplc_core.specs.Stands.{Stand, stand_code};

    ghost Value = { Stand };

    ghost coded = { stand_code };

    ghost view = { λ l. record { steps = l.written.steps; free = l.written.free; waiting = reverse l.waiting.items ++ l.written.waiting } };
}

impl Lowering {
    pub fn new(alloc: Global) -> Lowering
        ensures { pass_of result ≡ no_pass }
    {
        Lowering {
            written: Written::new(alloc),
            waiting: Vec::new(alloc),
        }
    }

    /// The steps that were written.
    pub fn into_steps(self) -> List<Step>
        ensures { result ≡ self.steps }
    {
        self.written.into_steps()
    }

    /// A tree waits.
    pub fn wait(&mut self, tree: Tree) -> Result<(), AllocError>
        ensures pass { OnOk result (pass_of self.new ≡ waits (term_of tree) (pass_of self.old)) }
        ensures count { OnOk result (length self.new.waiting ≡ length self.old.waiting + 1) }
    {
        self.waiting.push(tree)?;
        Ok(())
    }

    /// The tree that waits last.
    pub fn last(&mut self) -> Tree
        requires { 0 < length self.old.waiting }
        ensures tree { pass_of self.old ≡ waits (term_of result) (pass_of self.new) }
        ensures count { length self.old.waiting ≡ length self.new.waiting + 1 }
    {
        match self.waiting.pop() {
            Some(tree) => tree,
            None => match self.written.pop() {
                Some(kept) => Tree::Slot(kept.node, kept.slot),
                None => unreachable!(),
            },
        }
    }

    /// Each tree that waits does so in a slot.
    pub fn keep_all(&mut self, alloc: Global) -> Result<(), AllocError>
        ensures pass { OnOk result (pass_of self.new ≡ all_kept next_slot (pass_of self.old)) }
        ensures count { OnOk result (length self.new.waiting ≡ length self.old.waiting) }
    {
        let trees = std::mem::replace(&mut self.waiting, Vec::new(alloc));
        self.written.keep_each(trees)?;
        Ok(())
    }

    /// A step is written, behind those that keep what waits.
    pub fn write(&mut self, alloc: Global, step: Step) -> Result<(), AllocError>
        ensures pass { OnOk result (pass_of self.new ≡ written next_slot (effect_of step) (pass_of self.old)) }
        ensures count { OnOk result (length self.new.waiting ≡ length self.old.waiting) }
    {
        self.keep_all(alloc)?;
        self.step(step)
    }

    /// A function of one argument.
    pub fn mono(&mut self, alloc: Global, node: NodeId, f: Prim) -> Result<(), AllocError>
        requires { 0 < length self.old.waiting }
        ensures pass { OnOk result (pass_of self.new ≡ mono node.0 f (pass_of self.old)) }
        ensures count { OnOk result (length self.new.waiting ≡ length self.old.waiting) }
    {
        let right = Boxed::new(alloc, self.last())?;
        self.wait(Tree::Mono(node, f, right))
    }

    /// A function of two arguments.
    pub fn dyad(&mut self, alloc: Global, node: NodeId, f: Prim) -> Result<(), AllocError>
        requires { 1 < length self.old.waiting }
        ensures pass { OnOk result (pass_of self.new ≡ dyad node.0 f (pass_of self.old)) }
        ensures count { OnOk result (length self.old.waiting ≡ length self.new.waiting + 1) }
    {
        let left = Boxed::new(alloc, self.last())?;
        let right = Boxed::new(alloc, self.last())?;
        self.wait(Tree::Dyad(node, f, left, right))
    }

    /// An assignment to a name. Its value is read again.
    pub fn assign(&mut self, alloc: Global, node: NodeId, name: NameId) -> Result<(), AllocError>
        requires { 0 < length self.old.waiting }
        ensures pass { OnOk result (pass_of self.new ≡ assign next_slot node.0 name.0 (pass_of self.old)) }
        ensures count { OnOk result (length self.new.waiting ≡ length self.old.waiting) }
    {
        let value = self.last();
        self.write(alloc, Step::Store(node, name, value))?;
        self.wait(Tree::Read(node, name))
    }

    /// A step is written, where all that waits is in slots.
    fn step(&mut self, step: Step) -> Result<(), AllocError>
        ensures pass { OnOk result (pass_of self.new ≡ with_step (effect_of step) (pass_of self.old)) }
        ensures count { OnOk result (length self.new.waiting ≡ length self.old.waiting) }
    {
        self.written.step(step)?;
        Ok(())
    }

    /// A line of the input as characters.
    pub fn read_text(&mut self, alloc: Global, node: NodeId) -> Result<(), AllocError>
        ensures pass { OnOk result (pass_of self.new ≡ read_text next_slot node.0 (pass_of self.old)) }
        ensures count { OnOk result (length self.new.waiting ≡ length self.old.waiting + 1) }
    {
        self.keep_all(alloc)?;
        let slot = self.take_slot();
        self.step(Step::Text(node, slot))?;
        self.wait(Tree::Slot(node, slot))
    }

    /// A line of the input as numbers.
    pub fn read_nums(&mut self, alloc: Global, node: NodeId) -> Result<(), AllocError>
        ensures pass { OnOk result (pass_of self.new ≡ read_nums next_slot node.0 (pass_of self.old)) }
        ensures count { OnOk result (length self.new.waiting ≡ length self.old.waiting + 1) }
    {
        self.keep_all(alloc)?;
        let slot = self.take_slot();
        self.step(Step::Nums(node, slot))?;
        self.wait(Tree::Slot(node, slot))
    }

    /// The first free slot, which is free no more.
    fn take_slot(&mut self) -> SlotId
        ensures slot { result.0 ≡ self.old.free }
        ensures rest { self.new ≡ record { steps = self.old.steps; free = next_slot self.old.free; waiting = self.old.waiting } }
    {
        self.written.take_slot()
    }

    /// The tree that waits last, in a slot. So is all else that waits.
    pub fn last_slot(&mut self, alloc: Global) -> Result<Kept, AllocError>
        requires { 0 < length self.old.waiting }
        ensures kept { IfOk result (λ k. all_kept next_slot (pass_of self.old) ≡ waits (slot_term k) (pass_of self.new)) }
        ensures count { OnOk result (length self.old.waiting ≡ length self.new.waiting + 1) }
    {
        let trees = std::mem::replace(&mut self.waiting, Vec::new(alloc));
        self.written.keep_each(trees)?;
        match self.written.pop() {
            Some(kept) => Ok(kept),
            None => unreachable!(),
        }
    }

    /// A value that is displayed where it stands.
    pub fn show(&mut self, alloc: Global, node: NodeId) -> Result<(), AllocError>
        requires { 0 < length self.old.waiting }
        ensures pass { OnOk result (pass_of self.new ≡ show next_slot node.0 (pass_of self.old)) }
        ensures count { OnOk result (length self.new.waiting ≡ length self.old.waiting) }
    {
        let kept = self.last_slot(alloc)?;
        self.step(Step::Show(Some(node), Tree::Slot(kept.node, kept.slot)))?;
        self.wait(Tree::Slot(node, kept.slot))
    }

    /// The slot of an argument of a call, where it is there.
    fn last_argument(
        &mut self,
        alloc: Global,
        argument: &Option<Boxed<Node>>,
    ) -> Result<Option<SlotId>, AllocError>
        requires { argument_count (argument_in argument.now) ≤ length self.old.waiting }
        ensures taken { IfOk result (λ k. TakesArgument (argument_in argument.now) (option_map slot_number k) (pass_of self.old) (pass_of self.new)) }
        ensures count { OnOk result (length self.old.waiting ≡ length self.new.waiting + argument_count (argument_in argument.now)) }
    {
        match argument {
            None => Ok(None),
            Some(_) => {
                let kept = self.last_slot(alloc)?;
                Ok(Some(kept.slot))
            }
        }
    }

    /// A call whose arguments are in these slots, and whose result is put into another one.
    fn call_with(
        &mut self,
        alloc: Global,
        node: NodeId,
        name: NameId,
        left: Option<SlotId>,
        right: Option<SlotId>,
    ) -> Result<(), AllocError>
        ensures pass { OnOk result (pass_of self.new ≡ calls next_slot node.0 name.0 (option_map slot_number left) (option_map slot_number right) (pass_of self.old)) }
        ensures count { OnOk result (length self.new.waiting ≡ length self.old.waiting + 1) }
    {
        self.keep_all(alloc)?;
        let slot = self.take_slot();
        self.step(Step::Call(node, name, left, right, Some(slot)))?;
        self.wait(Tree::Slot(node, slot))
    }

    /// A call whose arguments wait last.
    pub fn call(
        &mut self,
        alloc: Global,
        node: NodeId,
        name: NameId,
        left: &Option<Boxed<Node>>,
        right: &Option<Boxed<Node>>,
    ) -> Result<(), AllocError>
        requires { argument_count (argument_in left.now) + argument_count (argument_in right.now) ≤ length self.old.waiting }
        ensures pass { OnOk result (pass_of self.new ≡ call next_slot node.0 name.0 (argument_in left.now) (argument_in right.now) (pass_of self.old)) }
        ensures count { OnOk result (length self.old.waiting + 1 ≡ length self.new.waiting + argument_count (argument_in left.now) + argument_count (argument_in right.now)) }
    {
        let first = self.last_argument(alloc, left)?;
        let second = self.last_argument(alloc, right)?;
        self.call_with(alloc, node, name, first, second)
    }

    /// A call that gives nothing.
    pub fn perform(
        &mut self,
        alloc: Global,
        node: NodeId,
        name: NameId,
        left: &Option<Boxed<Node>>,
        right: &Option<Boxed<Node>>,
    ) -> Result<(), AllocError>
        requires { argument_count (argument_in left.now) + argument_count (argument_in right.now) ≤ length self.old.waiting }
        ensures { OnOk result (pass_of self.new ≡ perform_call next_slot node.0 name.0 (argument_in left.now) (argument_in right.now) (pass_of self.old)) }
    {
        let first = self.last_argument(alloc, left)?;
        let second = self.last_argument(alloc, right)?;
        self.write(alloc, Step::Call(node, name, first, second, None))
    }

    /// The trees of an index list, which wait last.
    fn last_list(
        &mut self,
        alloc: Global,
        entries: &[Option<Node>],
    ) -> Result<Vec<Option<Tree>>, AllocError>
        requires { given_count (trees_in entries.now) ≤ length self.old.waiting }
        ensures list { IfOk result (λ v. listed (trees_in entries.now) (pass_of self.old) ≡ record { terms = terms_in v.items; left = pass_of self.new }) }
        ensures count { OnOk result (length self.old.waiting ≡ length self.new.waiting + given_count (trees_in entries.now)) }
    {
        let mut list = Vec::new(alloc);
        for entry in entries {
            match entry {
                None => list.push(None)?,
                Some(_) => {
                    let tree = self.last();
                    list.push(Some(tree))?
                }
            }
        }
        Ok(list)
    }

    /// An element by an index list.
    pub fn index(
        &mut self,
        alloc: Global,
        node: NodeId,
        entries: &[Option<Node>],
    ) -> Result<(), AllocError>
        requires { given_count (trees_in entries.now) + 1 ≤ length self.old.waiting }
        ensures pass { OnOk result (pass_of self.new ≡ index node.0 (trees_in entries.now) (pass_of self.old)) }
        ensures count { OnOk result (length self.old.waiting ≡ length self.new.waiting + given_count (trees_in entries.now)) }
    {
        let base = Boxed::new(alloc, self.last())?;
        let list = self.last_list(alloc, entries)?;
        let boxed = Boxed::new(alloc, Items::from_vec(list))?;
        self.wait(Tree::Index(node, base, boxed))?;
        Ok(())
    }

    /// An assignment to an element, where the value waits in a slot below the index list.
    pub fn assign_at(
        &mut self,
        alloc: Global,
        node: NodeId,
        name: NameId,
        entries: &[Option<Node>],
    ) -> Result<(), AllocError>
        requires { given_count (trees_in entries.now) + 1 ≤ length self.old.waiting }
        ensures pass { OnOk result (pass_of self.new ≡ assign_at next_slot node.0 name.0 (trees_in entries.now) (pass_of self.old)) }
        ensures count { OnOk result (length self.old.waiting ≡ length self.new.waiting + given_count (trees_in entries.now)) }
    {
        let list = self.last_list(alloc, entries)?;
        let kept = self.last_slot(alloc)?;
        let value = Tree::Slot(kept.node, kept.slot);
        self.step(Step::StoreAt(node, name, Items::from_vec(list), value))?;
        self.wait(Tree::Slot(node, kept.slot))
    }

    /// The statement's value is displayed by `⎕←`.
    pub fn end_show(&mut self, alloc: Global, node: NodeId) -> Result<(), AllocError>
        requires { 0 < length self.old.waiting }
        ensures { OnOk result (pass_of self.new ≡ ends next_slot (Show (Some node.0)) (pass_of self.old)) }
    {
        let value = self.last();
        self.write(alloc, Step::Show(Some(node), value))
    }

    /// The statement displays its value.
    pub fn end_display(&mut self, alloc: Global) -> Result<(), AllocError>
        requires { 0 < length self.old.waiting }
        ensures { OnOk result (pass_of self.new ≡ ends next_slot (Show None) (pass_of self.old)) }
    {
        let value = self.last();
        self.write(alloc, Step::Show(None, value))
    }

    /// The statement's value names the next line.
    pub fn end_branch(&mut self, alloc: Global) -> Result<(), AllocError>
        requires { 0 < length self.old.waiting }
        ensures { OnOk result (pass_of self.new ≡ ends next_slot Branch (pass_of self.old)) }
    {
        let value = self.last();
        self.write(alloc, Step::Branch(value))
    }

    /// The statement assigns to an element, where the value waits below the index list.
    pub fn change(
        &mut self,
        alloc: Global,
        node: NodeId,
        name: NameId,
        entries: &[Option<Node>],
    ) -> Result<(), AllocError>
        requires { given_count (trees_in entries.now) + 1 ≤ length self.old.waiting }
        ensures { OnOk result (pass_of self.new ≡ changes next_slot node.0 name.0 (trees_in entries.now) (pass_of self.old)) }
    {
        let list = self.last_list(alloc, entries)?;
        let value = self.last();
        self.write(
            alloc,
            Step::StoreAt(node, name, Items::from_vec(list), value),
        )
    }
}
