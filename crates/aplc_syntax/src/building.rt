//! Builds a tree from the steps of a statement.
//! It must not know words, and takes no native stack that grows with the steps.

ghost use Rattle.std.specs.Prelude.{◌≡◌, ◌≤◌, ℕ, ◌∷◌, ◌++◌, [], IfOk, Some, None, map};
ghost use Rattle.aplc_syntax.specs.Building.{act, put, indexed_at, node_of, name_node, acts, ended_by, ended, build, count_from, StepIn, StepsIn};
ghost use Rattle.aplc_syntax.specs.Items.{made_of, entries_of, built_of, done};
ghost use Rattle.aplc_syntax.specs.Trees.{node};
ghost use Rattle.aplc_syntax.specs.declared.step.Step.TheVariants as s;

use crate::items::{Entries, Item, Lists, Pile};
use crate::step::Step;
use crate::texts::text_between;
use crate::tree::{Form, NameId, Node, NodeId, Primitive, Statement};
use aplc_lex::List;
use sqlite_items::{Boxed, Items};
use std::alloc::{AllocError, Global};

/// A node has its place as its number.
fn node(place: u32, form: Form) -> Node
    ensures { result ≡ node place form }
{
    Node {
        id: NodeId(place),
        place: place as u64,
        form,
    }
}

/// A name, or a call without arguments.
fn name_node(called: bool, place: u32, name: u32) -> Node
    ensures { result ≡ name_node called place name }
{
    if called {
        return node(place, Form::Call(NameId(name), None, None));
    }
    node(place, Form::Name(NameId(name)))
}

/// What was made as a node.
fn into_node(alloc: Global, item: Item) -> Result<Node, AllocError>
    ensures { IfOk result (λ x. x ≡ node_of (made_of item)) }
{
    match item {
        Item::Tree(tree) => Ok(tree),
        Item::Named(called, place, name) => Ok(name_node(called, place, name)),
        Item::Vector(place, numbers) => Ok(node(place, Form::Numbers(List::from_vec(numbers)))),
        Item::Element(called, place, name, bracket, entries) => {
            let base = Boxed::new(alloc, name_node(called, place, name))?;
            Ok(node(bracket, Form::Index(base, Items::from_vec(entries))))
        }
    }
}

/// What was made, with a list as its index. A name alone can still be assigned.
fn indexed_at(
    alloc: Global,
    bracket: u32,
    item: Item,
    entries: Vec<Option<Node>>,
) -> Result<Item, AllocError>
    ensures { IfOk result (λ x. made_of x ≡ indexed_at bracket (made_of item) entries.items) }
{
    match item {
        Item::Named(called, place, name) => {
            Ok(Item::Element(called, place, name, bracket, entries))
        }
        item => {
            let base = Boxed::new(alloc, into_node(alloc, item)?)?;
            Ok(Item::Tree(node(bracket, Form::Index(base, Items::from_vec(entries)))))
        }
    }
}

/// What was made and not yet used, and the lists that are open.
#[derive(Drop)]
pub struct Builder {
    made: Pile,
    lists: Lists,
}

impl Builder {
    fn new(alloc: Global) -> Builder
        ensures made { result.made ≡ [] }
        ensures lists { result.lists ≡ [] }
    {
        Builder {
            made: Pile::new(alloc),
            lists: Lists::new(alloc),
        }
    }

    /// A function of one argument at what was made last.
    fn mono(&mut self, alloc: Global, place: u32, function: Primitive) -> Result<bool, AllocError>
        ensures { IfOk result (λ b. done b (built_of self.new.made self.new.lists) ≡ act [] (s.Mono place function) (map made_of self.old.made) (map entries_of self.old.lists)) }
    {
        let Some(right) = self.made.pop() else {
            return Ok(false);
        };
        let right = Boxed::new(alloc, into_node(alloc, right)?)?;
        self.made
            .push(Item::Tree(node(place, Form::Mono(function, right))))?;
        Ok(true)
    }

    /// A function of two arguments at the last two that were made.
    fn dyad(&mut self, alloc: Global, place: u32, function: Primitive) -> Result<bool, AllocError>
        ensures { IfOk result (λ b. done b (built_of self.new.made self.new.lists) ≡ act [] (s.Dyad place function) (map made_of self.old.made) (map entries_of self.old.lists)) }
    {
        let Some(right) = self.made.pop() else {
            return Ok(false);
        };
        let Some(left) = self.made.pop() else {
            return Ok(false);
        };
        let left = Boxed::new(alloc, into_node(alloc, left)?)?;
        let right = Boxed::new(alloc, into_node(alloc, right)?)?;
        self.made
            .push(Item::Tree(node(place, Form::Dyad(function, left, right))))?;
        Ok(true)
    }

    /// An assignment to an element of the name that was made before the last value.
    fn assign_at(&mut self, alloc: Global) -> Result<bool, AllocError>
        ensures { IfOk result (λ b. done b (built_of self.new.made self.new.lists) ≡ act [] s.AssignAt (map made_of self.old.made) (map entries_of self.old.lists)) }
    {
        let Some(right) = self.made.pop() else {
            return Ok(false);
        };
        let Some(Item::Element(_, place, name, _, entries)) = self.made.pop() else {
            return Ok(false);
        };
        let right = Boxed::new(alloc, into_node(alloc, right)?)?;
        let form = Form::AssignAt(NameId(name), Items::from_vec(entries), right);
        self.made.push(Item::Tree(node(place, form)))?;
        Ok(true)
    }

    /// What was made last is an entry of the innermost list.
    fn entry(&mut self, alloc: Global) -> Result<bool, AllocError>
        ensures { IfOk result (λ b. done b (built_of self.new.made self.new.lists) ≡ act [] s.Entry (map made_of self.old.made) (map entries_of self.old.lists)) }
    {
        let Some(item) = self.made.pop() else {
            return Ok(false);
        };
        let Some(Entries { mut items }) = self.lists.pop() else {
            return Ok(false);
        };
        items.push(Some(into_node(alloc, item)?))?;
        self.lists.push(Entries { items })?;
        Ok(true)
    }

    /// One more number for the vector that was made last.
    fn more(&mut self, number: i64) -> Result<bool, AllocError>
        ensures { IfOk result (λ b. done b (built_of self.new.made self.new.lists) ≡ act [] (s.More number) (map made_of self.old.made) (map entries_of self.old.lists)) }
    {
        let Some(Item::Vector(place, mut numbers)) = self.made.pop() else {
            return Ok(false);
        };
        numbers.push(number)?;
        self.made.push(Item::Vector(place, numbers))?;
        Ok(true)
    }

    /// A call with one argument.
    fn call1(&mut self, alloc: Global, place: u32, name: u32) -> Result<bool, AllocError>
        ensures { IfOk result (λ b. done b (built_of self.new.made self.new.lists) ≡ act [] (s.Call1 place name) (map made_of self.old.made) (map entries_of self.old.lists)) }
    {
        let Some(right) = self.made.pop() else {
            return Ok(false);
        };
        let right = Boxed::new(alloc, into_node(alloc, right)?)?;
        self.made.push(Item::Tree(node(place, Form::Call(NameId(name), None, Some(right)))))?;
        Ok(true)
    }

    /// A call with two arguments.
    fn call2(&mut self, alloc: Global, place: u32, name: u32) -> Result<bool, AllocError>
        ensures { IfOk result (λ b. done b (built_of self.new.made self.new.lists) ≡ act [] (s.Call2 place name) (map made_of self.old.made) (map entries_of self.old.lists)) }
    {
        let Some(right) = self.made.pop() else {
            return Ok(false);
        };
        let Some(left) = self.made.pop() else {
            return Ok(false);
        };
        let left = Boxed::new(alloc, into_node(alloc, left)?)?;
        let right = Boxed::new(alloc, into_node(alloc, right)?)?;
        self.made.push(Item::Tree(node(place, Form::Call(NameId(name), Some(left), Some(right)))))?;
        Ok(true)
    }

    /// An assignment to the name that was made before the last value.
    fn assign(&mut self, alloc: Global) -> Result<bool, AllocError>
        ensures { IfOk result (λ b. done b (built_of self.new.made self.new.lists) ≡ act [] s.Assign (map made_of self.old.made) (map entries_of self.old.lists)) }
    {
        let Some(right) = self.made.pop() else {
            return Ok(false);
        };
        let Some(Item::Named(_, place, name)) = self.made.pop() else {
            return Ok(false);
        };
        let right = Boxed::new(alloc, into_node(alloc, right)?)?;
        self.made
            .push(Item::Tree(node(place, Form::Assign(NameId(name), right))))?;
        Ok(true)
    }

    /// What was made last is displayed.
    fn show(&mut self, alloc: Global, place: u32) -> Result<bool, AllocError>
        ensures { IfOk result (λ b. done b (built_of self.new.made self.new.lists) ≡ act [] (s.Show place) (map made_of self.old.made) (map entries_of self.old.lists)) }
    {
        let Some(right) = self.made.pop() else {
            return Ok(false);
        };
        let right = Boxed::new(alloc, into_node(alloc, right)?)?;
        self.made.push(Item::Tree(node(place, Form::Show(right))))?;
        Ok(true)
    }

    /// What was made last stood in parentheses.
    fn paren(&mut self, alloc: Global) -> Result<bool, AllocError>
        ensures { IfOk result (λ b. done b (built_of self.new.made self.new.lists) ≡ act [] s.Paren (map made_of self.old.made) (map entries_of self.old.lists)) }
    {
        let Some(right) = self.made.pop() else {
            return Ok(false);
        };
        let right = into_node(alloc, right)?;
        self.made.push(Item::Tree(right))?;
        Ok(true)
    }

    /// An entry that is left out.
    fn gap(&mut self) -> Result<bool, AllocError>
        ensures { IfOk result (λ b. done b (built_of self.new.made self.new.lists) ≡ act [] s.Gap (map made_of self.old.made) (map entries_of self.old.lists)) }
    {
        let Some(Entries { mut items }) = self.lists.pop() else {
            return Ok(false);
        };
        items.push(None)?;
        self.lists.push(Entries { items })?;
        Ok(true)
    }

    /// Something made of nothing that was made before.
    fn put(&mut self, item: Item) -> Result<bool, AllocError>
        ensures { IfOk result (λ b. done b (built_of self.new.made self.new.lists) ≡ put (made_of item) (map made_of self.old.made) (map entries_of self.old.lists)) }
    {
        self.made.push(item)?;
        Ok(true)
    }

    /// A list of entries begins.
    fn list(&mut self, alloc: Global) -> Result<bool, AllocError>
        ensures { IfOk result (λ b. done b (built_of self.new.made self.new.lists) ≡ act [] s.List (map made_of self.old.made) (map entries_of self.old.lists)) }
    {
        self.lists.push(Entries {
            items: Vec::new(alloc),
        })?;
        Ok(true)
    }

    /// The innermost list ends, and is the index of what was made last.
    fn index(&mut self, alloc: Global, bracket: u32) -> Result<bool, AllocError>
        ensures { IfOk result (λ b. done b (built_of self.new.made self.new.lists) ≡ act [] (s.Index bracket) (map made_of self.old.made) (map entries_of self.old.lists)) }
    {
        let Some(item) = self.made.pop() else {
            return Ok(false);
        };
        let Some(Entries { items }) = self.lists.pop() else {
            return Ok(false);
        };
        self.made.push(indexed_at(alloc, bracket, item, items)?)?;
        Ok(true)
    }

    /// What was made last names the next line.
    fn branch(&mut self) -> Result<bool, AllocError>
        ensures { (p : ℕ) → IfOk result (λ b. done b (built_of self.new.made self.new.lists) ≡ act [] (s.Branch p) (map made_of self.old.made) (map entries_of self.old.lists)) }
    {
        let Some(item) = self.made.pop() else {
            return Ok(false);
        };
        self.made.push(item)?;
        Ok(true)
    }

    /// A step. It is refused where what was made before it does not fit.
    #[tactic(auto, using(crate::proofs::Acting::performs))]
    fn act(&mut self, alloc: Global, text: &[u8], step: Step) -> Result<bool, AllocError>
        requires { StepIn text.now step }
        ensures { IfOk result (λ b. done b (built_of self.new.made self.new.lists) ≡ act text.now step (map made_of self.old.made) (map entries_of self.old.lists)) }
    {
        match step {
            Step::Number(p, x) => self.put(Item::Vector(p, vec![in alloc; x]?)),
            Step::More(x) => self.more(x),
            Step::Text(p, to) => {
                let chars = List::from_vec(text_between(alloc, text, p, to)?);
                self.put(Item::Tree(node(p, Form::Text(chars))))
            }
            Step::Name(p, n) => self.put(Item::Named(false, p, n)),
            Step::TextInput(p) => self.put(Item::Tree(node(p, Form::TextInput))),
            Step::NumsInput(p) => self.put(Item::Tree(node(p, Form::NumsInput))),
            Step::Mono(p, f) => self.mono(alloc, p, f),
            Step::Dyad(p, f) => self.dyad(alloc, p, f),
            Step::Call0(p, n) => self.put(Item::Named(true, p, n)),
            Step::Call1(p, n) | Step::Perform1(p, n) => self.call1(alloc, p, n),
            Step::Call2(p, n) | Step::Perform2(p, n) => self.call2(alloc, p, n),
            Step::List => self.list(alloc),
            Step::Gap => self.gap(),
            Step::Entry => self.entry(alloc),
            Step::Index(p) => self.index(alloc, p),
            Step::Paren => self.paren(alloc),
            Step::Assign => self.assign(alloc),
            Step::AssignAt => self.assign_at(alloc),
            Step::Show(p) => self.show(alloc, p),
            Step::Branch(_) => self.branch(),
            Step::Perform0(p, n) => {
                self.put(Item::Tree(node(p, Form::Call(NameId(n), None, None))))
            }
        }
    }

    /// Steps in their order, up to one that is refused.
    fn act_all(&mut self, alloc: Global, text: &[u8], steps: &[Step]) -> Result<bool, AllocError>
        requires { StepsIn text.now steps.now }
        ensures { IfOk result (λ b. done b (built_of self.new.made self.new.lists) ≡ acts text.now steps.now (built_of self.old.made self.old.lists)) }
    {
        for step in steps {
            if !self.act(alloc, text, *step)? {
                return Ok(false);
            }
        }
        Ok(true)
    }
}

/// The statement of a tree that this step has made.
fn ended_by(step: Step, tree: Node) -> Statement
    ensures { result ≡ ended_by step tree }
{
    match step {
        Step::Assign
        | Step::AssignAt
        | Step::Show(_)
        | Step::Perform0(_, _)
        | Step::Perform1(_, _)
        | Step::Perform2(_, _) => Statement::Quiet(tree),
        Step::Branch(place) => Statement::Branch(place as u64, tree),
        _ => Statement::Display(tree),
    }
}

/// The statement of steps that made this tree.
#[tactic(auto, using(crate::proofs::Acting::lasts))]
fn ended(steps: &[Step], tree: Node) -> Statement
    ensures { result ≡ ended steps.now tree }
{
    match steps.last() {
        Some(last) => ended_by(*last, tree),
        None => Statement::Display(tree),
    }
}

/// The statement that steps make of nothing, in a text. There is none where they do not make one tree. Few steps that
/// make nodes keep each tree shallow, so that letting it go takes little stack.
pub fn build(alloc: Global, text: &[u8], steps: &[Step]) -> Result<Option<Statement>, AllocError>
    requires stand { StepsIn text.now steps.now }
    requires few { count_from 0 steps.now ≤ 256 }
    ensures { IfOk result (λ s. s ≡ build text.now steps.now) }
{
    let mut builder = Builder::new(alloc);
    if !builder.act_all(alloc, text, steps)? {
        return Ok(None);
    }
    let Some(item) = builder.made.pop() else {
        return Ok(None);
    };
    match builder.made.pop() {
        Some(_) => Ok(None),
        None => {
            let tree = into_node(alloc, item)?;
            Ok(Some(ended(steps, tree)))
        }
    }
}
