//! What a builder of trees has made and not yet used.
//! It must not know the steps of building.

ghost use Rattle.std.specs.Prelude.{◌≡◌, [], ◌∷◌, OnOk, MatchOption};

use crate::tree::Node;
use std::alloc::{AllocError, Global};
use std::marker::Model;

/// Something made, and its place.
#[derive(Drop)]
pub enum Item {
    Tree(Node),
    /// A name, and whether it is called without arguments.
    Named(bool, u32, u32),
    Vector(u32, Vec<i64>),
    /// Such a name, and the place and the entries of its list.
    Element(bool, u32, u32, u32, Vec<Option<Node>>),
}

/// The entries of a list that is open.
#[derive(Drop)]
pub struct Entries {
    pub items: Vec<Option<Node>>,
}

/// A stack that contracts see as a list, the top first.
#[derive(Drop)]
pub struct Pile {
    items: Vec<Item>,
}

impl Model for Pile {
    ghost use Rattle.std.specs.Prelude.{List, []};
    ghost use Rattle.aplc_syntax.specs.declared.items.Item.{Item};
    ghost use Rattle.aplc_syntax.specs.Seen.{top_first};
    ghost use Rattle.aplc_syntax.specs.contracts.items.Item as e;
    ghost use Rattle.std.specs.Coded.{codes, coded_list};

    ghost Value = { List Item };

    ghost coded = { Prim.hlevel (codes, e.the_row.coded) };

    ghost view = { λ it. top_first it.items.items [] };
}

impl Pile {
    pub fn new(alloc: Global) -> Pile
        ensures { result ≡ [] }
    {
        Pile {
            items: Vec::new(alloc),
        }
    }

    #[tactic(auto, using(crate::proofs::Tops::tops))]
    pub fn push(&mut self, item: Item) -> Result<(), AllocError>
        ensures { OnOk result (self.new ≡ item ∷ self.old) }
    {
        self.items.push(item)?;
        Ok(())
    }

    #[tactic(auto, using(crate::proofs::Tops::tops))]
    pub fn pop(&mut self) -> Option<Item>
        ensures { MatchOption result ((self.old ≡ []) × (self.new ≡ [])) (λ item. self.old ≡ item ∷ self.new) }
    {
        self.items.pop()
    }
}

/// A stack of lists that are open, the innermost first.
#[derive(Drop)]
pub struct Lists {
    items: Vec<Entries>,
}

impl Model for Lists {
    ghost use Rattle.std.specs.Prelude.{List, []};
    ghost use Rattle.aplc_syntax.specs.declared.items.Entries.{Entries};
    ghost use Rattle.aplc_syntax.specs.Seen.{top_first};
    ghost use Rattle.aplc_syntax.specs.contracts.items.Entries as e;
    ghost use Rattle.std.specs.Coded.{codes, coded_list};

    ghost Value = { List Entries };

    ghost coded = { Prim.hlevel (codes, e.the_row.coded) };

    ghost view = { λ it. top_first it.items.items [] };
}

impl Lists {
    pub fn new(alloc: Global) -> Lists
        ensures { result ≡ [] }
    {
        Lists {
            items: Vec::new(alloc),
        }
    }

    #[tactic(auto, using(crate::proofs::Tops::tops))]
    pub fn push(&mut self, list: Entries) -> Result<(), AllocError>
        ensures { OnOk result (self.new ≡ list ∷ self.old) }
    {
        self.items.push(list)?;
        Ok(())
    }

    #[tactic(auto, using(crate::proofs::Tops::tops))]
    pub fn pop(&mut self) -> Option<Entries>
        ensures { MatchOption result ((self.old ≡ []) × (self.new ≡ [])) (λ list. self.old ≡ list ∷ self.new) }
    {
        self.items.pop()
    }
}
