//! A stack of what waits for a value to end.
//! It must not know what a step does.

ghost use Rattle.std.specs.Prelude.{◌≡◌, [], ◌∷◌, OnOk, MatchOption};

use crate::step::Waiting;
use std::alloc::{AllocError, Global};
use std::marker::Model;

/// A stack that contracts see as a list, the top first.
#[derive(Drop)]
pub struct Stack {
    items: Vec<Waiting>,
}

impl Model for Stack {
    ghost use Rattle.std.specs.Prelude.{List, []};
    ghost use Rattle.aplc_syntax.specs.declared.step.Waiting.{Waiting};
    ghost use Rattle.aplc_syntax.specs.Seen.{top_first};

    ghost Value = { List Waiting };

    ghost view = { λ it. top_first it.items.items [] };
}

impl Stack {
    pub fn new(alloc: Global) -> Stack
        ensures { result ≡ [] }
    {
        Stack {
            items: Vec::new(alloc),
        }
    }

    #[tactic(auto, using(crate::proofs::Tops::tops))]
    pub fn push(&mut self, item: Waiting) -> Result<(), AllocError>
        ensures { OnOk result (self.new ≡ item ∷ self.old) }
    {
        self.items.push(item)?;
        Ok(())
    }

    #[tactic(auto, using(crate::proofs::Tops::tops))]
    pub fn pop(&mut self) -> Option<Waiting>
        ensures { MatchOption result ((self.old ≡ []) × (self.new ≡ [])) (λ item. self.old ≡ item ∷ self.new) }
    {
        self.items.pop()
    }
}
