//! Where a run stands in the functions of the source.
//! It must not know what a mark says.

ghost use Rattle.std.specs.Prelude.{◌≡◌, ◌<◌, ◌≤◌, ◌∷◌, [], None, IfOk, length, nat_lt, reverse};
ghost use Rattle.std.specs.Vec.{vec_capacity};
ghost use Rattle.aplc_cprof.specs.Machine.{most_places};

use std::alloc::{AllocError, Global};

/// How many places there may be.
const MOST: usize = 4096;

/// The places that were entered: each the mark that set it, or None where none has. Those behind the innermost one stand
/// from the outermost on, and there is room for all that there may be.
#[derive(Drop)]
pub struct Places {
    pub here: Option<usize>,
    pub behind: Vec<Option<usize>>,
    ghost roomy: { 4095 ≤ vec_capacity behind },
}

impl Places {
    /// One place, which no mark has set.
    pub fn new(alloc: Global) -> Result<Places, AllocError>
        ensures here { IfOk result (λ p. p.here ≡ None) }
        ensures behind { IfOk result (λ p. p.behind.items ≡ []) }
    {
        let behind = Vec::with_capacity(alloc, MOST - 1)?;
        Ok(Places { here: None, behind })
    }

    pub fn has_room(&self) -> bool
        ensures { result ≡ nat_lt (length (self.now.here ∷ reverse self.now.behind.items)) most_places }
    {
        self.behind.len() < MOST - 1
    }

    /// A new innermost place.
    #[tactic(auto, using(crate::proofs::Callers::behinds))]
    pub fn enter(&mut self)
        requires { length (self.old.here ∷ reverse self.old.behind.items) < most_places }
        ensures here { self.new.here ≡ None }
        ensures behind { reverse self.new.behind.items ≡ self.old.here ∷ reverse self.old.behind.items }
    {
        let here = self.here;
        match self.behind.push(here) {
            Ok(()) => self.here = None,
            Err(_) => unreachable!(),
        }
    }
}
