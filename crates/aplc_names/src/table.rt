//! Lists of names that know where each name first stands.
//! They must not know what the names are for.

ghost use Rattle.std.specs.Prelude.{◌≡◌, ◌<◌, ℕ, IfOk, IfSome, OnOk, length, nat_eq};
ghost use Rattle.std.specs.BTreeMap.{get};
ghost use Rattle.std.specs.Ordering.{nat_cmp};
ghost use Rattle.aplc_names.specs.Tables.{first, stands_in, found_or};

use aplc_syntax::{NameId, Named};
use std::alloc::{AllocError, Global};
use std::collections::BTreeMap;
use std::marker::Model;

/// A list of names with their places.
#[derive(Drop)]
pub struct Table {
    names: Vec<Named>,
    firsts: BTreeMap<u32, usize>,
}

impl Model for Table {
    ghost use Rattle.std.specs.Prelude.{List};
    ghost use Rattle.aplc_syntax.specs.declared.tree.Named.{Named};
    ghost use Rattle.aplc_names.specs.Tables.{IsIndex};

    ghost Value = { List Named };

    ghost view = { λ t. t.names.items };

    ghost invariant = { λ t. IsIndex t.names.items t.firsts };
}

/// A name stands at this place too.
fn note(firsts: &mut BTreeMap<u32, usize>, name: NameId, place: usize) -> Result<(), AllocError>
    ensures { OnOk result ((q : ℕ) → get nat_cmp firsts.new q ≡ found_or (get nat_cmp firsts.old q) (nat_eq name.0 q) place) }
{
    if firsts.contains_key(&name.0) {
        return Ok(());
    }
    firsts.insert(name.0, place)?;
    Ok(())
}

impl Table {
    #[tactic(auto, using(crate::proofs::Firsts::tables))]
    pub fn new(alloc: Global, names: Vec<Named>) -> Result<Table, AllocError>
        ensures { IfOk result (λ t. t ≡ names.items) }
    {
        let mut firsts = BTreeMap::new(alloc);
        for (i, x) in names.iter().enumerate() {
            note(&mut firsts, x.name, i)?;
        }
        Ok(Table { names, firsts })
    }

    pub fn names(&self) -> &[Named]
        ensures { result.now ≡ self.now }
    {
        self.names.as_slice()
    }

    /// Where a name first stands.
    #[tactic(auto, using(crate::proofs::Firsts::first_within))]
    pub fn first(&self, name: NameId) -> Option<usize>
        ensures first { result ≡ first name.0 self.now }
        ensures within { IfSome result (λ i. i < length self.now) }
    {
        self.firsts.get(&name.0).copied()
    }

    #[tactic(auto, using(crate::proofs::Firsts::tables))]
    pub fn has(&self, name: NameId) -> bool
        ensures { result ≡ stands_in name.0 self.now }
    {
        self.first(name).is_some()
    }
}
