//! When two facts are the same, and what a hash reads of one.
//! It must not know who asks.

ghost use Rattle.std.specs.Cmp.{decided, partial_equiv_from_equiv};
ghost use Rattle.std.specs.Hash.{same_Alike};
ghost use Rattle.aplc_infer.specs.Sameness.{same, read, same_decides};

use crate::fact::Inferred;
use std::hash::{Hash, Hasher};

impl PartialEq for Inferred {
    ghost eq = { same };

    ghost laws = { partial_equiv_from_equiv (decided same same_decides) };

    fn eq(&self, other: &Inferred) -> bool {
        self.is_below(other) && other.is_below(self)
    }
}

impl Eq for Inferred {
    ghost laws = { decided same same_decides };
}

/// Facts of one shape are hashed alike, whatever their kinds.
impl Hash for Inferred {
    ghost hash_input = { read };

    ghost respects_eq = { (same_Alike read same_decides).fed };

    fn hash<H: Hasher>(&self, state: &mut H) {
        match self {
            Inferred::Unset => state.write_u8(0),
            Inferred::Of(_, None) => state.write_u8(1),
            Inferred::Of(_, Some(lengths)) => lengths.as_slice().hash(state),
        }
    }
}
