//! Where a value of a statement stands.
//! It must not know how it came there.

ghost use Rattle.std.specs.Prelude.{◌≡◌};
ghost use Rattle.aplc_stage.specs.Staged.{lengths_of};

use aplc_cprof::{Int, List};
use aplc_step::Origin;

/// A value of a statement: a number in a variable, or the cells of a buffer or of a table in row-major order, with a
/// variable for the length of each axis, of which there is one at least.
#[derive(Drop)]
pub enum Staged {
    Scalar(Int),
    Cells(Origin, List<Int>),
}

impl Staged {
    /// The variables of its lengths.
    pub fn lengths(&self) -> &[Int]
        ensures { result.now ≡ lengths_of self.now }
    {
        match self {
            Staged::Scalar(_) => &[],
            Staged::Cells(_, lengths) => lengths.as_slice(),
        }
    }
}
