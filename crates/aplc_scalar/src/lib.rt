//! Kinds of values and faults, and the scalar functions over whole numbers.
//! It must not know of arrays, of programs, or of the C text.
#![tactic(auto)]

mod function;
mod kind;

pub use function::{ScalarFn, dyad, identity, in_range, mono};
pub use kind::{FaultKind, Kind};
