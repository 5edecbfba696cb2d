//! Code of elements, and of the scalar functions that are applied to them.
//! It must not know where in a program it stands, nor how arrays are held.
#![tactic(auto)]

mod blocks;
mod dyadic;
mod element;
mod fused;
mod guards;
mod monadic;

pub use dyadic::dyad_code;
pub use element::{ElementCode, ScalarElement};
pub use fused::{Dyad, Mono};
pub use monadic::mono_code;
