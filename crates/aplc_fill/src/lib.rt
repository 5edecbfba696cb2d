//! Loops that fill a buffer with the elements of an array.
//! It must not know where the elements come from.
#![tactic(auto)]

mod expressions;
mod filling;

pub use filling::fill;
