//! The exact reader of texts of the C profile.
//! It must not know what a program means, nor who reads it.
#![tactic(auto)]

mod answer;
mod below;
mod block;
mod expr;
mod function;
mod laws;
mod leaf;
mod lexical;
mod listing;
mod name;
mod program;
mod range;
mod table;
mod whole;

pub use answer::{CRefusal, CStop};
pub use laws::one_refusal;
pub use whole::read;
