//! The text of an array, and code that prints it.
//! It must not know of programs, nor what makes the elements.
#![tactic(auto)]

mod arrays;
mod cells;
mod elements;
mod matrices;
mod planes;
mod printing;
mod ranging;
mod rows;
mod showing;

pub use arrays::show_code;
pub use rows::show;
