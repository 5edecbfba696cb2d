//! Values of a statement that stand in memory, and the code that makes one of others.
//! It must not know of programs, of names, of functions or of trees.
#![tactic(auto)]

mod conforming;
mod counting;
mod dyadic;
mod extending;
mod freeing;
mod gathering;
mod monadic;
mod moving;
mod showing;
mod staged;
mod unlike;
mod wholes;

pub use dyadic::held_dyad;
pub use freeing::free_staged;
pub use monadic::{copy_staged, held_mono};
pub use showing::show_staged;
pub use staged::Staged;
