//! Which nodes of a lowered program are held in memory, and which are swept.
//! It must not know how a held value is computed, nor how C is written.
#![tactic(auto)]

mod inner;
mod marks;
mod planning;
mod table;

pub use marks::Plan;
pub use planning::plan;
