//! A resolved program as steps: each statement cut at its effects, over trees that have none.
//! It must not know what is held in memory, nor how C is written.
#![tactic(auto)]

mod laws;
mod laws_of_steps;
mod lines;
mod lowering;
mod program;
mod step;
mod walk;
mod written;

pub use laws::{bound_keeps_runs, keeps_runs, lowered_keeps_runs};
pub use laws_of_steps::{
    bound_says_statements, no_node_twice, order_has_each_node, steps_say_statements,
};
pub use program::{CoreProgram, lower};
pub use step::{SlotId, Step, Tree};
