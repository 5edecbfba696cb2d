//! Soundness of typing: what the facts of a program say of the values that its runs give.
//! It must not hold code that runs.
#![tactic(auto)]

mod laws;

pub use laws::{
    changes_keep_kinds, facts_hold, globals_hold, no_rank_fault, nodes_exact, passes_facts,
    takes_kinds,
};
