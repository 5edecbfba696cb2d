//! What each name of a program is, or the first refusal of a program whose names clash.
//! It must not know what a program does.
#![tactic(auto)]

mod bound;
mod clashes;
mod entry;
mod graph;
mod labels;
mod laws;
mod minimum;
mod outline;
mod run_laws;
mod scope;
mod shadows;
mod table;

pub use aplc_lex::{Refusal, Stop};
pub use bound::{Bound, resolve};
pub use entry::main_function;
pub use laws::{always_one, clean_or_refusal, every_scope, one_refusal};
pub use outline::{Mention, Outline, put_statement};
pub use run_laws::{
    always_balanced, assigns_its_names, changes_alone, free_of_markings, gives_arrays,
    goes_on_at_none, only_grows, stays_balanced, stays_over,
};
pub use scope::Scope;
pub use table::Table;
