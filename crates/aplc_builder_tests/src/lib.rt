//! Tests that build whole C programs with the builders, and run them.
//! It must not hold anything that a crate other than one of tests could want.
#![tactic(auto)]

mod arrays;
mod building;
#[cfg(test)]
mod carrying;
mod display_cases;
#[cfg(test)]
mod display_tests;
mod displays;
#[cfg(test)]
mod fill_tests;
mod fills;
mod formed;
mod running;
#[cfg(test)]
mod scalar_tests;
mod scalars;
#[cfg(test)]
mod show_tests;
mod staged;
mod staged_cases;
mod staged_runs;
#[cfg(test)]
mod staged_tests;

pub use displays::{display_program, display_runs};
pub use fills::{empty_runs, fill_program, fill_runs};
pub use formed::is_well_formed;
pub use running::Run;
pub use scalars::{DYADIC, MONADIC, dyad_program, dyad_runs, mono_program, mono_runs};
pub use staged::{staged_copy, staged_dyad, staged_mono};
pub use staged_runs::staged_programs;
