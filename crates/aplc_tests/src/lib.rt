//! Tests of the crates below aplc_cli, each by what its crate makes public; and what several tests make their texts of.
//! It must not hold anything that a crate other than one of tests could want.
#![tactic(auto)]

#[cfg(test)]
mod arr_tests;
#[cfg(test)]
mod cprof_tests;
#[cfg(test)]
mod cread_tests;
#[cfg(test)]
mod form_tests;
#[cfg(test)]
mod io_tests;
#[cfg(test)]
mod lex_tests;
#[cfg(test)]
mod names_tests;
mod pieces;
#[cfg(test)]
mod runner_tests;
#[cfg(test)]
mod scalar_tests;
#[cfg(test)]
mod switch_tests;
#[cfg(test)]
mod syntax_tests;

pub use pieces::{program_of, times};
