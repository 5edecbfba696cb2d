//! Tests of whole calls, from the words to both outputs.
//! It must not hold anything that another crate could want.
#![tactic(auto)]

#[cfg(test)]
mod call_tests;
#[cfg(test)]
mod entry_tests;
#[cfg(test)]
mod exec_tests;
#[cfg(test)]
mod function_tests;
#[cfg(test)]
mod limit_tests;
