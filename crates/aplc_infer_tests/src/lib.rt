//! Tests of aplc_infer: the facts of whole programs node by node, and refusals.
//! It must not hold anything that another crate could want.
#![tactic(auto)]

#[cfg(test)]
mod drawn_cases;
#[cfg(test)]
mod fact_cases;
#[cfg(test)]
mod infer_tests;
#[cfg(test)]
mod refused_cases;
