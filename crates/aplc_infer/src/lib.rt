//! The facts of a program: kind, rank and lengths of every value, or its first refusal by the typing rules.
//! It must not know how a program runs, nor what text is made of it.
#![tactic(auto)]

mod agenda;
mod block;
mod branches;
mod cell;
mod column;
mod extent;
mod fact;
mod facts;
mod flowing;
mod functions;
mod indexes;
mod inference;
mod inferring;
mod joins;
mod laws;
mod literals;
mod locals;
mod lookup;
mod numbers;
mod operators;
mod parts;
mod pool;
mod refusals;
mod row;
mod rule_break;
mod rules;
mod sameness;
mod scalars;
mod searching;
mod seeing;
mod shapes;
mod tables;
mod walk;

pub use cell::{Binding, Cell, Demand, Flow};
pub use fact::{FactKind, Inferred, Lengths};
pub use facts::{Fact, Facts};
pub use inferring::infer;
pub use laws::{always_one, one_refusal, refusals_have_reasons, typed_or_refused};
pub use rule_break::RuleBreak;
pub use walk::Walk;
