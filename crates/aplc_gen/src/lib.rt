//! The C program of a lowered program.
//! It must not know how a program is read, nor how a C program is printed.
#![tactic(auto)]

mod expressions;
mod flags;
mod flow;
mod frame;
mod generating;
mod generator;
mod known;
mod layout;
mod lead;
mod names;
mod passing;
mod ranks;
mod segments;
mod site;
mod sparing;
mod statements;
mod terms;
mod unbuilt;
mod widths;

pub use generator::generate;
pub use unbuilt::first_unbuilt;
