//! The program of an APL source as trees, or the first refusal of a source that has none.
//! It must not know the scopes of names, nor what a program does.
#![tactic(auto)]

mod building;
mod checking;
mod functions;
mod header;
mod items;
mod laws;
mod layout;
mod names;
mod outside;
mod parsing;
mod reading;
mod roles;
mod stack;
mod statement;
mod step;
mod texts;
mod tree;
mod word;

pub use aplc_lex::{List, Refusal, Stop};
pub use laws::{always_one, one_program, one_refusal, one_statement, program_or_refusal};
pub use parsing::parse;
pub use tree::{
    Axis, Form, Function, Line, NameId, Named, Node, NodeId, Primitive as Prim, Program, Statement,
    Var,
};
pub use word::{Arity, Role, Stroke, Word, WordKind};
