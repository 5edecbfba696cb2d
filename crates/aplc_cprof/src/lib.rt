//! The C profile: its programs, their text, the machine that gives the text a meaning, and a builder of functions.
//! It must not know of APL, nor how a text is read back or carried out.
#![tactic(auto)]

mod building;
mod emitting;
mod expressions;
mod laws;
mod list;
mod preamble;
mod printing;
mod statements;
mod syntax;

pub use building::Builder;
pub use emitting::{binary, less, on_values, plus_one};
pub use laws::{kept_calls, one_program};
pub use list::List;
pub use preamble::{preamble_bytes, tail_bytes};
pub use printing::print;
pub use syntax::{Arm, Buf, CExpr, CFunction, CProgram, CStmt, Checked, Int, Op, StuckCause};
