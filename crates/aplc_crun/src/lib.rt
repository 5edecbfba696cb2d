//! Runs programs of the C profile, exactly as the machine's definition says.
//! It must not know of APL, nor where a program came from.
#![tactic(auto)]

mod advance;
mod arith;
mod choices;
mod code;
mod decode;
mod eval;
mod gather;
mod heap;
mod lay;
mod live;
mod machine;
mod pending;
mod places;
mod print;
mod quick;
mod reading;
mod run_live;
mod running;
mod sizes;
mod sprint;
mod step;
mod stop;
mod term;

pub use aplc_cprof::StuckCause;
pub use machine::Machine;
pub use stop::RunStop;
