//! The program's top call: the words of the command line, the stages of the compiler, and the reports.
//! It must not know how a stage does its work.
#![tactic(auto)]

mod carrying;
mod compiling;
mod digits;
mod entering;
mod laws;
mod reading;
mod report;
mod status;
mod steps;
mod top;
mod words;

pub use aplc_lex::Refusal;
pub use entering::entry;
pub use laws::{
    every_file, every_refusal_has_a_word, every_text, one_refusal, one_source, one_text,
    one_text_refusal, source_or_refusal, text_or_refusal,
};
pub use status::Status;
pub use top::aplc;
