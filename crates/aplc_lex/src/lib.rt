//! The tokens of an APL source, each with the bytes that it spans, or the first refusal of a text that has none.
//! It must not know what tokens mean together, nor how long a source may be.
#![tactic(auto)]

mod comparing;
mod cutting;
mod heads;
mod laws;
mod list;
mod runs;
mod signs;
mod token;

pub use comparing::{earlier, sooner};
pub use cutting::tokens;
pub use laws::{always_one, one_list, one_refusal, tokens_or_refusal};
pub use list::List;
pub use token::{Refusal, Span, Stop, Token, TokenKind};
