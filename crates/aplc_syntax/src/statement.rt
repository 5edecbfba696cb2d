//! A statement from its words, or its first refusal.
//! It must not know of lines, of functions, or of how roles are found.

ghost use Rattle.std.specs.Prelude.{◌≤◌, length, IfOk, IfErr};
ghost use Rattle.aplc_syntax.specs.Programs.{IsStatement};
ghost use Rattle.aplc_syntax.specs.Refusals.{RefusesIn};
ghost use Rattle.aplc_syntax.specs.Words.{Laid};

use crate::building::build;
use crate::checking::checked;
use crate::tree::Statement;
use crate::word::Word;
use aplc_lex::Stop;
use std::alloc::Global;

/// The statement of words of a text, or its first refusal: 7, 8, 9 or 13.
pub fn statement(alloc: Global, text: &[u8], words: &[Word]) -> Result<Statement, Stop>
    requires length { length text.now ≤ 262144 }
    requires laid { Laid text.now 0 words.now }
    ensures statement { IfOk result (λ s. IsStatement text.now words.now s) }
    ensures refused { IfErr result (RefusesIn words.now) }
{
    match words {
        [] => Ok(Statement::Empty),
        [first, ..] => match checked(alloc, first.place, words) {
            Err(stop) => Err(stop),
            Ok(steps) => match build(alloc, text, &steps) {
                Err(_) => Err(Stop::Memory),
                Ok(None) => unreachable!(),
                Ok(Some(statement)) => Ok(statement),
            },
        },
    }
}
