//! The call that the program makes: all words of the command line, and the exit code.
//! It must not know what a command does.

ghost use Rattle.std.specs.Prelude.{◌≡◌, map, drop, false, Err, IfOk, IfErr};
ghost use Rattle.std.specs.IoError.{error_kind};
ghost use Rattle.std.specs.String.{string_bytes};
ghost use Rattle.std.specs.Vec.Iter.{into_iter_items};
ghost use Rattle.aplc_cli.specs.Words.{command};
ghost use Rattle.aplc_cli.specs.Came.{code_of};
ghost use Rattle.aplc_cli.specs.Call.{outside, no_words, Answers, IsWordless, AtMostOnce};
ghost use Rattle.aplc_cli.specs.declared.status.Stop.TheVariants.{Memory};

use crate::Status;
use crate::report::report;
use crate::status::Stop;
use crate::top::aplc;
use aplc_io::{Host, Sink, Source};
use std::alloc::{AllocError, Global};
use std::env::Args;
use std::io;

fn listed(alloc: Global, all: Args) -> Result<Vec<String>, AllocError>
    ensures { IfOk result (λ words. words.items ≡ into_iter_items all) }
{
    let mut words = Vec::new(alloc);
    for word in all {
        words.push(word)?;
    }
    Ok(words)
}

fn behind_first(all: Vec<String>) -> Vec<String>
    ensures { result.items ≡ drop 1 all.items }
{
    let mut words = all;
    if !words.is_empty() {
        let _ = words.remove(0);
    }
    words
}

// The words behind the program's name. Where a word is no text there are none, which is no command.
fn words(alloc: Global, given: io::Result<Args>) -> Result<Vec<String>, Stop>
    ensures behind { IfOk given (λ all. IfOk result (λ words. words.items ≡ drop 1 (into_iter_items all))) }
    ensures wanting { IfOk given (λ all. IfErr result (λ stop. stop ≡ Memory)) }
    ensures none { IfErr given (λ e. result ≡ Err (no_words (error_kind e))) }
{
    match given {
        Ok(all) => match listed(alloc, all) {
            Ok(words) => Ok(behind_first(words)),
            Err(AllocError) => Err(Stop::Memory),
        },
        Err(error) if error.kind() == io::ErrorKind::OutOfMemory => Err(Stop::Memory),
        Err(_) => Err(Stop::Usage),
    }
}

fn enter<H: Host, S: Source, O: Sink, E: Sink>(
    alloc: Global,
    given: io::Result<Args>,
    host: &mut H,
    input: &mut S,
    out: &mut O,
    err: &mut E,
) -> Status
    ensures answers { IfOk given (λ all. Answers (command (map string_bytes (drop 1 (into_iter_items all))))
        (outside (H.state host.old) (S.state input.old) (O.state out.old))
        (outside (H.state host.new) (S.state input.new) (O.state out.new))
        (E.state err.old) (E.state err.new) result) }
    ensures wordless { IfErr given (λ e. IsWordless (error_kind e)
        (outside (H.state host.old) (S.state input.old) (O.state out.old))
        (outside (H.state host.new) (S.state input.new) (O.state out.new))
        (E.state err.old) (E.state err.new) result) }
    ensures fetches { AtMostOnce (H.fetches host.old) (H.fetches host.new) }
    ensures late { S.met input.old ≡ false → S.late input.new ≡ S.late input.old }
{
    match words(alloc, given) {
        Ok(words) => aplc(alloc, words, host, input, out, err),
        Err(stop) => report(err, &Err(stop)),
    }
}

/// Carries out what the words behind the first ask for, and answers the exit code.
///
/// `given` is what `env::args` answers. Where it gives no words, `err` gets the usage line, or the line on memory.
pub fn entry<H: Host, S: Source, O: Sink, E: Sink>(
    alloc: Global,
    given: io::Result<Args>,
    host: &mut H,
    input: &mut S,
    out: &mut O,
    err: &mut E,
) -> u8
    ensures answers { IfOk given (λ all. (s : Status) × (result ≡ code_of s)
        × Answers (command (map string_bytes (drop 1 (into_iter_items all))))
        (outside (H.state host.old) (S.state input.old) (O.state out.old))
        (outside (H.state host.new) (S.state input.new) (O.state out.new))
        (E.state err.old) (E.state err.new) s) }
    ensures wordless { IfErr given (λ e. (s : Status) × (result ≡ code_of s) × IsWordless (error_kind e)
        (outside (H.state host.old) (S.state input.old) (O.state out.old))
        (outside (H.state host.new) (S.state input.new) (O.state out.new))
        (E.state err.old) (E.state err.new) s) }
    ensures fetches { AtMostOnce (H.fetches host.old) (H.fetches host.new) }
    ensures late { S.met input.old ≡ false → S.late input.new ≡ S.late input.old }
{
    enter(alloc, given, host, input, out, err).code()
}
