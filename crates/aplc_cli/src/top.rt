//! The top call: its words, its work, its report.
//! It must not know what a source, a program or a text look like.

ghost use Rattle.std.specs.Prelude.{◌≡◌, Some, map, false};
ghost use Rattle.std.specs.String.{string_bytes};
ghost use Rattle.aplc_cli.specs.Words.{command};
ghost use Rattle.aplc_cli.specs.Came.{told, result_map};
ghost use Rattle.aplc_cli.specs.Call.{outside, Works, Ends, Answers, fetches_of};
ghost use Rattle.aplc_io.specs.Outside.{next, SourceState, SinkState};

use crate::report::report;
use crate::status::{Ending, Status, Stop};
use crate::steps::{make, read_text, run_program, run_text, send_text};
use crate::words::{Action, read_words};
use aplc_io::{Host, Sink, Source};
use std::alloc::Global;

// FILE
fn compile_file<H: Host>(alloc: Global, name: &str, host: &mut H) -> Result<Ending, Stop>
    ensures fetches { H.fetches host.new ≡ next (H.fetches host.old) }
    ensures works { (i : SourceState) (o : SinkState) → Works (Some record { name = name.now; action = Action.Compile })
        (outside (H.state host.old) i o)
        (outside (H.state host.new) i o) (result_map told result) }
{
    let made = make(alloc, host, name)?;
    match send_text(host, made.text.as_slice(), false) {
        Ok(()) => Ok(Ending::Compiled),
        Err(stop) => Err(stop),
    }
}

// --run FILE
fn run_file<H: Host, S: Source, O: Sink>(
    alloc: Global,
    name: &str,
    host: &mut H,
    input: &mut S,
    out: &mut O,
    budget: u64,
) -> Result<Ending, Stop>
    ensures fetches { H.fetches host.new ≡ next (H.fetches host.old) }
    ensures late { S.met input.old ≡ false → S.late input.new ≡ S.late input.old }
    ensures works { Works (Some record { name = name.now; action = Action.Run budget })
        (outside (H.state host.old) (S.state input.old) (O.state out.old))
        (outside (H.state host.new) (S.state input.new) (O.state out.new)) (result_map told result) }
{
    let made = make(alloc, host, name)?;
    run_text(alloc, made, host, input, out, budget)
}

// --exec FILE
fn execute_file<H: Host, S: Source, O: Sink>(
    alloc: Global,
    name: &str,
    host: &mut H,
    input: &mut S,
    out: &mut O,
    budget: u64,
) -> Result<Ending, Stop>
    ensures fetches { H.fetches host.new ≡ next (H.fetches host.old) }
    ensures late { S.met input.old ≡ false → S.late input.new ≡ S.late input.old }
    ensures works { Works (Some record { name = name.now; action = Action.Exec budget })
        (outside (H.state host.old) (S.state input.old) (O.state out.old))
        (outside (H.state host.new) (S.state input.new) (O.state out.new)) (result_map told result) }
{
    let program = read_text(alloc, host, name)?;
    run_program(alloc, program, input, out, budget)
}

// All but the line on err.
fn work<H: Host, S: Source, O: Sink>(
    alloc: Global,
    words: &[String],
    host: &mut H,
    input: &mut S,
    out: &mut O,
) -> Result<Ending, Stop>
    ensures fetches { H.fetches host.new ≡ fetches_of (command (map string_bytes words.now)) (H.fetches host.old) }
    ensures late { S.met input.old ≡ false → S.late input.new ≡ S.late input.old }
    ensures works { Works (command (map string_bytes words.now))
        (outside (H.state host.old) (S.state input.old) (O.state out.old))
        (outside (H.state host.new) (S.state input.new) (O.state out.new)) (result_map told result) }
{
    let asked = match read_words(words) {
        Some(asked) => asked,
        None => return Err(Stop::Usage),
    };
    match asked.action {
        Action::Compile => compile_file(alloc, asked.name, host),
        Action::Run(budget) => run_file(alloc, asked.name, host, input, out, budget),
        Action::Exec(budget) => execute_file(alloc, asked.name, host, input, out, budget),
    }
}

// The work, and then the report.
fn carry_out<H: Host, S: Source, O: Sink, E: Sink>(
    alloc: Global,
    words: &[String],
    host: &mut H,
    input: &mut S,
    out: &mut O,
    err: &mut E,
) -> Status
    ensures fetches { H.fetches host.new ≡ fetches_of (command (map string_bytes words.now)) (H.fetches host.old) }
    ensures late { S.met input.old ≡ false → S.late input.new ≡ S.late input.old }
    ensures ends { Ends (command (map string_bytes words.now))
        (outside (H.state host.old) (S.state input.old) (O.state out.old))
        (outside (H.state host.new) (S.state input.new) (O.state out.new))
        (E.state err.old) (E.state err.new) result }
{
    let done = work(alloc, words, host, input, out);
    report(err, &done)
}

/// Carries out what the words ask for, and answers how that ended.
///
/// `words` are those of the command line behind the program's name. FILE is not empty and does not begin with `-`.
/// - `FILE`: the file is fetched and compiled, and its C text is handed to the host. Nothing is read from `input`
///   and nothing is written to `out`.
/// - `--run FILE`, `--run --steps M FILE`: the same, and then the text is carried out over `input` and `out`, for
///   at most M steps: 1 to 1,000,000,000,000,000 in at most 16 digits. Where `--steps` is not there it is
///   1,000,000,000.
/// - `--exec FILE`, `--exec --steps M FILE`: the file is a C text and is carried out in the same way. Nothing is
///   handed to the host. This alone may answer `Stuck`.
///
/// A line on `err` tells every answer but `Done`.
pub fn aplc<H: Host, S: Source, O: Sink, E: Sink>(
    alloc: Global,
    words: Vec<String>,
    host: &mut H,
    input: &mut S,
    out: &mut O,
    err: &mut E,
) -> Status
    ensures answers { Answers (command (map string_bytes words.items))
        (outside (H.state host.old) (S.state input.old) (O.state out.old))
        (outside (H.state host.new) (S.state input.new) (O.state out.new))
        (E.state err.old) (E.state err.new) result }
    ensures fetches { H.fetches host.new ≡ fetches_of (command (map string_bytes words.items)) (H.fetches host.old) }
    ensures late { S.met input.old ≡ false → S.late input.new ≡ S.late input.old }
{
    carry_out(alloc, words.as_slice(), host, input, out, err)
}
