//! The steps of a call's work: the file and the program that is made of it or read from it, the text to the host,
//! the run. They must not know the words.

ghost use Rattle.std.specs.Prelude.{◌≡◌, true, false, None, Some, []};
ghost use Rattle.aplc_io.specs.Outside.{next, HostState, target_of};
ghost use Rattle.aplc_cprof.specs.WellFormed.{IsWellFormed};
ghost use Rattle.aplc_cli.specs.Came.{told, result_map};
ghost use Rattle.aplc_cli.specs.Call.{outside, Fetched, Made, Sends, RanText};

use crate::carrying::carry_out;
use crate::compiling::{Compiled, SOURCE_LIMIT, compile};
use crate::status::{Ending, Stop};
use crate::words::Action;
use aplc_cprof::CProgram;
use aplc_cread::{CStop, read};
use aplc_crun::Machine;
use aplc_io::{Failed, FetchFault, Host, Sink, Source, put_all};
use aplc_lex::Refusal;
use std::alloc::Global;

/// The most bytes that a C text may have.
const TEXT_LIMIT: u64 = 67_108_864;

// A file of at most `long.place` bytes; one that is longer is refused with `long`.
fn fetch<H: Host>(alloc: Global, host: &mut H, name: &str, long: Refusal) -> Result<Vec<u8>, Stop>
    ensures fetched { Fetched long name.now (H.state host.old) (H.state host.new) (result_map (λ v. v.items) result) }
    ensures fetches { H.fetches host.new ≡ next (H.fetches host.old) }
{
    match host.fetch(alloc, name, long.place) {
        Ok(file) => Ok(file),
        Err(FetchFault::Failed) => Err(Stop::ReadFault),
        Err(FetchFault::TooLong) => Err(Stop::Refused(long)),
        Err(FetchFault::Memory) => Err(Stop::Memory),
    }
}

/// What the source of this name is compiled to.
pub fn make<H: Host>(alloc: Global, host: &mut H, name: &str) -> Result<Compiled, Stop>
    ensures fetches { H.fetches host.new ≡ next (H.fetches host.old) }
    ensures made { Made Action.Compile name.now (H.state host.old) (H.state host.new) (result_map (λ c. (c.program, c.text.items)) result) }
{
    let long = Refusal {
        number: 23,
        place: SOURCE_LIMIT,
    };
    let file = fetch(alloc, host, name, long)?;
    compile(alloc, file.as_slice())
}

/// The program whose C text is the file of this name.
pub fn read_text<H: Host>(alloc: Global, host: &mut H, name: &str) -> Result<CProgram, Stop>
    ensures fetches { H.fetches host.new ≡ next (H.fetches host.old) }
    ensures made { Made (Action.Exec 0) name.now (H.state host.old) (H.state host.new) (result_map (λ p. (p, [])) result) }
{
    let long = Refusal {
        number: 35,
        place: TEXT_LIMIT,
    };
    let file = fetch(alloc, host, name, long)?;
    match read(alloc, file.as_slice()) {
        Ok(program) => Ok(program),
        Err(CStop::Refused(refusal)) => Err(Stop::Refused(Refusal {
            number: refusal.number,
            place: refusal.place,
        })),
        Err(CStop::Memory) => Err(Stop::Memory),
    }
}

/// Hands a text to the host, which knows whether it is to be run.
pub fn send_text<H: Host>(host: &mut H, text: &[u8], run: bool) -> Result<(), Stop>
    ensures unfetched { H.fetches host.new ≡ H.fetches host.old }
    ensures sends { Sends (record { target = target_of None run; bytes = text.now }) (H.state host.old) (H.state host.new) result }
{
    if host.text_to(None, run).is_err() {
        return Err(Stop::WriteFault);
    }
    match put_all(host, text) {
        Ok(()) => Ok(()),
        Err(Failed) => Err(Stop::WriteFault),
    }
}

/// Hands a text to the host, and carries its program out for at most `budget` steps.
pub fn run_text<H: Host, S: Source, O: Sink>(
    alloc: Global,
    made: Compiled,
    host: &mut H,
    input: &mut S,
    out: &mut O,
    budget: u64,
) -> Result<Ending, Stop>
    requires formed { IsWellFormed made.program }
    ensures unfetched { H.fetches host.new ≡ H.fetches host.old }
    ensures late { S.met input.old ≡ false → S.late input.new ≡ S.late input.old }
    ensures ran { RanText (Some record { target = target_of None true; bytes = made.text.items }) made.program budget
        (outside (H.state host.old) (S.state input.old) (O.state out.old))
        (outside (H.state host.new) (S.state input.new) (O.state out.new)) (result_map told result) }
{
    let Compiled { program, text } = made;
    let machine = match Machine::start(alloc, program) {
        Ok(machine) => machine,
        Err(_) => return Err(Stop::Memory),
    };
    if let Err(stop) = send_text(host, text.as_slice(), true) {
        return Err(stop);
    }
    drop(text);
    carry_out(machine, input, out, budget)
}

/// Carries a program out for at most `budget` steps.
pub fn run_program<S: Source, O: Sink>(
    alloc: Global,
    program: CProgram,
    input: &mut S,
    out: &mut O,
    budget: u64,
) -> Result<Ending, Stop>
    requires formed { IsWellFormed program }
    ensures late { S.met input.old ≡ false → S.late input.new ≡ S.late input.old }
    ensures ran { (h : HostState) → RanText None program budget
        (outside h (S.state input.old) (O.state out.old))
        (outside h (S.state input.new) (O.state out.new)) (result_map told result) }
{
    let machine = match Machine::start(alloc, program) {
        Ok(machine) => machine,
        Err(_) => return Err(Stop::Memory),
    };
    carry_out(machine, input, out, budget)
}
