//! The line on err for what a call came to, and the status.
//! It must not know how the work was done.

ghost use Rattle.std.specs.Prelude.{◌≡◌, ◌<◌, ◌++◌, length, get_or, codes, Ok, Err, option_map};
ghost use Rattle.std.specs.List.{flat_map};
ghost use Rattle.aplc_cli.specs.Came.{line, status_of, refusal_line, token_word, program_word, name_word, fact_word, text_word, refusal_word, fault_word, cause_word, fault_line, caller_line, fault_lines, stuck_line, told, result_map};
ghost use Rattle.aplc_cli.specs.Call.{Reports, Wrote};
ghost use Rattle.aplc_cprof.specs.Machine.{empty_place};
ghost use Rattle.aplc_crun.specs.Running.{places_of};

use crate::status::{Ending, RunEnd, Stop};
use crate::{Refusal, Status};
use aplc_crun::{Machine, StuckCause};
use aplc_io::{Failed, Sink, write_all, write_pieces};
use aplc_scalar::FaultKind;
use itoa::Buffer;

const USAGE: &[u8] =
    b"usage: aplc [-o NAME] FILE; aplc --run [--steps M] [--stats] [-o NAME] FILE; aplc --check FILE; aplc --exec [--steps M] [--stats] FILE; aplc --make N\n";

// The words of refusals 1 to 5: of tokens.
fn token_word(number: u8) -> &'static [u8]
    ensures { result.now ≡ token_word number }
{
    match number {
        1 => b"UTF8",
        2 => b"CHARACTER",
        3 => b"QUOTE",
        4 => b"NUMBER",
        _ => b"NAME",
    }
}

// Of 6 to 11: of statements, headers and declarations.
fn program_word(number: u8) -> &'static [u8]
    ensures { result.now ≡ program_word number }
{
    match number {
        6 => b"HEADER",
        7 => b"FORM",
        8 => b"NESTING",
        9 => b"NODES",
        10 => b"COUNT",
        _ => b"DECLARATION",
    }
}

// Of 12 to 16: of names.
fn name_word(number: u8) -> &'static [u8]
    ensures { result.now ≡ name_word number }
{
    match number {
        12 => b"TWICE",
        13 => b"FUNCTION",
        14 => b"SHADOW",
        15 => b"MAIN",
        _ => b"ASSIGN",
    }
}

// Of 17 to 22: of facts.
fn fact_word(number: u8) -> &'static [u8]
    ensures { result.now ≡ fact_word number }
{
    match number {
        17 => b"TYPE",
        18 => b"RANK",
        19 => b"RESHAPE",
        20 => b"TRANSPOSE",
        21 => b"DECLARED",
        _ => b"AXIS",
    }
}

// Of files and C texts, and of what is not built.
fn text_word(number: u8) -> Option<&'static [u8]>
    ensures { option_map (λ w. w.now) result ≡ text_word number }
{
    match number {
        30 => Some(b"PREAMBLE"),
        31 => Some(b"BYTE"),
        32 => Some(b"FORM"),
        33 => Some(b"NAME"),
        34 => Some(b"NESTING"),
        23 | 35 => Some(b"TOO LONG"),
        90 => Some(b"LATER"),
        _ => None,
    }
}

// The word of a refusal's number. A number that no stage gives has none.
fn refusal_word(number: u8) -> Option<&'static [u8]>
    ensures { option_map (λ w. w.now) result ≡ refusal_word number }
{
    match number {
        1..=5 => Some(token_word(number)),
        6..=11 => Some(program_word(number)),
        12..=16 => Some(name_word(number)),
        17..=22 => Some(fact_word(number)),
        _ => text_word(number),
    }
}

fn fault_word(kind: FaultKind) -> &'static [u8]
    ensures { result.now ≡ fault_word kind }
{
    match kind {
        FaultKind::Domain => b"DOMAIN",
        FaultKind::Index => b"INDEX",
        FaultKind::Length => b"LENGTH",
        FaultKind::Limit => b"LIMIT",
        FaultKind::Rank => b"RANK",
        FaultKind::Value => b"VALUE",
        FaultKind::Input => b"INPUT",
    }
}

fn cause_word(cause: StuckCause) -> &'static [u8]
    ensures { result.now ≡ cause_word cause }
{
    match cause {
        StuckCause::Outside => b"OUTSIDE",
        StuckCause::Freed => b"FREED",
        StuckCause::Unset => b"UNSET",
        StuckCause::Range => b"RANGE",
    }
}

fn write_refusal<E: Sink>(err: &mut E, refusal: Refusal) -> Result<(), Failed>
    ensures { Wrote (refusal_line refusal) (E.state err.old) (E.state err.new) result }
{
    let mut number = Buffer::new();
    let mut place = Buffer::new();
    let number = number.format(refusal.number).as_bytes();
    let place = place.format(refusal.place).as_bytes();
    let word = refusal_word(refusal.number).unwrap_or(&[]);
    write_pieces(
        err,
        &[b"REFUSED ", number, b" ", word, b" AT ", place, b"\n"],
    )
}

// The line of a place from its parts: a word, what stands behind it, the function and the line.
fn write_place<'a, E: Sink>(
    err: &mut E,
    word: &'a [u8],
    sign: &'a [u8],
    name: &'a [u8],
    line: &'a [u8],
) -> Result<(), Failed>
    ensures { Wrote (word.now ++ (sign.now ++ (name.now ++ (codes "[" ++ (line.now ++ codes "]\n"))))) (E.state err.old) (E.state err.new) result }
{
    write_pieces(err, &[word, sign, name, b"[", line, b"]\n"])
}

// The kind of a fault, and the place where the machine stands.
fn write_here<E: Sink>(err: &mut E, kind: FaultKind, machine: &Machine) -> Result<(), Failed>
    ensures { Wrote (fault_line kind (places_of machine.now).here) (E.state err.old) (E.state err.new) result }
{
    let mut buffer = Buffer::new();
    let line = buffer.format(machine.place_line()).as_bytes();
    write_place(
        err,
        fault_word(kind),
        b" ERROR ",
        machine.place_name(),
        line,
    )
}

// The caller of this number, counted from 0 for the innermost one.
fn write_caller<E: Sink>(err: &mut E, machine: &Machine, number: usize) -> Result<(), Failed>
    requires { number < length (places_of machine.now).behind }
    ensures { Wrote (caller_line (get_or (places_of machine.now).behind number empty_place)) (E.state err.old) (E.state err.new) result }
{
    let mut buffer = Buffer::new();
    let line = buffer.format(machine.caller_line(number + 1)).as_bytes();
    write_place(err, b"FROM", b" ", machine.caller_name(number + 1), line)
}

#[tactic(auto, using(crate::proofs::Callers::callers))]
fn write_callers<E: Sink>(err: &mut E, machine: &Machine) -> Result<(), Failed>
    ensures { Wrote (flat_map caller_line (places_of machine.now).behind) (E.state err.old) (E.state err.new) result }
{
    let callers = machine.places() - 1;
    for number in 0..callers {
        match write_caller(err, machine, number) {
            Ok(()) => {}
            Err(Failed) => return Err(Failed),
        }
    }
    Ok(())
}

// The line of a fault, and a line for each caller.
#[tactic(auto, using(crate::proofs::Callers::both_wrote))]
fn write_fault<E: Sink>(err: &mut E, kind: FaultKind, machine: &Machine) -> Result<(), Failed>
    ensures { Wrote (fault_lines kind (places_of machine.now)) (E.state err.old) (E.state err.new) result }
{
    match write_here(err, kind, machine) {
        Ok(()) => write_callers(err, machine),
        Err(Failed) => Err(Failed),
    }
}

fn write_stuck<E: Sink>(err: &mut E, cause: StuckCause, statement: u64) -> Result<(), Failed>
    ensures { Wrote (stuck_line cause statement) (E.state err.old) (E.state err.new) result }
{
    let mut buffer = Buffer::new();
    let statement = buffer.format(statement).as_bytes();
    write_pieces(
        err,
        &[b"STUCK ", cause_word(cause), b" AT ", statement, b"\n"],
    )
}

fn write_end<E: Sink>(err: &mut E, end: RunEnd, machine: &Machine) -> Result<(), Failed>
    ensures { Wrote (line (Ok (told (Ending.Ran end machine.now)))) (E.state err.old) (E.state err.new) result }
{
    match end {
        RunEnd::Ended => Ok(()),
        RunEnd::Faulted(kind) => write_fault(err, kind, machine),
        RunEnd::Spent => write_all(err, b"STEP LIMIT\n"),
        RunEnd::Stuck(cause, statement) => write_stuck(err, cause, statement),
    }
}

fn write_ending<E: Sink>(err: &mut E, ending: &Ending) -> Result<(), Failed>
    ensures { Wrote (line (Ok (told ending.now))) (E.state err.old) (E.state err.new) result }
{
    match ending {
        Ending::Compiled => Ok(()),
        Ending::Ran(end, machine) => write_end(err, *end, machine),
    }
}

fn write_stop<E: Sink>(err: &mut E, stop: Stop) -> Result<(), Failed>
    ensures { Wrote (line (Err stop)) (E.state err.old) (E.state err.new) result }
{
    match stop {
        Stop::Usage => write_all(err, USAGE),
        Stop::Refused(refusal) => write_refusal(err, refusal),
        Stop::ReadFault => write_all(err, b"READ FAULT\n"),
        Stop::WriteFault => write_all(err, b"WRITE FAULT\n"),
        Stop::Memory => write_all(err, b"NO MEMORY\n"),
    }
}

fn write_line<E: Sink>(err: &mut E, done: &Result<Ending, Stop>) -> Result<(), Failed>
    ensures { Wrote (line (result_map told done.now)) (E.state err.old) (E.state err.new) result }
{
    match done {
        Ok(ending) => write_ending(err, ending),
        Err(stop) => write_stop(err, *stop),
    }
}

fn plain_status(done: &Result<Ending, Stop>) -> Status
    ensures { result ≡ status_of (result_map told done.now) }
{
    match done {
        Ok(Ending::Compiled) | Ok(Ending::Ran(RunEnd::Ended, _)) => Status::Done,
        Ok(Ending::Ran(RunEnd::Faulted(_), _)) => Status::Faulted,
        Ok(Ending::Ran(RunEnd::Spent, _)) => Status::Spent,
        Ok(Ending::Ran(RunEnd::Stuck(_, _), _)) => Status::Stuck,
        Err(Stop::Usage) => Status::Usage,
        Err(Stop::Refused(_)) => Status::Refused,
        Err(Stop::ReadFault) => Status::ReadFault,
        Err(Stop::WriteFault) => Status::WriteFault,
        Err(Stop::Memory) => Status::Memory,
    }
}

/// Writes the line, and answers the status. A fault of the line is `WriteFault`; the line of `WriteFault` is
/// tried once, and its own fault changes nothing more.
pub fn report<E: Sink>(err: &mut E, done: &Result<Ending, Stop>) -> Status
    ensures { Reports (result_map told done.now) (E.state err.old) (E.state err.new) result }
{
    if let Err(Stop::WriteFault) = done {
        let _ = write_all(err, b"WRITE FAULT\n");
        return Status::WriteFault;
    }
    match write_line(err, done) {
        Ok(()) => plain_status(done),
        Err(Failed) => {
            let _ = write_all(err, b"WRITE FAULT\n");
            Status::WriteFault
        }
    }
}
