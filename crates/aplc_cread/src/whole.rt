//! Reads whole texts, and finds why others are refused.
//! It must not know the forms.

ghost use Rattle.std.specs.Prelude.{◌≡◌, ◌<◌, Some, None, IfOk, IfErr};
ghost use Rattle.aplc_cprof.specs.declared.syntax.CProgram.{CProgram};
ghost use Rattle.aplc_cprof.specs.WellFormed.{IsText};
ghost use Rattle.aplc_cread.specs.Refusal.{Whole, Ends, IsBegun, IsStop, IsRead, HasNumber, IsAnswer, strict as strict_mode, is_text_byte as is_text_byte_code};

use crate::answer::{CRefusal, CStop, Mode};
use crate::lexical::{Halt, split};
use crate::program::program;
use aplc_cprof::{CProgram, preamble_bytes};
use std::alloc::Global;

/// How many braces, brackets and parentheses of a function may be open at once.
const MOST_OPEN: u32 = 256;

/// All of the bytes.
fn whole(alloc: Global, mode: Mode, bytes: &[u8]) -> Result<CProgram, Halt>
    ensures { Whole mode bytes.now result }
{
    let (p, rest) = program(alloc, mode, bytes)?;
    match split(rest) {
        None => Ok(p),
        Some(_) => Err(Halt::At(rest)),
    }
}

/// Whether the bytes begin a text.
fn begins(alloc: Global, mode: Mode, bytes: &[u8]) -> Result<bool, CStop>
    ensures { IsBegun mode bytes.now result }
{
    let rest = match whole(alloc, mode, bytes) {
        Ok(_) => return Ok(true),
        Err(Halt::Memory) => return Err(CStop::Memory),
        Err(Halt::At(rest)) => rest,
    };
    match split(rest) {
        None => return Ok(true),
        Some(_) => return Ok(false),
    }
}

fn is_text_byte(c: u8) -> bool
    ensures { result ≡ is_text_byte_code c }
{
    c == 10 || (32 <= c && c <= 126)
}

/// Why the bytes are refused at the rest.
fn refusal(alloc: Global, bytes: &[u8], rest: &[u8]) -> CStop
    requires { Ends strict_mode bytes.now rest.now }
    ensures { IsStop bytes.now result }
{
    let place = (bytes.len() - rest.len()) as u64;
    if place < preamble_bytes().len() as u64 {
        return CStop::Refused(CRefusal { number: 30, place });
    }
    let c = match split(rest) {
        None => return CStop::Refused(CRefusal { number: 32, place }),
        Some((c, _)) => c,
    };
    if !is_text_byte(c) {
        return CStop::Refused(CRefusal { number: 31, place });
    }
    let front = &bytes[..bytes.len() - rest.len() + 1];
    match begins(
        alloc,
        Mode {
            limit: None,
            free: false,
        },
        front,
    ) {
        Err(stop) => return stop,
        Ok(true) => return CStop::Refused(CRefusal { number: 34, place }),
        Ok(false) => {}
    }
    match begins(
        alloc,
        Mode {
            limit: Some(MOST_OPEN),
            free: true,
        },
        front,
    ) {
        Err(stop) => stop,
        Ok(true) => CStop::Refused(CRefusal { number: 33, place }),
        Ok(false) => CStop::Refused(CRefusal { number: 32, place }),
    }
}

/// What the bytes are.
fn answer(alloc: Global, bytes: &[u8]) -> Result<CProgram, CStop>
    ensures { IsAnswer bytes.now result }
{
    match whole(
        alloc,
        Mode {
            limit: Some(MOST_OPEN),
            free: false,
        },
        bytes,
    ) {
        Ok(p) => Ok(p),
        Err(Halt::Memory) => Err(CStop::Memory),
        Err(Halt::At(rest)) => Err(refusal(alloc, bytes, rest)),
    }
}

/// The program of which the bytes are the text; where they are the text of none, the place and the reason.
///
/// It reads the bytes at most three times. It calls itself only along what is open, at most 257 deep, along the
/// characters of a name, at most 63, and along the digits that a number may still get, at most 19.
#[tactic(auto, using(crate::proofs::Answering::answer_ok, crate::proofs::Answering::answer_texts, crate::proofs::Answering::answer_refused, crate::proofs::Answering::answer_numbers))]
pub fn read(alloc: Global, bytes: &[u8]) -> Result<CProgram, CStop>
    ensures ok { IfOk result (IsText bytes.now) }
    ensures texts { (p : CProgram) → IsText bytes.now p → IsRead p result }
    ensures refused { IfErr result (IsStop bytes.now) }
    ensures numbers { IfErr result HasNumber }
{
    answer(alloc, bytes)
}
