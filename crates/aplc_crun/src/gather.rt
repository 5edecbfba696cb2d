//! Reads ahead up to the end of a line.
//! It must not know what a line means, nor which statement reads it.

ghost use Rattle.std.specs.Prelude.{◌≡◌, ◌+◌, ◌<◌, ◌≤◌, ◌==◌, true, false, length, position, IsTrue, IfOk, OnOk, IsErrOf};
ghost use Rattle.std.specs.Vec.{vec_len};
ghost use Rattle.aplc_io.specs.Outside.{SourceFails};
ghost use Rattle.aplc_scalar.proofs.InputEnds.{has_line_feed};
ghost use Rattle.aplc_crun.specs.Gathering.{Gathered, Missed, Fetched, IsFound, IsFirstFeed};

use aplc_io::{Failed, Source};
use aplc_scalar::FaultKind;

/// How many bytes are asked for at a time.
const PIECE: usize = 4096;

/// No line that is read is longer.
const LONGEST: usize = 2_147_483_647;

/// Where the line at the front of bytes ends: how many bytes its text has, and how many it has with its end.
#[derive(Clone, Copy, Debug, PartialEq, Eq)]
pub struct Extent {
    pub text: usize,
    pub taken: usize,
}

/// The line at the front of bytes, or the fault of a read of it.
#[derive(Clone, Copy, Debug, PartialEq, Eq)]
pub enum Found {
    Line(Extent),
    NoLine(FaultKind),
}

/// Why no line was found.
#[derive(Clone, Copy, Debug, PartialEq, Eq)]
pub enum Missing {
    /// The source failed.
    Read,
    /// No memory was left.
    Memory,
}

/// The place of the first line feed.
fn first_feed(bytes: &[u8]) -> Option<usize>
    ensures { result ≡ position (λ b. b == 10) bytes.now }
{
    bytes.iter().position(|b| *b == b'\n')
}

/// The line whose line feed is at a place, the first of the bytes.
fn fed_line(bytes: &[u8], feed: usize, ended: bool) -> Found
    requires { IsFirstFeed bytes.now feed }
    ensures { IsFound bytes.now ended result }
{
    if feed > LONGEST {
        return Found::NoLine(FaultKind::Limit);
    }
    if feed == 0 {
        return Found::Line(Extent { text: 0, taken: 1 });
    }
    if bytes[feed - 1] == b'\r' {
        return Found::Line(Extent {
            text: feed - 1,
            taken: feed + 1,
        });
    }
    Found::Line(Extent {
        text: feed,
        taken: feed + 1,
    })
}

/// The line that the end of the input ends.
#[tactic(auto, using(crate::proofs::Gathering::ends))]
fn last_line(bytes: &[u8]) -> Found
    requires none { has_line_feed bytes.now ≡ false }
    requires short { length bytes.now ≤ 2147483647 }
    ensures { IsFound bytes.now true result }
{
    if bytes.is_empty() {
        return Found::NoLine(FaultKind::Input);
    }
    Found::Line(Extent {
        text: bytes.len(),
        taken: bytes.len(),
    })
}

/// Reads once, behind the bytes that there are. Memory that is refused is refused before the read.
#[tactic(auto, using(crate::proofs::Gathering::fetches))]
fn fetch<S: Source>(
    ahead: &mut Vec<u8>,
    ended: &mut bool,
    input: &mut S,
    piece: &mut [u8],
) -> Result<(), Missing>
    requires room { 0 < length piece.old }
    requires unmet { ended.old ≡ false }
    ensures once { S.met input.old ≡ false → (S.met input.new ≡ ended.new) × (S.late input.new ≡ S.late input.old) }
    ensures fetched { OnOk result (Fetched ahead.old.items (S.state input.old) ahead.new.items ended.new (S.state input.new)) }
    ensures kept { IsErrOf result Missing.Memory → (ahead.new.items ≡ ahead.old.items) × (ended.new ≡ ended.old) × (S.state input.new ≡ S.state input.old) }
    ensures failed { IsErrOf result Missing.Read → (ahead.new.items ≡ ahead.old.items) × (ended.new ≡ ended.old) × SourceFails (S.state input.old) (S.state input.new) }
{
    match ahead.reserve(piece.len()) {
        Ok(()) => {}
        Err(_) => return Err(Missing::Memory),
    }
    match input.read(piece) {
        Err(Failed) => Err(Missing::Read),
        Ok(count) => {
            *ended = count == 0;
            let (given, _) = piece.split_at(count);
            match ahead.extend_from_slice(given) {
                Ok(()) => Ok(()),
                Err(_) => unreachable!(),
            }
        }
    }
}

/// Reads ahead until the line at the front is known: up to a line feed, to the end of the input, or to more bytes
/// than a line may have. It asks for no byte that is not needed for that, but for the rest of a piece.
#[tactic(auto, using(crate::proofs::Gathering::gathers))]
pub fn gather<S: Source>(
    ahead: &mut Vec<u8>,
    ended: &mut bool,
    input: &mut S,
) -> Result<Found, Missing>
    ensures once { S.met input.old ≡ ended.old → (S.met input.new ≡ ended.new) × (S.late input.new ≡ S.late input.old) }
    ensures found { IfOk result (λ f. IsFound ahead.new.items ended.new f) }
    ensures gathered { OnOk result (Gathered ahead.old.items ended.old (S.state input.old) ahead.new.items ended.new (S.state input.new)) }
    ensures memory { IsErrOf result Missing.Memory → Gathered ahead.old.items ended.old (S.state input.old) ahead.new.items ended.new (S.state input.new) }
    ensures missed { IsErrOf result Missing.Read → Missed ahead.old.items ended.old (S.state input.old) ahead.new.items ended.new (S.state input.new) }
{
    let mut piece = [0u8; PIECE];
    let mut clear = 0;
    'pieces: loop {
        let (_, rest) = ahead.as_slice().split_at(clear);
        match first_feed(rest) {
            Some(n) => return Ok(fed_line(ahead.as_slice(), clear + n, *ended)),
            None => clear = ahead.len(),
        }
        if clear > LONGEST {
            return Ok(Found::NoLine(FaultKind::Limit));
        }
        if *ended {
            return Ok(last_line(ahead.as_slice()));
        }
        match fetch(ahead, ended, input, &mut piece) {
            Ok(()) => {}
            Err(missing) => return Err(missing),
        }
    }
}
