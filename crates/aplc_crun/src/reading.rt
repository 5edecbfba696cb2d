//! Carries out a read that is due.
//! It must not know how bytes become cells, nor how far a run goes.

ghost use Rattle.std.specs.Prelude.{◌≡◌, ◌+◌, ◌<◌, ◌≤◌, ◌^◌, ◌++◌, ℕ, [], length, take, drop, Some, Err, IfOk, IfErr, OnOk, OnErr, option_map, option_and_then, slice_get};
ghost use Rattle.aplc_io.specs.Outside.{SinkState};
ghost use Rattle.aplc_scalar.specs.Input.{decoded};
ghost use Rattle.aplc_crun.specs.declared.live.Verdict.TheVariants as verdict;
ghost use Rattle.aplc_crun.specs.Flat.{flat_of, lined, counted};
ghost use Rattle.aplc_crun.specs.Pausing.{ReadIsDue};
ghost use Rattle.aplc_crun.specs.Running.{CanRun};
ghost use Rattle.aplc_crun.specs.Gathering.{IsLine};
ghost use Rattle.aplc_crun.specs.Decoding.{meaning_of};
ghost use Rattle.aplc_crun.specs.Reading.{node_of, Stepped, Untaken};
ghost use Rattle.aplc_crun.specs.Ran.{Went, Ran};

use crate::code::Node;
use crate::decode::{Form, decode};
use crate::gather::{Extent, Found, Missing, gather};
use crate::live::Live;
use crate::machine::Machine;
use crate::step::{count, name_buf};
use crate::stop::RunStop;
use aplc_cprof::Buf;
use aplc_io::Source;
use aplc_scalar::FaultKind;
use std::alloc::AllocError;

/// A statement that reads: the form, the variable for the buffer, and the place due after it.
#[derive(Clone, Copy, Debug, PartialEq, Eq)]
pub struct Reader {
    pub form: Form,
    pub buf: Buf,
    pub next: usize,
}

fn reader_at(nodes: &[Node], at: usize) -> Reader
    requires { ReadIsDue (slice_get nodes.now at) }
    ensures { slice_get nodes.now at ≡ Some (node_of result.form result.buf result.next) }
{
    match nodes.get(at) {
        Some(Node::ReadText(buf, next)) => Reader {
            form: Form::Text,
            buf: *buf,
            next: *next,
        },
        Some(Node::ReadNums(buf, next)) => Reader {
            form: Form::Numbers,
            buf: *buf,
            next: *next,
        },
        _ => unreachable!(),
    }
}

/// Puts the cells of a line into a new buffer, and counts the step. Refused, nothing has changed.
fn put_line(live: &mut Live, reader: Reader, cells: Vec<i64>) -> Result<(), AllocError>
    requires few { length cells.items < 2 ^ 31 }
    requires room { live.old.steps + 1 < 2 ^ 64 }
    ensures put { OnOk result (flat_of live.new ≡ counted (lined reader.buf cells.items reader.next (flat_of live.old))) }
    ensures kept { OnErr result (flat_of live.new ≡ flat_of live.old) }
{
    let cell_count = cells.len();
    let b = live.heap.buffers.len();
    live.heap.add(cells)?;
    live.read_count = cell_count as i64;
    name_buf(live, reader.buf, Some(b));
    live.at = reader.next;
    count(live);
    Ok(())
}

/// Lets go of the front of bytes.
fn cut_front(bytes: &mut Vec<u8>, count: usize)
    requires { count ≤ length bytes.old.items }
    ensures { bytes.new.items ≡ drop count bytes.old.items }
{
    let left = bytes.len() - count;
    bytes.rotate_left(count);
    bytes.truncate(left);
}

/// Takes the line at the front of the bytes that were read, as the statement that is due does.
#[tactic(auto, using(crate::proofs::ReadSteps::takes))]
fn take_line(machine: &mut Machine, extent: Extent) -> Result<(), RunStop>
    requires due { ReadIsDue (slice_get machine.old.laid.nodes.items machine.old.live.at) }
    requires line { IsLine machine.old.ahead.items machine.old.ended extent }
    requires room { machine.old.live.steps + 1 < 2 ^ 64 }
    ensures ended { machine.new.ended ≡ machine.old.ended }
    ensures took { OnOk result (Stepped machine.old verdict.Going 1 machine.new) }
    ensures untaken { IfErr result (λ e. Untaken machine.old e machine.new) }
{
    let reader = reader_at(machine.laid.nodes.as_slice(), machine.live.at);
    let (text, _) = machine.ahead.as_slice().split_at(extent.text);
    match decode(machine.alloc, reader.form, text) {
        Err(_) => Err(RunStop::Memory),
        Ok(None) => {
            count(&mut machine.live);
            Err(RunStop::Fault(FaultKind::Input))
        }
        Ok(Some(cells)) => match put_line(&mut machine.live, reader, cells) {
            Err(_) => Err(RunStop::Memory),
            Ok(()) => {
                cut_front(&mut machine.ahead, extent.taken);
                Ok(())
            }
        },
    }
}

/// Carries out the read that is due, and counts it. Where the source fails or memory is refused it is neither
/// carried out nor counted, but bytes that were read stay ahead.
pub fn read_due<S: Source>(machine: &mut Machine, input: &mut S) -> Result<(), RunStop>
    requires due { ReadIsDue (slice_get machine.old.laid.nodes.items machine.old.live.at) }
    requires room { machine.old.live.steps + 1 < 2 ^ 64 }
    requires empty { machine.old.live.out.bytes.items ≡ [] }
    ensures once { S.met input.old ≡ machine.old.ended → (S.met input.new ≡ machine.new.ended) × (S.late input.new ≡ S.late input.old) }
    ensures later { machine.old.live.steps ≤ machine.new.live.steps }
    ensures most { machine.new.live.steps ≤ machine.old.live.steps + 1 }
    ensures ready { machine.new.ready ≡ machine.old.ready }
    ensures counted { OnOk result (machine.new.live.steps ≡ machine.old.live.steps + 1) }
    ensures went { OnOk result ((sink : SinkState) → Went machine.old (S.state input.old) (S.state input.new) sink sink [] verdict.Held machine.new) }
    ensures stops { IfErr result (λ e. (sink : SinkState) (budget : ℕ) → Ran machine.old (S.state input.old) sink budget machine.new (S.state input.new) sink (Err e)) }
{
    match gather(&mut machine.ahead, &mut machine.ended, input) {
        Err(Missing::Read) => Err(RunStop::ReadFault),
        Err(Missing::Memory) => Err(RunStop::Memory),
        Ok(Found::NoLine(kind)) => {
            count(&mut machine.live);
            Err(RunStop::Fault(kind))
        }
        Ok(Found::Line(extent)) => match take_line(machine, extent) {
            Ok(()) => Ok(()),
            Err(stop) => Err(stop),
        },
    }
}
