//! Runs a machine up to its next read, and hands its output over.
//! It must not know how a read is carried out.

ghost use Rattle.std.specs.Prelude.{◌≡◌, ◌+◌, ◌-◌, ◌<◌, ◌≤◌, ◌^◌, ◌*◌, [], length, min, IfOk, IsTrue, ◌↔◌, OnOk, OnErr, IsErrOf, slice_get};
ghost use Rattle.aplc_io.specs.Outside.{sink_with};
ghost use Rattle.aplc_io.specs.Parts.{PartWritten};
ghost use Rattle.aplc_crun.specs.declared.live.Verdict.TheVariants as verdict;
ghost use Rattle.aplc_crun.specs.Flat.{flat_of};
ghost use Rattle.aplc_crun.specs.Pausing.{ReadIsDue, MemoryIsDue};
ghost use Rattle.aplc_crun.specs.Advancing.{emptied, Advanced, Cut};

use crate::code::Node;
use crate::live::{Live, Verdict};
use crate::machine::Machine;
use crate::run_live::run_live;
use aplc_io::{Failed, Sink, write_all};

/// Why a run did not come to its next read, its end or the end of its budget.
#[derive(Clone, Copy, Debug, PartialEq, Eq)]
pub enum Halt {
    Memory,
    Write,
}

/// Whether the statement at a place reads.
fn reads(nodes: &[Node], at: usize) -> bool
    ensures { IsTrue result ↔ ReadIsDue (slice_get nodes.now at) }
{
    match nodes.get(at) {
        Some(Node::ReadText(_, _)) | Some(Node::ReadNums(_, _)) => true,
        _ => false,
    }
}

/// Hands the pending output over. Refused, it is still pending.
fn flush<O: Sink>(live: &mut Live, out: &mut O) -> Result<(), Failed>
    ensures steps { live.new.steps ≡ live.old.steps }
    ensures at { live.new.at ≡ live.old.at }
    ensures wrote { OnOk result (O.state out.new ≡ sink_with (O.state out.old) live.old.out.bytes.items) }
    ensures emptied { OnOk result (flat_of live.new ≡ emptied (flat_of live.old)) }
    ensures part { OnErr result (PartWritten live.old.out.bytes.items (O.state out.old) (O.state out.new)) }
    ensures kept { OnErr result (flat_of live.new ≡ flat_of live.old) }
{
    match write_all(out, live.out.as_slice()) {
        Ok(()) => {
            live.out.clear();
            Ok(())
        }
        Err(Failed) => Err(Failed),
    }
}

/// Takes at most `budget` steps, and hands over what they wrote. `Held` is that the next one is held.
#[tactic(auto, using(crate::proofs::Advancing::rounds))]
fn round<O: Sink>(machine: &mut Machine, out: &mut O, budget: u64) -> Result<Verdict, Halt>
    requires { machine.old.live.steps + budget < 2 ^ 64 }
    ensures least { machine.old.live.steps ≤ machine.new.live.steps }
    ensures most { machine.new.live.steps ≤ machine.old.live.steps + budget }
    ensures advanced { IfOk result (λ v. Advanced machine.old (O.state out.old) v machine.new (O.state out.new)) }
    ensures kept { machine.new ≡ record machine.old { live = machine.new.live } }
    ensures empty { OnOk result (machine.new.live.out.bytes.items ≡ []) }
    ensures drained { IsErrOf result Halt.Memory → machine.new.live.out.bytes.items ≡ [] }
    ensures spent { IfOk result (λ v. v ≡ verdict.Going → machine.new.live.steps ≡ machine.old.live.steps + budget) }
    ensures left { IfOk result (λ v. v ≡ verdict.Held → machine.new.live.steps < machine.old.live.steps + budget) }
    ensures progress { IfOk result (λ v. v ≡ verdict.Held → machine.old.live.out.bytes.items ≡ [] → (ReadIsDue (slice_get machine.new.laid.nodes.items machine.new.live.at) → ⊥) → machine.old.live.steps < machine.new.live.steps) }
    ensures memory { IsErrOf result Halt.Memory → Advanced machine.old (O.state out.old) verdict.Held machine.new (O.state out.new) }
    ensures hungry { IsErrOf result Halt.Memory → MemoryIsDue (slice_get machine.new.laid.nodes.items machine.new.live.at) }
    ensures cut { IsErrOf result Halt.Write → Cut machine.old (O.state out.old) machine.new (O.state out.new) }
{
    match run_live(machine.alloc, &machine.laid, &mut machine.live, budget) {
        Err(_) => match flush(&mut machine.live, out) {
            Err(Failed) => Err(Halt::Write),
            Ok(()) => Err(Halt::Memory),
        },
        Ok(verdict) => match flush(&mut machine.live, out) {
            Err(Failed) => Err(Halt::Write),
            Ok(()) => Ok(verdict),
        },
    }
}

/// Takes at most `budget` steps, and hands over what they wrote. `Held` is that a read is due.
#[tactic(auto, using(crate::proofs::Advancing::advances))]
pub fn advance<O: Sink>(machine: &mut Machine, out: &mut O, budget: u64) -> Result<Verdict, Halt>
    requires { machine.old.live.steps + budget < 2 ^ 64 }
    ensures most { machine.new.live.steps ≤ machine.old.live.steps + budget }
    ensures advanced { IfOk result (λ v. Advanced machine.old (O.state out.old) v machine.new (O.state out.new)) }
    ensures kept { machine.new ≡ record machine.old { live = machine.new.live } }
    ensures empty { OnOk result (machine.new.live.out.bytes.items ≡ []) }
    ensures drained { IsErrOf result Halt.Memory → machine.new.live.out.bytes.items ≡ [] }
    ensures spent { IfOk result (λ v. v ≡ verdict.Going → machine.new.live.steps ≡ machine.old.live.steps + budget) }
    ensures left { IfOk result (λ v. v ≡ verdict.Held → machine.new.live.steps < machine.old.live.steps + budget) }
    ensures held { IfOk result (λ v. v ≡ verdict.Held → ReadIsDue (slice_get machine.new.laid.nodes.items machine.new.live.at)) }
    ensures memory { IsErrOf result Halt.Memory → Advanced machine.old (O.state out.old) verdict.Held machine.new (O.state out.new) }
    ensures hungry { IsErrOf result Halt.Memory → MemoryIsDue (slice_get machine.new.laid.nodes.items machine.new.live.at) }
    ensures cut { IsErrOf result Halt.Write → Cut machine.old (O.state out.old) machine.new (O.state out.new) }
{
    let mut left = budget;
    'rounds: loop {
        let before = machine.live.steps;
        match round(machine, out, left) {
            Err(halt) => return Err(halt),
            Ok(Verdict::Held) => {
                if reads(machine.laid.nodes.as_slice(), machine.live.at) {
                    return Ok(Verdict::Held);
                }
                left -= machine.live.steps - before;
            }
            Ok(verdict) => return Ok(verdict),
        }
    }
}
