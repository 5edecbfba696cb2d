//! A program and what has become of its run.
//! It must not know how a statement is carried out.

ghost use Rattle.std.specs.Prelude.{◌≡◌, ◌+◌, ◌<◌, ◌≤◌, ◌^◌, ℕ, List, [], ◌∷◌, false, length, reverse, IfOk, Some, Err, IsTrue, ◌↔◌, option_map, slice_get};
ghost use Rattle.aplc_cprof.specs.declared.syntax.CProgram.{CProgram};
ghost use Rattle.aplc_cprof.specs.WellFormed.{IsWellFormed};
ghost use Rattle.aplc_cprof.specs.Machine.{State, all_places, code_of, initial, held};
ghost use Rattle.aplc_crun.specs.Flat.{flat_of};
ghost use Rattle.aplc_crun.specs.Laying.{place_at};
ghost use Rattle.aplc_crun.specs.Running.{Stands, StartsAt, start_flat, CanRun, places_of, cells_held, cells_at_most, steps_taken};
ghost use Rattle.aplc_crun.specs.Ran.{Ran};

use crate::code::{Entry, Laid, Node};
use crate::heap::Heap;
use crate::lay::lay;
use crate::live::Live;
use crate::pending::Pending;
use crate::places::Places;
use crate::running::{is_spent, turns};
use crate::step::{null, unset};
use crate::stop::RunStop;
use aplc_cprof::CProgram;
use aplc_io::{Sink, Source};
use std::alloc::{AllocError, Global};

/// A program of the C profile, and the state of its run.
#[derive(Drop)]
pub struct Machine {
    pub(crate) alloc: Global,
    pub(crate) laid: Laid,
    pub(crate) live: Live,
    /// Bytes of the input that were read and not used yet.
    pub(crate) ahead: Vec<u8>,
    /// Whether a read has met the end of the input.
    pub(crate) ended: bool,
    pub(crate) ready: bool,
}

#[tactic(auto, using(crate::proofs::Standing::starts_at))]
fn first(entries: &[Entry]) -> Entry
    requires { 0 < length entries.now }
    ensures { StartsAt entries.now result }
{
    entries[0]
}

fn first_live(alloc: Global, entry: Entry, ints: u32, bufs: u32) -> Result<Live, AllocError>
    ensures { IfOk result (λ l. flat_of l ≡ start_flat entry ints bufs) }
{
    let global_ints = vec![in alloc; 0; ints as usize]?;
    Ok(Live {
        at: entry.at,
        ints: unset(alloc, entry.ints)?,
        bufs: null(alloc, entry.bufs)?,
        global_ints,
        global_bufs: null(alloc, bufs as usize)?,
        heap: Heap::new(alloc),
        callers: Vec::new(alloc),
        places: Places::new(alloc)?,
        marks: 0,
        read_count: 0,
        out: Pending::new(alloc)?,
        peak: 0,
        steps: 0,
    })
}

/// The mark that set the place which stands so far behind the innermost one.
#[tactic(auto, using(crate::proofs::Callers::back_marks))]
fn mark_at(places: &Places, back: usize) -> Option<usize>
    requires { back < length (places.now.here ∷ reverse places.now.behind.items) }
    ensures { slice_get (places.now.here ∷ reverse places.now.behind.items) back ≡ Some result }
{
    if back == 0 {
        return places.here;
    }
    places.behind[places.behind.len() - back]
}

fn name_at(nodes: &[Node], mark: Option<usize>) -> &[u8]
    ensures { result.now ≡ (place_at nodes.now mark).name }
{
    match mark {
        None => &[],
        Some(n) => match nodes.get(n) {
            Some(Node::At(name, _, _)) => name.as_slice(),
            _ => &[],
        },
    }
}

fn line_at(nodes: &[Node], mark: Option<usize>) -> i64
    ensures { result ≡ (place_at nodes.now mark).line }
{
    match mark {
        None => 0,
        Some(n) => match nodes.get(n) {
            Some(Node::At(_, line, _)) => *line,
            _ => 0,
        },
    }
}

impl Machine {
    /// The machine at the start of a program. It takes what the first frame, the statements, the places and the output
    /// need. Want of memory is the only error.
    pub fn start(alloc: Global, program: CProgram) -> Result<Machine, AllocError>
        requires formed { IsWellFormed program }
        ensures stands { IfOk result (λ m. (input : List ℕ) → Stands program m [] input (initial (code_of program) input)) }
        ensures ready { IfOk result CanRun }
        ensures fresh { IfOk result (λ m. (m.live.steps ≡ 0) × (m.ended ≡ false)) }
    {
        let ints = program.ints;
        let bufs = program.bufs;
        let laid = lay(alloc, program)?;
        let entry = first(laid.entries.as_slice());
        let live = first_live(alloc, entry, ints, bufs)?;
        Ok(Machine {
            alloc,
            laid,
            live,
            ahead: Vec::new(alloc),
            ended: false,
            ready: true,
        })
    }

    /// Runs the program for at most `budget` steps, from where the last run stopped.
    ///
    /// It reads from `input` where a statement reads, up to the end of a line or a little further; what was read and
    /// not taken is kept for the next run. Once a read has given no byte, the input is not asked again. At each
    /// answer but `WriteFault` all of the output so far was handed over to `out`.
    ///
    /// - Ok: the program came to its end.
    /// - `Fault`: it ended with a fault.
    /// - `Spent`: all of the budget was spent. The program can run on.
    /// - `Stuck`: the machine is stuck at the statement of this number.
    /// - `ReadFault`: the input failed at a statement that reads. The statement is not counted as a step.
    /// - `WriteFault`: the output refused what was to be handed over, or a part of it.
    /// - `Memory`: no memory was left for new cells, a call or a line. The statement is not counted as a step.
    pub fn run<S: Source, O: Sink>(
        &mut self,
        input: &mut S,
        out: &mut O,
        budget: u64,
    ) -> Result<(), RunStop>
        requires can { CanRun self.old }
        requires room { self.old.live.steps + budget < 2 ^ 64 }
        ensures most { self.new.live.steps ≤ self.old.live.steps + budget }
        ensures once { S.met input.old ≡ self.old.ended → (S.met input.new ≡ self.new.ended) × (S.late input.new ≡ S.late input.old) }
        ensures ran { Ran self.old (S.state input.old) (O.state out.old) budget self.new (S.state input.new) (O.state out.new) result }
        ensures again { CanRun self.new ↔ (result ≡ Err RunStop.Spent) }
    {
        let answer = turns(self, input, out, budget);
        self.ready = is_spent(&answer);
        answer
    }

    /// Whether it can go on: there was no run yet, or the last one took all the steps that it might.
    pub fn can_run(&self) -> bool
        ensures { IsTrue result ↔ CanRun self.now }
    {
        self.ready
    }

    /// The name of the function where the run stands, at first empty.
    pub fn place_name(&self) -> &[u8]
        ensures told { result.now ≡ (places_of self.now).here.name }
        ensures stands { (p : CProgram) (given more : List ℕ) (st : State) → Stands p self.now given more st → result.now ≡ st.places.here.name }
    {
        name_at(self.laid.nodes.as_slice(), self.live.places.here)
    }

    /// The line where the run stands, at first 0.
    pub fn place_line(&self) -> i64
        ensures told { result ≡ (places_of self.now).here.line }
        ensures stands { (p : CProgram) (given more : List ℕ) (st : State) → Stands p self.now given more st → result ≡ st.places.here.line }
    {
        line_at(self.laid.nodes.as_slice(), self.live.places.here)
    }

    /// How many places there are, from 1 to 4,096.
    pub fn places(&self) -> usize
        ensures told { result ≡ length (all_places (places_of self.now)) }
        ensures stands { (p : CProgram) (given more : List ℕ) (st : State) → Stands p self.now given more st → result ≡ length (all_places st.places) }
    {
        1 + self.live.places.behind.len()
    }

    /// The name of the function at a place, counted from the innermost one, which is 0, outwards.
    #[tactic(auto, using(crate::proofs::Standing::callers_told))]
    pub fn caller_name(&self, back: usize) -> &[u8]
        requires { back < length (all_places (places_of self.now)) }
        ensures told { option_map (λ p. p.name) (slice_get (all_places (places_of self.now)) back) ≡ Some result.now }
        ensures stands { (p : CProgram) (given more : List ℕ) (st : State) → Stands p self.now given more st → option_map (λ p. p.name) (slice_get (all_places st.places) back) ≡ Some result.now }
    {
        name_at(self.laid.nodes.as_slice(), mark_at(&self.live.places, back))
    }

    /// The line at a place, counted in the same way.
    #[tactic(auto, using(crate::proofs::Standing::callers_told))]
    pub fn caller_line(&self, back: usize) -> i64
        requires { back < length (all_places (places_of self.now)) }
        ensures told { option_map (λ p. p.line) (slice_get (all_places (places_of self.now)) back) ≡ Some result }
        ensures stands { (p : CProgram) (given more : List ℕ) (st : State) → Stands p self.now given more st → option_map (λ p. p.line) (slice_get (all_places st.places) back) ≡ Some result }
    {
        line_at(self.laid.nodes.as_slice(), mark_at(&self.live.places, back))
    }

    /// How many marks were left.
    pub fn marks(&self) -> u64
        ensures { (p : CProgram) (given more : List ℕ) (st : State) → Stands p self.now given more st → result ≡ length st.marks }
    {
        let _steps = self.live.steps;
        self.live.marks
    }

    /// The cells of the buffers that are not freed.
    pub fn cells(&self) -> u128
        ensures told { result ≡ cells_held self.now }
        ensures stands { (p : CProgram) (given more : List ℕ) (st : State) → Stands p self.now given more st → result ≡ held st }
    {
        self.live.heap.held
    }

    /// The most cells that were held after a step.
    pub fn peak(&self) -> u128
        ensures told { result ≡ cells_at_most self.now }
        ensures stands { (p : CProgram) (given more : List ℕ) (st : State) → Stands p self.now given more st → result ≡ st.peak }
    {
        self.live.peak
    }

    /// The steps that were taken.
    pub fn steps(&self) -> u64
        ensures told { result ≡ steps_taken self.now }
        ensures stands { (p : CProgram) (given more : List ℕ) (st : State) → Stands p self.now given more st → result ≡ st.steps }
    {
        self.live.steps
    }
}
