//! What changes while a program runs.
//! It must not know the statements.

use crate::heap::Heap;
use crate::pending::Pending;
use crate::places::Places;
use aplc_cprof::StuckCause;
use aplc_scalar::FaultKind;

/// What a step comes to. A held one is not taken: a read is due, or the room for output is short.
#[derive(Clone, Copy, Debug, PartialEq, Eq)]
pub enum Verdict {
    Going,
    Ended,
    Faulted(FaultKind),
    Stuck(StuckCause),
    Held,
}

/// A caller: the place due after the call, and its variables.
#[derive(Drop)]
pub struct Frame {
    pub at: usize,
    pub ints: Vec<Option<i64>>,
    pub bufs: Vec<Option<usize>>,
}

/// A run. The next caller is the last of the list. Buffers go by their number in the heap, and a freed one is None.
#[derive(Drop)]
pub struct Live {
    pub at: usize,
    pub ints: Vec<Option<i64>>,
    pub bufs: Vec<Option<usize>>,
    pub global_ints: Vec<i64>,
    pub global_bufs: Vec<Option<usize>>,
    pub heap: Heap,
    pub callers: Vec<Frame>,
    /// The marks that set the places of the run.
    pub places: Places,
    /// How many marks were passed. There are no more of them than steps.
    pub marks: u64,
    pub read_count: i64,
    pub out: Pending,
    /// The most cells that were held after a step.
    pub peak: u128,
    pub steps: u64,
}
