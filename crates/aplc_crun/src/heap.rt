//! The buffers that a run has made.
//! It must not know which variables name them.

ghost use Rattle.std.specs.Prelude.{◌≡◌, ◌+◌, ◌-◌, ◌*◌, ◌<◌, ◌≤◌, ◌^◌, ◌∷◌, ◌++◌, [], pos, length, Option, Some, None, slice_get, slice_set, replicate, OnOk, OnErr};
ghost use Rattle.std.specs.Option.{option_copied};
ghost use Rattle.std.specs.Vec.{vec_len};
ghost use Rattle.aplc_crun.specs.Seen.{given_of, slot_written, written_in};

use aplc_cprof::StuckCause;
use sqlite_items::Items;
use std::alloc::{AllocError, Global};

/// Buffers in the order in which they were made, and how many cells those have that are not freed.
#[derive(Drop)]
pub struct Heap {
    pub buffers: Vec<Option<Items<i64>>>,
    pub held: u128,
    ghost bounded: { held ≤ 2 ^ 31 * vec_len buffers },
}

fn write_slot(slot: &mut Option<Items<i64>>, place: i64, v: i64) -> Result<(), StuckCause>
    ensures written { given_of result slot.new ≡ slot_written slot.old place v }
    ensures kept { OnErr result (slot.new ≡ slot.old) }
{
    match slot {
        None => Err(StuckCause::Freed),
        Some(cells) => {
            if place < 0 || place as usize >= cells.len() {
                Err(StuckCause::Outside)
            } else {
                cells.set(place as usize, v);
                Ok(())
            }
        }
    }
}

fn write_in(
    buffers: &mut Vec<Option<Items<i64>>>,
    b: usize,
    place: i64,
    v: i64,
) -> Result<(), StuckCause>
    ensures written { given_of result buffers.new.items ≡ written_in buffers.old.items b (slice_get buffers.old.items b) place v }
    ensures kept { OnErr result (buffers.new.items ≡ buffers.old.items) }
    ensures len { vec_len buffers.new ≡ vec_len buffers.old }
{
    if b < buffers.len() {
        write_slot(&mut buffers[b], place, v)
    } else {
        Err(StuckCause::Outside)
    }
}

impl Heap {
    pub fn new(alloc: Global) -> Heap
        ensures buffers { result.buffers.items ≡ [] }
        ensures held { result.held ≡ 0 }
    {
        Heap {
            buffers: Vec::new(alloc),
            held: 0,
        }
    }

    /// A new buffer with these cells. Refused, it changes nothing.
    pub fn add(&mut self, cells: Vec<i64>) -> Result<(), AllocError>
        requires { length cells.items < 2 ^ 31 }
        ensures buffers { OnOk result (self.new.buffers.items ≡ self.old.buffers.items ++ Some cells.items ∷ []) }
        ensures held { OnOk result (self.new.held ≡ self.old.held + length cells.items) }
        ensures kept { OnErr result (self.new.buffers.items ≡ self.old.buffers.items) }
        ensures kept_held { OnErr result (self.new.held ≡ self.old.held) }
    {
        let count = cells.len();
        self.buffers.push(Some(Items::from_vec(cells)))?;
        self.held += count as u128;
        Ok(())
    }

    /// A new buffer of cells that are all 0. Refused, it changes nothing.
    pub fn make(&mut self, alloc: Global, count: usize) -> Result<(), AllocError>
        requires { count < 2 ^ 31 }
        ensures buffers { OnOk result (self.new.buffers.items ≡ self.old.buffers.items ++ Some (replicate count (pos 0)) ∷ []) }
        ensures held { OnOk result (self.new.held ≡ self.old.held + count) }
        ensures kept { OnErr result (self.new.buffers.items ≡ self.old.buffers.items) }
        ensures kept_held { OnErr result (self.new.held ≡ self.old.held) }
    {
        let cells = vec![in alloc; 0; count]?;
        self.buffers.push(Some(Items::from_vec(cells)))?;
        self.held += count as u128;
        Ok(())
    }

    /// Frees a buffer of so many cells.
    pub fn free(&mut self, b: usize, count: usize)
        requires { b < length self.old.buffers.items }
        ensures buffers { self.new.buffers.items ≡ slice_set self.old.buffers.items b None }
        ensures held { self.new.held ≡ self.old.held - count }
    {
        self.buffers[b] = None;
        self.held = self.held.saturating_sub(count as u128);
    }

    /// Writes a cell of a buffer that is not freed. Refused, it changes nothing.
    pub fn write(&mut self, b: usize, place: i64, v: i64) -> Result<(), StuckCause>
        ensures written { given_of result self.new.buffers.items ≡ written_in self.old.buffers.items b (slice_get self.old.buffers.items b) place v }
        ensures kept { OnErr result (self.new.buffers.items ≡ self.old.buffers.items) }
        ensures kept_held { self.new.held ≡ self.old.held }
    {
        write_in(&mut self.buffers, b, place, v)
    }
}
