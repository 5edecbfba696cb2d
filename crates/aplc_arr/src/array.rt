//! Arrays: a kind, a shape, and the elements in row-major order.
//! It must not know what a primitive does.

ghost use Rattle.std.specs.Prelude.{◌≡◌, ℕ, ℤ, ◌<◌, ◌≤◌, ◌≤ℤ◌, pos, All, IsTrue, IfOk, length, slice_index, slice_index_or};
ghost use Rattle.aplc_arr.specs.Arrays.{Array, IsArray, is_cell, rank, product, count_limit, rank_limit, array_or_fault};
ghost use Rattle.aplc_arr.specs.Structure.{magnitudes};
ghost use Rattle.aplc_arr.specs.Making.{count_from};

use aplc_scalar::{FaultKind, Kind};
use std::marker::Model;

/// The greatest length, and the greatest number of elements.
const COUNT_LIMIT: u64 = 2_147_483_647;

/// An array of the language: at most eight lengths, each of them and the number of elements at most 2147483647,
/// numbers in range or the codes of Unicode scalar values.
#[derive(Drop)]
pub struct Arr {
    kind: Kind,
    shape: Vec<i64>,
    ravel: Vec<i64>,
}

impl Model for Arr {
    ghost use Rattle.aplc_arr.specs.Arrays.{Array};
    ghost use Rattle.aplc_arr.specs.Making.{IsHeld, array_of};

    ghost Value = { Array };

    ghost view = { λ a. array_of a.kind a.shape.items a.ravel.items };

    ghost invariant = { λ a. IsHeld a.kind a.shape.items a.ravel.items };
}

/// The product of the lengths; `None` where one of them or the product passes the limit.
#[tactic(auto, using(crate::proofs::Counting::past_count))]
fn element_count(shape: &[i64]) -> Option<u64>
    ensures { result ≡ count_from 1 (magnitudes shape.now) }
{
    let mut count = 1;
    for length in shape {
        let length = length.unsigned_abs();
        if length > COUNT_LIMIT {
            return None;
        }
        // One past the limit stands for all above it: a later length may still be 0.
        count = (count * length).min(COUNT_LIMIT + 1);
    }
    if count > COUNT_LIMIT {
        return None;
    }
    Some(count)
}

impl Arr {
    /// An array of these lengths and elements, which it takes over. `Limit` comes exactly where a length or the number
    /// of elements passes 2147483647; else `Length` exactly where the elements are not as many as the lengths say.
    pub fn make(kind: Kind, shape: Vec<i64>, ravel: Vec<i64>) -> Result<Arr, FaultKind>
        requires axes { length shape.items ≤ rank_limit }
        requires lengths { All (λ n. pos 0 ≤ℤ n) shape.items }
        requires cells { All (λ z. IsTrue (is_cell kind z)) ravel.items }
        ensures made { result ≡ array_or_fault kind (magnitudes shape.items) ravel.items }
        ensures array { IfOk result IsArray }
    {
        let Some(count) = element_count(shape.as_slice()) else {
            return Err(FaultKind::Limit);
        };
        if count != ravel.len() as u64 {
            return Err(FaultKind::Length);
        }
        Ok(Arr { kind, shape, ravel })
    }

    /// What the elements are.
    pub fn kind(&self) -> Kind
        ensures kind { result ≡ self.now.kind }
        ensures array { IsArray self.now }
    {
        self.kind
    }

    /// The number of axes.
    pub fn rank(&self) -> usize
        ensures { result ≡ rank self.now }
    {
        self.shape.len()
    }

    /// The length of an axis, counted from 0.
    pub fn length(&self, axis: usize) -> i64
        requires { axis < rank self.now }
        ensures { result ≡ pos (slice_index self.now.shape axis) }
    {
        self.shape[axis]
    }

    /// The number of elements.
    pub fn count(&self) -> usize
        ensures { result ≡ product self.now.shape }
    {
        self.ravel.len()
    }

    /// The element at a place in row-major order, counted from 0.
    pub fn cell(&self, place: usize) -> i64
        requires { place < product self.now.shape }
        ensures { (z : ℤ) → result ≡ slice_index_or self.now.cells place z }
    {
        self.ravel[place]
    }
}
