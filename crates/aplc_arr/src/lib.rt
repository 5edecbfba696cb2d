//! Arrays, and every primitive on whole arrays as a definition.
//! It must not know of programs, of names, or of the C text.
#![tactic(auto)]

mod array;
mod laws;

pub use array::Arr;
pub use laws::{
    arrays_stay_dyadic, arrays_stay_indexed, arrays_stay_monadic, elements_by_formula,
    number_shown, row_major_order, shapes_dyadic, shapes_indexed, shapes_monadic,
};
