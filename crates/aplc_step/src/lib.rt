//! Steppers: the elements of an array as cells of a buffer or of a table, by a base and a stride for each axis.
//! They must not know what is done with the elements.
#![tactic(auto)]

mod extending;
mod laws;
mod place;
mod setting;
mod stepper;
mod whole;

pub use extending::extend;
pub use laws::elements_by_steppers;
pub use stepper::{Origin, Stepper, element};
pub use whole::{of_buffer, of_table, some_element};
