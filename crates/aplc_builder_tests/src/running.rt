//! What runs of programs that are built are given, and what they come to.
//! It must not know how a program is built, nor how it is carried out.

use aplc_scalar::FaultKind;
use std::alloc::AllocError;

/// What a run is given to read, and what it comes to: its output, and the fault that ends it, if one does.
#[derive(Drop)]
pub struct Run {
    pub input: String,
    pub out: String,
    pub fault: Option<FaultKind>,
}

/// A number as it is displayed.
pub(crate) fn put_number(text: &mut String, n: i64) -> Result<(), AllocError> {
    if n < 0 {
        text.push('¯')?;
    }
    write!(text, "{}", n.unsigned_abs())
}
