//! What the reader answers.
//! It must not know how it reads.

use thiserror::Error;

/// How much may be open, and whether every name counts as declared.
#[derive(Clone, Copy)]
pub(crate) struct Mode {
    pub(crate) limit: Option<u32>,
    pub(crate) free: bool,
}

/// Why bytes are no text, and the length of their longest prefix that begins one.
///
/// The number is 30 where the place lies in the preamble, 31 for a byte of no text, 34 for too deep a nesting,
/// 33 for a name that is not declared, and 32 for all else.
#[derive(Clone, Copy, Debug, PartialEq, Eq)]
pub struct CRefusal {
    pub number: u8,
    pub place: u64,
}

/// Why no program was read.
#[derive(Debug, Drop, Error)]
pub enum CStop {
    /// The bytes are the text of no program.
    #[error("the text is refused")]
    Refused(CRefusal),
    /// Memory ran out. Nothing is said of the bytes.
    #[error("out of memory")]
    Memory,
}
